//! Tests of the public calls that read expressions and expand macros, of what no contract has and no run of the program shows.
#![tactic(auto)]

#[cfg(test)]
mod tests;
