//! Tests of the public calls on trees, configurations and their files, of what no contract has and no run of the program shows.
#![tactic(auto)]

#[cfg(test)]
mod tests;
