//! Tests of the public calls on values, streams, lines, disks and systems, of what no contract has and no run of the program shows.
#![tactic(auto)]

#[cfg(test)]
mod tests;
