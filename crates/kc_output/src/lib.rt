//! Texts written to their end, or up to the first write that fails.
#![tactic(auto)]

mod output;

pub use output::{WriteFault, write_out};
