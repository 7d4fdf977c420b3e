//! The units on which the value of each unit of a tree depends.
#![tactic(auto)]

mod dependencies;
mod modules;
mod names;

pub use dependencies::{Links, links_of};
pub use modules::modules_of;
