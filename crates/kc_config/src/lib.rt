//! A configuration that holds what files assign with its values.
#![tactic(auto)]

mod changes;
mod config;
mod merged_values;
mod missed_assignments;

pub use config::Config;
pub use merged_values::user_at;
