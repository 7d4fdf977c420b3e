//! Kconfig as a system of units, each with a rule for its value.
#![tactic(auto)]

mod laws;
mod profile;
mod values;

pub use laws::{
    dependencies_are_a_graph, equality_is_decided, members_are_selected_by_lines, rules_fit,
    rules_keep_the_frame, rules_restore, solutions_fit, texts_are_assigned,
};
pub use profile::Profile;
pub use values::{MemberLine, MemberLines, UnitValue, UserValue};
