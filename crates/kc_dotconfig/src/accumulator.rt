//! The accumulated meaning of a configuration file's lines.
use super::assigned_values::AssignedValues;
use kc_dotconfig_model::{ChoiceLine, Notice};
use kc_rules_model::MemberLine;
use std::collections::BTreeMap;

/// The assignment and the notices of the lines read so far, the number of lines, and the unit after the last assigned one. What the
/// lines assign to members of a choice is kept apart, line by line, under the unit of the choice; under the rules of Linux before
/// 6.10 what the lines give to members is listed beside the assignment.
#[derive(Drop)]
pub(crate) struct Accumulator {
    pub(crate) assigns: AssignedValues,
    pub(crate) members: BTreeMap<u32, Vec<MemberLine>>,
    pub(crate) chosen: Vec<ChoiceLine>,
    pub(crate) notices: Vec<Notice>,
    pub(crate) lines: u32,
    pub(crate) next: u32,
}
