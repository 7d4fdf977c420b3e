//! Lines of members of choices.
use kc_rules_model::MemberLine;

/// A line of a configuration file that gives a member of a choice `y` or `n`: the choice's unit, what the line gives to which member,
/// and its number, counted from 1.
#[derive(Clone, Copy, Debug, PartialEq, Eq)]
pub struct ChoiceLine {
    pub unit: u32,
    pub given: MemberLine,
    pub line: u32,
}
