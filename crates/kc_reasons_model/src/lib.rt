//! Reasons: what gives a unit its value, what hinders an assignment, and what would have to change.
#![tactic(auto)]

mod cases;
mod laws;

pub use cases::{Case, ChoiceCase, Hindrance, Lift, TextCase, TriCase};
pub use laws::{
    assignable_is_taken, blamed_are_dependencies, blamed_are_named, blamed_names_keep,
    cases_give_values, choice_blamed_are_dependencies, claims_hold_of_cases,
    condition_parts_are_located, conjuncts_decide, decisive_force_all,
    dependency_parts_are_located, each_lacking_is_needed, files_are_over_assignments, files_assign,
    hidden_needs_are_given, hidden_prompts_lack, hindrances_are_missed, hindrances_hold,
    hindrances_suffice, lines_are_of_symbol, lines_assign, lines_fit_units, lines_give_one,
    member_next_are_dependencies, members_have_one_line, missed_are_hindered,
    next_are_dependencies, next_names_hide, nothing_is_needed_if_visible, nothing_lacks_if_high,
    numbers_are_decisive, operands_are_read_back, overridden_lines_are_listed, plain_reasons_agree,
    printed_expressions_are_read_back, prompt_parts_are_located, prompts_let_in_what_is_wanted,
    raising_suffices, rules_give_what_if, selectable_are_taken, spelled_is_read_back,
    spelling_is_read_as_tokens, unmet_dependencies_lack, unmet_parts_are_given, weaker_force_less,
};
