//! Values of units, symbols and expressions under the rules of a tree.
#![tactic(auto)]

mod choices;
mod evaluation;
mod graphs;
mod member_lines;
mod rules;
mod symbol_values;
mod text_rules;
mod tristate_rules;
mod valuation;

pub use choices::{default_member, first_member, is_member_visible, is_shown, member_by_default};
pub use evaluation::{assigned_lines, assigned_member, assigned_text, assigned_tri, value_of};
pub use kc_dependencies::{Links, links_of, modules_of};
pub use member_lines::{first_listed, first_unlisted, is_listed, last_y, selected_by_lines};
pub use rules::Rules;
pub use symbol_values::{has_no_member, is_below};
pub use text_rules::{
    active_default, active_range, bound, default_text, is_upside_down, is_within, number_of,
};
pub use tristate_rules::{
    base, default_value, implied_effect, is_from_environment, is_symbol_unmet, is_visible, largest,
    reverse_limit, reverse_value, tri_rule, visibility,
};
pub use valuation::Valuation;
