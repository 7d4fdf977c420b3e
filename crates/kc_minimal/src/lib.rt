//! Minimal and full configuration files, the comparison of configurations, and choices of which a later Linux selects another member.
#![tactic(auto)]

mod choice_places;
mod comparison;
mod difference;
mod full;
mod minimal;
mod minimisation;
mod symbol_line;
mod texts;

pub use choice_places::{add_lines, other_choices, placed_lines};
pub use comparison::compare;
pub use difference::Difference;
pub use kc_output::WriteFault;
pub use minimisation::{RunFault, minimise};
pub use symbol_line::push_spelled;
pub use texts::{full_text, minimal_text};
