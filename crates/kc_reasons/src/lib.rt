//! What gives a unit its value under the values of the units of a tree.
#![tactic(auto)]

mod assignable;
mod cases;
mod choices;
mod decisive_limits;
mod hindrances;
mod low_parts;
mod member_hindrances;
mod needs;
mod numbers;
mod reasons;
mod search;
mod texts;
mod tristates;

pub use assignable::{can_be, can_select};
pub use cases::case_of;
pub use decisive_limits::decisive;
pub use hindrances::hinders_symbol;
pub use kc_reasons_model::{Case, ChoiceCase, Hindrance, Lift, TextCase, TriCase};
pub use low_parts::{LowPart, lacking, lacking_of_each, parts_at};
pub use member_hindrances::is_given_y;
pub use needs::{dependencies_lack, prompts_lack, unless_one_is_empty, wanted_by, wanted_for};
pub use reasons::{SymbolReasons, reasons_of};
pub use search::{hinders, hindrance_to};
