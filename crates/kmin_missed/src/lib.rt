//! What `missed` and `check` write where they ask for reasons: what keeps symbols from the values that files assign, line by line or
//! by cause, and what selects symbols against their dependencies.
#![tactic(auto)]

mod causes;
mod missed_causes;
mod missed_lines;
mod one_line;
mod unmet_lines;

pub use missed_causes::missed_by_cause;
pub use missed_lines::lines_of_missed;
pub use unmet_lines::lines_of_unmet;
