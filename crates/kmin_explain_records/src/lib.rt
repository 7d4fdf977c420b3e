//! What `explain`, `missed` and `check` write as records: a line for each symbol, one JSON object, that says why it has its value.
#![tactic(auto)]

mod asked_members;
mod forcing_members;
mod missed_records;
mod needed_members;
mod reason_words;
mod record_members;
mod records;

pub use missed_records::records_of_missed;
pub use records::{records_are_read_back, records_of};
