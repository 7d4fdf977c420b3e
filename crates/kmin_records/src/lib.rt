//! Records: lines for programs, each one JSON object. Their begin, their members and their end, and those of what `compare` and
//! `tidy` write.
#![tactic(auto)]

mod file_record;
mod laws;
mod members;
mod output_form;
mod record;
mod symbol_records;

pub use file_record::tidy_record;
pub use laws::{
    compare_records_read_back, lossless_texts, records_read_back, tidy_records_read_back,
};
pub use members::{write_bytes, write_optional, write_place, write_text};
pub use output_form::OutputForm;
pub use record::{begin_record, end_record, new_record};
pub use symbol_records::compare_record;
