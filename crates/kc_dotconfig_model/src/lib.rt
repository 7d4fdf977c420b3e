//! Configuration files: the meaning of their lines, their assignments, and why one is refused.
#![tactic(auto)]

mod choice_line;
mod fault;
mod format;
mod laws;
mod line_parts;
mod notice;
mod prefix;

pub use choice_line::ChoiceLine;
pub use fault::{LoadFault, LoadKind};
pub use format::{Format, Strings};
pub use laws::{
    accepted_files_are_read, accepted_files_have_good_lines, choices_follow_lines,
    each_file_is_judged, escapes_are_noticed, failed_reads_are_reported, faulty_files_are_refused,
    files_are_merged_with_assignments, files_are_read, files_fit, lines_are_read,
    lines_have_one_meaning, one_fault_is_first, other_choices_have_reasons,
    prefixed_lines_have_values, unset_texts_are_read,
};
pub use line_parts::{
    between_quotes, has_other_escape, is_comment, is_unset_text, trimmed, unset_name, value_parts,
};
pub use notice::{Notice, NoticeKind};
pub use prefix::Prefix;
