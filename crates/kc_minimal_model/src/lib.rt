//! Minimal and full configuration files, and their comparison.
#![tactic(auto)]

mod laws;

pub use laws::{
    differences_are_exact, differences_decide_minimal_files, files_assign_the_lines,
    full_files_lead_back, headline, minimal_file_has_its_lines, minimal_files_are_accepted,
    minimal_files_are_canonical, minimal_lines_are_read, minimal_lines_differ,
    minimal_texts_are_canonical, read_files_are_accepted, strings_are_read_back,
};
