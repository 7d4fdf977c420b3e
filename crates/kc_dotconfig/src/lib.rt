//! Configuration files read line by line, each into the assignment that its lines make.
#![tactic(auto)]

mod accumulate;
mod accumulator;
mod assigned_values;
mod fragment;
mod fragment_reader;
mod gathered_lines;
mod kept_bytes;
mod line_buffer;
mod maps;
mod meanings;

pub use fragment::Fragment;
pub use fragment_reader::read_config;
pub use gathered_lines::last_lines;
pub use kc_dotconfig_model::{
    ChoiceLine, Format, LoadFault, LoadKind, Notice, NoticeKind, Prefix, Strings,
};
pub use kept_bytes::KeptBytes;
pub use maps::{add_item, put};
pub use meanings::{Meaning, read_line};
