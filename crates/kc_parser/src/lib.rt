//! From the bytes of a tree's files to their statements: lines, help texts, sourced files, and the first fault of reading.
#![tactic(auto)]

mod append;
mod attributes;
mod fault;
mod heads;
mod line;
mod listing;
mod open_blocks;
mod placement;
mod reader;
mod root_reader;
mod sources;
mod state;
mod statements;
mod symbol_table;
mod text;

pub use listing::{Group, GroupHead, Line, Listing, SymbolTable};
pub use root_reader::{read_files, read_files_leniently};
