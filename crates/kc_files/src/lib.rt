//! The files of a tree: each is opened at most once, each folder is listed at most once, and patterns find files in order; and the
//! expanded files, by their keys.
#![tactic(auto)]

mod expanded_files;
mod expanded_tree;
mod file_bytes;
mod file_cache;
mod files;
mod folder_names;
mod name_matches;
mod path_table;
mod paths;
mod patterns;

pub use expanded_files::ExpandedFiles;
pub use expanded_tree::{ExpandedText, ExpandedTree};
pub use file_bytes::{FileRead, read_front};
pub use file_cache::FileCache;
pub use files::{FileStop, TreeFiles};
pub use name_matches::is_utf8;
pub use paths::{has_bracket, is_pattern, list_name, path_meant};
pub use patterns::{FoundPaths, PatternStop, files_of_pattern, paths_with_files};
