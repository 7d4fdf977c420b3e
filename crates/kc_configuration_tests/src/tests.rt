//! The tests, and what they are made with.
mod configurations;
mod loads;
mod minimal;
mod pieces;
mod rules;
mod test_trees;
mod tidied_files;
mod tree_sessions;
mod trees;
