//! The tests, and what they are made with.
mod expansions;
mod expressions;
mod fault_names;
mod macro_answers;
mod macro_lines;
