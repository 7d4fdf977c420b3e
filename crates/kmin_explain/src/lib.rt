//! What `explain` writes: the text that says of symbols why they have their values, and the symbols that its names mean.
#![tactic(auto)]

mod asked_lines;
mod asked_symbols;
mod blame;
mod deep;
mod each_once;
mod explained_symbols;
mod explanations;
mod names;
mod nearest_names;
mod sources;
mod symbol_reasons;

pub use asked_lines::{path_at, push_overridden_by};
pub use asked_symbols::{AskedSymbol, asked_symbol};
pub use deep::deep_symbols;
pub use each_once::SymbolsOnce;
pub use explained_symbols::{ExplainedSymbol, explained_symbol};
pub use explanations::{every_symbol, explanation_of, is_one_hindered, push_details};
pub use names::{named_symbols, unknown_name};
pub use nearest_names::nearest_name;
pub use sources::Sources;
pub use symbol_reasons::lines_of;
