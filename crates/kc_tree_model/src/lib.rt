//! The tree of Kconfig files: the statements of its lines, its blocks and their conditions, its symbols and choices, and
//! its faults.
#![tactic(auto)]

mod fault;
mod ids;
mod keyword;
mod laws;
mod source_faults;
mod statement;
mod texts;

pub use fault::{TreeFault, TreeKind};
pub use ids::{Sym, Unit};
pub use keyword::{Block, Keyword, OpenEntry, keyword_named};
pub use laws::{
    each_file_is_read, help_begins_in_every_language, lines_are_of_the_grammar,
    linux_reads_strict_trees, more_files_change_nothing, nothing_is_missing_after_wanted,
    reading_is_a_nested_tree, trees_are_consistent,
};
pub use source_faults::{SourceKinds, TREE_KINDS, source_fault};
pub use statement::{
    Attribute, Conjuncts, DefaultAttribute, Head, RangeAttribute, ReverseKind, Statement,
    TargetAttribute,
};
pub use texts::Texts;
