//! The kinds of faults of a `source` in the expansion.
use super::fault::MacroKind;
use kc_tree_model::SourceKinds;

/// The kinds of faults of a `source` in a tree whose macros are expanded.
pub const MACRO_KINDS: SourceKinds<MacroKind> = SourceKinds {
    source_loop: MacroKind::SourceLoop,
    missing_file: MacroKind::MissingFile,
    too_deep: MacroKind::TooDeep,
    too_many: MacroKind::TooMany,
};
