//! A law of expansions.
ghost use Rattle.kmin_expansions.specs.KnownExpansions.{KnownFilesDetermineTheExpandedTree};

/// The known files and folders below the root, and the answers, determine the expanded texts of a job's tree, their names and the
/// lines of their notices: whatever can't be read, if the tree is expanded, it is the known tree that is.
pub fn known_files_determine_the_expanded_tree()
    ensures { KnownFilesDetermineTheExpandedTree }
{}
