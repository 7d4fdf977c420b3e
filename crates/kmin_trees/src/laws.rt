//! Laws of trees.
ghost use Rattle.kmin_trees.specs.KnownTrees.{BytesHaveOneTree, KnownFilesDetermineTheTree};

/// The known files below the root determine the tree of a job, but for the numbers of its files: whichever texts are
/// read, if they are accepted, they are the tree of the known bytes, which have no other.
pub fn known_files_determine_the_tree()
    ensures tree { KnownFilesDetermineTheTree }
    ensures one { BytesHaveOneTree }
{}
