//! Laws of the expansion of known trees, and of trees that the reader accepts.
ghost use Rattle.kc_tokens.specs.declared.language.LinuxVersion.{LinuxVersion};
ghost use Rattle.kc_expansion.specs.Expansions.{KnownFilesDetermineTheExpansion};
ghost use Rattle.kc_expansion.specs.TreeLaws.{AcceptedLinesStay, AcceptedTreesStay, AcceptedTreesWantNothing, ReadingsStay, ExpandedTreesStay, AllFilesStay, LosesAFile};

/// Known files, known folders and the answers determine the expansion: whatever can't be read, if files are returned, they are those
/// of the known tree, with its notices.
pub fn known_files_determine_the_expansion()
    ensures { KnownFilesDetermineTheExpansion }
{}

/// A line that the reader accepts has nothing to expand, is no assignment, and is of no form that the expansion writes anew,
/// except for a `source` of the path that the reader sources.
pub fn accepted_lines_stay()
    ensures { AcceptedLinesStay }
{}

/// The expansion changes nothing of a tree that the reader accepts: without notices and questions, and whatever the answers, it
/// returns exactly the files that the reader reads, each with its own bytes under its own path. No answer is wanted, and the
/// reader reads the returned files as it reads the tree.
pub fn accepted_trees_stay()
    ensures files { AcceptedTreesStay }
    ensures questions { AcceptedTreesWantNothing }
    ensures reading { ReadingsStay }
{}

/// An expanded tree that the reader accepts is returned when it is expanded again: the files that the reader reads, and where it
/// reads each, all of them. It may read fewer: for example, a blank line that the first expansion leaves after a help text lets
/// the help text go on.
pub fn expanded_trees_stay()
    ensures trees { ExpandedTreesStay }
    ensures all { AllFilesStay }
    ensures fewer { (version : LinuxVersion) → LosesAFile version }
{}
