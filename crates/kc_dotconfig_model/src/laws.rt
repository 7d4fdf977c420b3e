//! Laws of configuration files and their lines.
ghost use Rattle.kc_dotconfig_model.specs.between.LineMeaningLaws.{LinesAreRead, FilesAreRead};
ghost use Rattle.kc_dotconfig_model.specs.OtherChoiceLaws.{FilesAreMerged, OtherChoicesHaveReasons, OtherChoicesHaveLines, ChoicesFollowLines, NoticesAreWhereValuesDiffer, DifferingValuesHaveReasons};
ghost use Rattle.kc_dotconfig_model.specs.FileLaws.{PrefixedLinesHaveValues, UnsetTextsAreRead, EscapesAreNoticed, LinesHaveOneMeaning, FilesHaveOneMeaning, FilesAreMergedWithAssignments, FilesFit, AcceptedFilesAreRead, OneFaultIsFirst, FaultyFilesAreRefused, FailedReadsAreReported, AcceptedFilesHaveGoodLines, EachFileIsJudged, EachCutFileIsJudged};

/// With a prefix each line of the prefix, a name, `=` and a text gives the name that text; without one a comment doesn't.
pub fn prefixed_lines_have_values()
    ensures { PrefixedLinesHaveValues }
{}

/// Where names have no prefix, a text after `# ` is an unset line exactly if it is an unset text, but for white bytes at its end.
pub fn unset_texts_are_read()
    ensures { UnsetTextsAreRead }
{}

/// In the languages of Linux the spelling of an escaped string has no notice exactly if it is the one that is written.
pub fn escapes_are_noticed()
    ensures { EscapesAreNoticed }
{}

/// A line of a configuration file has at most one meaning, and so has a file.
pub fn lines_have_one_meaning()
    ensures line { LinesHaveOneMeaning }
    ensures file { FilesHaveOneMeaning }
{}

/// The function `line_meaning` gives a meaning for a line exactly if the relation `Means` holds of the two.
pub fn lines_are_read()
    ensures { LinesAreRead }
{}

/// The function `file_meanings` gives a list of meanings for a file exactly if the relation `FileMeans` holds of the two.
pub fn files_are_read()
    ensures { FilesAreRead }
{}

/// Reading a configuration file over an assignment gives the same as merging the file's own assignment with it.
pub fn files_are_merged_with_assignments()
    ensures { FilesAreMergedWithAssignments }
{}

/// The user values that a file of UTF-8 assigns fit their units, over a consistent tree.
pub fn files_fit()
    ensures { FilesFit }
{}

/// Each line of an accepted configuration file is understood: it assigns a user value, gives a notice, or does neither.
pub fn accepted_files_are_read()
    ensures { AcceptedFilesAreRead }
{}

/// A configuration file has at most one first fault, of one kind and at one line.
pub fn one_fault_is_first()
    ensures { OneFaultIsFirst }
{}

/// A configuration file with a first fault isn't accepted.
pub fn faulty_files_are_refused()
    ensures { FaultyFilesAreRefused }
{}

/// A failed read is reported exactly if no fault occurs at a byte before it.
pub fn failed_reads_are_reported()
    ensures { FailedReadsAreReported }
{}

/// A file is accepted exactly if it is within the limits of bytes and lines, and each of its lines
/// is within the limit of bytes, UTF-8 and not malformed.
pub fn accepted_files_have_good_lines()
    ensures { AcceptedFilesHaveGoodLines }
{}

/// Each configuration file is accepted or has a first fault, and each that a failed read cut short has a first fault.
pub fn each_file_is_judged()
    ensures whole { EachFileIsJudged }
    ensures cut { EachCutFileIsJudged }
{}

/// Where the rules from Linux 6.10 on select another member of a choice than those before, the last line of the member that those
/// before select gives it `n`, or the member last assigned `y` isn't visible and a visible one is assigned `y` before it; so the
/// notice has a line. What the members of a choice are given by lines one after another is what files with these lines give them,
/// each merged with those before it.
pub fn other_choices_have_reasons()
    ensures reasons { OtherChoicesHaveReasons }
    ensures lines { OtherChoicesHaveLines }
    ensures files { FilesAreMerged }
{}

/// Over a tree with other rules than those of Linux 6.12, the value that files give a choice is the member that the rules before Linux
/// 6.10 select by the files' lines. Where the tree's language doesn't say its version, a choice that is shown has the notice exactly
/// if this value is another one than by the rules of Linux 6.12 and the same lines, the values of all units being the same; and then
/// it is for an `n` of the member that is the value, or for a member last assigned `y` that isn't visible.
pub fn choices_follow_lines()
    ensures values { ChoicesFollowLines }
    ensures notices { NoticesAreWhereValuesDiffer }
    ensures reasons { DifferingValuesHaveReasons }
{}
