//! Laws of the expansion of macros.
ghost use Rattle.kc_macros_model.specs.ExpansionLaws.{ExpansionKeepsTheRules, RulesAreExpanded, PlainTextsStay, ValuesAreBounded, VariablesAreBounded};
ghost use Rattle.kc_macros_model.specs.SecondExpansionLaws.{NothingIsLeftToExpand, WrittenLinesStay};
ghost use Rattle.kc_macros_model.specs.PlainLines.{LinesWithoutDollars, PlainLinesStay, PlainFilesStay, PlainTreesStay};
ghost use Rattle.kc_macros_model.specs.ReadingLaws.{CountsAreBounded, TreeCountsAreBounded, KeysAreBounded, SourceKeysHaveFiles, KeysDiffer, FilesAreBounded, WorkIsBounded};
ghost use Rattle.kc_macros_model.specs.TreeLaws.{AnswersNotAskedChangeNothing, FailedReadsChangeNothing, ExpansionNeverStops, NothingWantedIsExpanded, NothingWantedReturnsFiles, WantedIsNeeded, UnusedAnswersChangeNothing, LinesAreKept};

/// The expansion of a text agrees with the rules of macro expansion: it returns only values that the rules give, and each of
/// them, unless it exceeds a limit or a variable needs its own value.
pub fn expansion_follows_rules()
    ensures only { ExpansionKeepsTheRules }
    ensures each { RulesAreExpanded }
{}

/// A text of at most 65,536 bytes without macro references expands to itself: no question is asked, and the work depends on its
/// length alone.
pub fn plain_texts_stay()
    ensures { PlainTextsStay }
{}

/// No expanded text and no stored variable has more than 65,536 bytes.
pub fn values_are_bounded()
    ensures texts { ValuesAreBounded }
    ensures variables { VariablesAreBounded }
{}

/// The expansion of a tree depends only on its files and on the answers to the questions that it asks.
pub fn answers_not_asked_change_nothing()
    ensures { AnswersNotAskedChangeNothing }
{}

/// An expansion that returns files is that of the tree whose files can all be read and whose folders can all be listed: a file or a
/// folder that fails ends the expansion by a fault, and is never passed over.
pub fn failed_reads_change_nothing()
    ensures { FailedReadsChangeNothing }
{}

/// The expansion of a tree ends with the expanded files or with a fault, and never stops for want of an answer.
pub fn expansion_never_stops()
    ensures { ExpansionNeverStops }
{}

/// Where the search for open questions finds neither a question nor a fault, the expansion of the tree returns its files.
pub fn nothing_wanted_is_expanded()
    ensures no_fault { NothingWantedIsExpanded }
    ensures files { NothingWantedReturnsFiles }
{}

/// Each question that the search for open questions finds is needed: no expansion of the tree succeeds without its answer,
/// whatever else is answered.
pub fn wanted_is_needed()
    ensures { WantedIsNeeded }
{}

/// Where no question of a tree is open, the answers that are unused may be others, or be taken away: the expansion of the tree is the
/// same.
pub fn unused_answers_change_nothing()
    ensures { UnusedAnswersChangeNothing }
{}

/// Where neither an answer nor the first file's path has a newline, an expanded file has its lines under the numbers that they have
/// in the file that was read for it: what a logical line becomes is at the number of its first physical line, the other
/// lines that it took are empty, and a line that stays, or is of a help text, is as it was read. An expanded file has as many
/// newlines as the file that was read for it. Any other file of an expanded tree is the list of the files of one `source` line.
pub fn lines_are_kept()
    ensures { LinesAreKept }
{}

/// The reading of a tree keeps its counts of files, bytes and listed folder names within their limits, the tree has no more
/// expanded files than files may be read, and its expansion does no more work than is allowed.
pub fn readings_are_bounded()
    ensures sources { CountsAreBounded }
    ensures trees { TreeCountsAreBounded }
    ensures files { FilesAreBounded }
    ensures work { WorkIsBounded }
{}

/// The key of an expanded file is its path, or its path with `#` and a number; no two expanded files have the same key; and the
/// key that an expanded `source` line has as its path is that of an expanded file.
pub fn keys_are_bounded()
    ensures paths { KeysAreBounded }
    ensures differ { KeysDiffer }
    ensures keys { SourceKeysHaveFiles }
{}

/// A file whose lines have nothing to expand, assign or rewrite keeps its bytes. A tree of such files, which may source one
/// another, keeps their bytes and paths or fails at a `source` line, whatever the answers, without notices and questions.
pub fn plain_trees_stay()
    ensures tokens { LinesWithoutDollars }
    ensures lines { PlainLinesStay }
    ensures files { PlainFilesStay }
    ensures trees { PlainTreesStay }
{}

/// An expanded line without unknown tokens or a bare `$` has nothing left to expand, and stays when it is expanded again, unless
/// it is an assignment or is rewritten.
pub fn nothing_is_left_to_expand()
    ensures tokens { NothingIsLeftToExpand }
    ensures lines { WrittenLinesStay }
{}
