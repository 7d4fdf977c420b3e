//! Laws of the definitions.
ghost use Rattle.std.specs.Prelude.{◌≡◌, ◌↔◌, ◌⊎◌, false, ℕ, ◌+◌, List, [], None, Some, Result, Ok, Err};
ghost use Rattle.kc_tokens.specs.declared.language.Language.{Language};
ghost use Rattle.kc_tokens.specs.declared.language.Language.TheVariants.{Linux};
ghost use Rattle.kc_tokens.specs.declared.language.LinuxVersion.{LinuxVersion};
ghost use Rattle.kc_tokens.specs.Languages.{is_linux_6_12};
ghost use Rattle.kc_tree_model.specs.TreeFiles.{Files, strict_files, linux_files};
ghost use Rattle.kc_tree_model.specs.LogicalLines.{LogicalLine, lines_of, begins_help_in, begins_help};
ghost use Rattle.kc_tree_model.specs.LineGrammar.{IsInLines};
ghost use Rattle.kc_tree_model.specs.Limits.{FileSource};
ghost use Rattle.kc_value.specs.declared.limits.TheConstants.{MAX_OPEN_FILES};
ghost use Rattle.kc_tree_model.specs.TreeReading.{Outcome, read_file, reading, files_wanted};
ghost use Rattle.kc_tree_model.specs.declared.fault.TreeFault.{TreeFault};
ghost use Rattle.kc_tree_model.specs.Contents.{tree_of_files};
ghost use Rattle.kc_tree_model.specs.TreeFaults.{first_tree_fault};
ghost use Rattle.kc_tree_model.specs.TreeLookup.{IsConsistent};
ghost use Rattle.kc_tree_model.specs.NestedTrees.{IsReadAsOneTree};
ghost use Rattle.kc_tree_model.specs.MoreFiles.{reading_from, MoreFilesChangeNothing};
ghost use Rattle.kc_tree_model.specs.Blocks.{Group};
ghost use Rattle.kc_tree_model.specs.ReadingRelation.{IsWholeReading, IsCutReading, IsOutcome};
ghost use Rattle.kc_tokens.specs.Token.{Lexeme};
ghost use Rattle.kc_tree_model.specs.declared.fault.TreeKind.{TreeKind};
ghost use Rattle.kc_tree_model.specs.declared.fault.TreeKind.TheVariants.{Malformed, TooDeep};
ghost use Rattle.kc_tree_model.specs.declared.keyword.Keyword.{Keyword};
ghost use Rattle.kc_tree_model.specs.Statements.{Statement};
ghost use Rattle.kc_tree_model.specs.Forms.{statement_of};
ghost use Rattle.kc_tree_model.specs.FormGrammar.{IsForm, HasDeepExpr};
ghost use Rattle.kc_tree_model.specs.Trees.{Tree, in_language};
ghost use Rattle.kc_tree_model.specs.TreesOfFiles.{IsTreeOfFiles, IsReportedFault, AreWanted};

/// The logical lines that are read from a file's bytes are exactly those of the grammar of lines: physical lines are joined
/// where a backslash ends them, and a `help` line is followed by its help text, up to the end that indentation gives it.
pub fn lines_are_of_the_grammar()
    ensures { (bytes : List ℕ) (lines : List LogicalLine) → (lines_of bytes ≡ lines) ↔ IsInLines bytes lines }
{}

/// A line begins a help text in every language or in none, so the logical lines of a file are the same in each language.
pub fn help_begins_in_every_language()
    ensures { (language : Language) (text : List ℕ) → begins_help_in language text ≡ begins_help text }
{}

/// The tokens after a keyword are read as exactly the statement that the grammar of forms has for them. If they have none,
/// their fault is `TooDeep` exactly where they come to an expression with an operand nested too deep, and else `Malformed`.
pub fn forms_are_of_the_grammar()
    ensures form { (k : Keyword) (ts : List Lexeme) (s : Statement) → (statement_of k ts ≡ Ok s) ↔ IsForm k ts s }
    ensures deep { (k : Keyword) (ts : List Lexeme) → (statement_of k ts ≡ Err TooDeep) ↔ HasDeepExpr k ts }
    ensures kind { (k : Keyword) (ts : List Lexeme) (kind : TreeKind) → statement_of k ts ≡ Err kind → (kind ≡ Malformed) ⊎ (kind ≡ TooDeep) }
{}

/// A tree is read without a fault exactly where the relation of reading goes from the first line of its first file to that
/// file's end: each line appends its statement or attribute, if any, and the lines of a sourced file are read in the
/// place of its `source`. The relation gives at most one list of statements for a tree.
pub fn reading_is_the_relation()
    ensures read { (origin : FileSource) (groups : List Group) → (reading_from origin ≡ record { read = groups; fault = None }) ↔ IsWholeReading origin groups }
    ensures one { (origin : FileSource) (groups others : List Group) → IsWholeReading origin groups → IsWholeReading origin others → groups ≡ others }
{}

/// A fault ends the reading of a tree exactly where the relation of reading has it: the first file is missing or too large, a
/// line or a `source` has the fault as its first in the order of kinds, or a block is open at a file's end. Each tree has one
/// outcome, whole or ended by a fault.
pub fn reading_ends_at_the_first_fault()
    ensures fault { (origin : FileSource) (groups : List Group) (fault : TreeFault) → (reading_from origin ≡ record { read = groups; fault = Some fault }) ↔ IsCutReading origin (record { read = groups; fault = Some fault }) }
    ensures some { (origin : FileSource) → (outcome : Outcome) × IsOutcome origin outcome }
    ensures one { (origin : FileSource) (outcome other : Outcome) → IsOutcome origin outcome → IsOutcome origin other → outcome ≡ other }
    ensures not_both { (origin : FileSource) (groups : List Group) (outcome : Outcome) → IsWholeReading origin groups → IsCutReading origin outcome → ⊥ }
{}

/// The tree of some files, the fault that is reported for them and the absent paths that they want are exactly those that the
/// relation of reading gives, for a whole reading or for one that ends at a fault.
pub fn trees_are_of_the_relation()
    ensures tree { (files : Files) (root : List ℕ) (tree : Tree) → ((first_tree_fault files root ≡ None) × (tree ≡ tree_of_files files root)) ↔ IsTreeOfFiles files root tree }
    ensures fault { (files : Files) (root : List ℕ) (fault : TreeFault) → (first_tree_fault files root ≡ Some fault) ↔ IsReportedFault files root fault }
    ensures wanted { (files : Files) (root : List ℕ) (outcome : Result (List (List ℕ)) TreeFault) → (files_wanted files root ≡ outcome) ↔ AreWanted files root outcome }
{}

/// The statements that are read without a fault are the listing of exactly one nested tree of menus, `if`s, choices, sourced
/// files and entries, and the walk down that tree gives each statement the conditions that enclose it.
pub fn reading_is_a_nested_tree()
    ensures { (files : Files) (root : List ℕ) → IsReadAsOneTree files root }
{}

/// The limit on open files leaves no file unread: if `read_file` had room for more open files, the reading would be the same,
/// since a `source` past the limit is a fault before its file would be read.
pub fn each_file_is_read()
    ensures { (origin : FileSource) (more : ℕ) → read_file (MAX_OPEN_FILES + more) origin origin.root [] ≡ read_file MAX_OPEN_FILES origin origin.root [] }
{}

/// If `files_wanted` finds no absent path, reading the files ends with the fault that it gives, or with none if it gives
/// none: so the paths that a tree lacks are known before it is read.
pub fn nothing_is_missing_after_wanted()
    ensures none { (files : Files) (root : List ℕ) → files_wanted files root ≡ Ok [] → (reading files root).fault ≡ None }
    ensures fault { (files : Files) (root : List ℕ) (fault : TreeFault) → files_wanted files root ≡ Err fault → (reading files root).fault ≡ Some fault }
{}

/// A tree that the strict language reads without a fault, that of each version of Linux reads without one too, and but for
/// 6.12, where conditions go through choices, it is the same tree with this language.
pub fn linux_reads_strict_trees()
    ensures none { (version : LinuxVersion) (list : List (List ℕ × List ℕ)) (root : List ℕ) → first_tree_fault (strict_files list) root ≡ None → first_tree_fault (linux_files version list) root ≡ None }
    ensures tree { (version : LinuxVersion) (list : List (List ℕ × List ℕ)) (root : List ℕ) → is_linux_6_12 (Linux version) ≡ false → first_tree_fault (strict_files list) root ≡ None → tree_of_files (linux_files version list) root ≡ in_language (Linux version) (tree_of_files (strict_files list) root) }
{}

/// The reading of a tree depends on the bytes of the files that it sources, and on those of no other files: with more files
/// the reading is the same, unless it ends at a missing file.
pub fn more_files_change_nothing()
    ensures { MoreFilesChangeNothing }
{}

/// A tree that is read without a fault is consistent: the names of its symbols are words and differ, each choice and each
/// symbol outside choices is one unit, the members of a choice are bools of that choice alone and its defaults are members,
/// titles and default values of one name or text are one line of UTF-8, each symbol has an entry, selectors, impliers and
/// entries are symbols and choices of the tree, and the limits on the count of symbols and the length of names hold.
pub fn trees_are_consistent()
    ensures { (files : Files) (root : List ℕ) → first_tree_fault files root ≡ None → IsConsistent (tree_of_files files root) }
{}
