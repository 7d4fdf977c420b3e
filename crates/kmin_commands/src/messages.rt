//! The help on messages: one set of tables, for `kmin --help` and for `kmin help KIND`.

/// A row of a table of help: a kind of message, and the lines that explain it.
pub struct Row {
    pub kind: &'static str,
    pub lines: &'static str,
}

/// A table of help: a heading, and a row for each kind of message.
#[derive(Clone, Copy)]
pub struct Table {
    pub heading: &'static str,
    pub rows: &'static [Row],
}

/// Passes the tables to a macro, after a word for it if there is one: of each its heading, and of each row the kind of message and
/// the lines of help.
macro_rules! tables {
    ($then:ident $($which:ident)?) => {
        $then! {
            $($which:)?
            "Kinds of a tree:" {
                "NotUtf8" "  NotUtf8           the line isn't UTF-8: save the file as UTF-8"
                "LineTooLong" "  LineTooLong       more than 65,536 bytes in a line: split it"
                "BadToken" "  BadToken          a byte that begins no word, text or operator: quote it, or take it out"
                "UnclosedQuote" "  UnclosedQuote     a quote without its end in the line: close it"
                "UnknownStatement" "  UnknownStatement  the first word is no keyword: correct it"
                "Malformed" "  Malformed         the line hasn't the form of its keyword: see kconfig-language.rst"
                "Unclosed" "  Unclosed          a block has no end in its file: add endif, endmenu or endchoice"
                "StrayEnd" "  StrayEnd          an end of no open block: take it out, or open the block"
                "Misplaced" "  Misplaced         a statement or an attribute that isn't allowed there: move it"
                "NoType" "  NoType            a symbol without a type: add bool, tristate, string, hex or int"
                "TypeConflict" "  TypeConflict      another type than the symbol's first: let both be one"
                "SecondPrompt" "  SecondPrompt      a second prompt of one entry: keep one"
                "DefaultShape" "  DefaultShape      a string's, int's or hex's default isn't one word or text: write just one"
                "RangeType" "  RangeType         a range of neither an int nor a hex: take it out, or change the type"
                "SelectType" "  SelectType        select or imply in, or of, neither a bool nor a tristate: take it out"
                "ChoiceMember" "  ChoiceMember      a member that isn't bool, or is defined again: make it bool, define it once"
                "ChoiceDefault" "  ChoiceDefault     a choice's default is no member of it: name one"
                "ModulesType" "  ModulesType       MODULES isn't bool, or another has `modules`: make it bool, take `modules` out"
                "MissingFile" "  MissingFile       the file can't be opened or read: see --root and --tree, and the path"
                "SourceLoop" "  SourceLoop        a file is sourced while it is open: take out one of the lines"
                "TooDeep" "  TooDeep           more than 32 files, 64 blocks or 64 signs and parentheses open: nest less"
                "TooMany" "  TooMany           too many symbols, choices, files or bytes: split it; a name of more than
                    256 bytes: shorten it"
                "Cycle" "  Cycle             the named symbols depend on one another: take out a dependency"
                "LeftOut" "  LeftOut           a form that kmin leaves out: for a macro give --expand, write another form anew"
            }
            "Forms of LeftOut, by their word:" {
                "rsource" "  rsource           a source below the folder of its own file: give --expand, or write `source`"
                "osource" "  osource           a source of a file that may be missing: give --expand, or write `source`"
                "orsource" "  orsource          both of these: give --expand, or write `source`"
                "transitional" "  transitional      a symbol that is read from old files and not written: take the symbol out"
                "optional" "  optional          an optional choice, in the strict language: give --language linux"
                "def_string" "  def_string        a type and a default, in the strict language: give --language linux, or
                    write `string` and `default`"
                "def_int" "  def_int           a type and a default, in the strict language: give --language linux, or
                    write `int` and `default`"
                "def_hex" "  def_hex           a type and a default, in the strict language: give --language linux, or
                    write `hex` and `default`"
                "env" "  env               a default from the environment by `option`: give --expand, or write `default`"
                "defconfig_list" "  defconfig_list    a list of files by `option`: give --expand, or take its symbol out"
                "allnoconfig_y" "  allnoconfig_y     an `option` that concerns allnoconfig alone: give --expand, or take it out"
            }
            "Kinds of an expansion, with --expand, --answers, --define or --env:" {
                "Unterminated" "  Unterminated      a `$(` has no `)`: close it"
                "Undefined" "  Undefined         TEXT is called and nobody defines it, or is no name: define it, correct it"
                "Recursion" "  Recursion         the value of the variable TEXT needs that value: take out the circle"
                "Arguments" "  Arguments         too many or too few arguments of the function TEXT, or more than 16 pieces
                    of a reference: give as many as it takes"
                "Error" "  Error             the tree refuses with TEXT, by `error-if`: do what it says"
                "Unanswered" "  Unanswered        the question TEXT has no answer: see `kmin help wants`"
                "JoinedAssignment" "  JoinedAssignment  the line of an assignment ends in a `\\`: write it in one line"
                "MissingFile" "  MissingFile       a sourced file, or the first, can't be read: see --root, --tree, the path"
                "SourceLoop" "  SourceLoop        a file is sourced while it is open: take out one of the lines"
                "TooDeep" "  TooDeep           more than 32 files or 64 expansions open: nest less"
                "TooMany" "  TooMany           too many files, bytes or names of folders, or too much work: split the tree"
                "LineTooLong" "  LineTooLong       a value or a line gets more than 65,536 bytes: shorten it"
                "Info" "  Info              a notice, the tree says TEXT: read it"
                "Warning" "  Warning           a notice, the tree warns with TEXT: read it"
            }
            "Kinds of a file of answers:" {
                "Malformed" "  Malformed         neither NAME=VALUE, !NAME, `$ COMMAND` with `> TEXT` on the next line, a
                    comment nor empty: correct it"
                "TwoAnswers" "  TwoAnswers        the question has another answer before: take one out"
                "NotUtf8" "  NotUtf8           the line isn't UTF-8: save the file as UTF-8"
                "LineTooLong" "  LineTooLong       more than 65,536 bytes in a line: shorten it"
                "TooManyLines" "  TooManyLines      more than 1,048,576 lines: split the file"
                "TooLarge" "  TooLarge          more than 67,108,864 bytes: split the file"
                "Read" "  Read              the file can't be opened or read: check the path and the permissions"
            }
            "Kinds of a configuration file:" {
                "Malformed" "  Malformed         neither CONFIG_NAME=value, an unset line, a comment nor empty: correct it, or
                    give another prefix than CONFIG_ by --prefix, or none by --no-prefix"
                "NotUtf8" "  NotUtf8           the line isn't UTF-8: save the file as UTF-8"
                "LineTooLong" "  LineTooLong       more than 65,536 bytes in a line: shorten it"
                "TooManyLines" "  TooManyLines      more than 1,048,576 lines: split the file"
                "TooLarge" "  TooLarge          more than 67,108,864 bytes: split the file"
                "Read" "  Read              the file can't be opened or read: check the path and the permissions"
                "UnknownSymbol" "  UnknownSymbol     a notice, the tree has no such symbol, nothing is assigned: take the line out"
                "NotOfType" "  NotOfType         a notice, the value isn't of the symbol's type and isn't assigned: correct it"
                "Escape" "  Escape            a notice, a `\\` is before another byte than `\"` and `\\`, and is dropped: give
                    --strings raw if it is part of the text, else take it out"
                "OtherChoice" "  OtherChoice       a notice, by the line Linux since 6.10 selects another member of a choice: give
                    --language linux-6.12 for a Linux since 6.10, linux-6.1 for one before"
            }
            "Messages of writing:" {
                "NotRegular" "  FILE:0: NotRegular  FILE is a link, a folder, a pipe or a device, and to be written: name the
                      file itself"
                "Write" "  FILE: Write         FILE couldn't be written, or its folder not synced: see its permissions, and
                      whether there is room"
                "Left" "  NEWFILE: Left       the new file, which was to replace another, is there still: remove it"
            }
            "Without a file:" {
                "Read" "  bundle:0: Read            standard input can't be read: check where it comes from"
                "TooLarge" "  bundle:0: TooLarge        more than 67,108,864 bytes of a bundle: give its parts as files"
                "Write" "  output: Write             standard output can't be written: make room, keep the pipe open"
                "Malformed" "  prefix: Malformed         --prefix isn't 1 to 32 letters, digits and `_`: correct it"
                "Malformed" "  define: Malformed         --define isn't NAME=VALUE, or VALUE has a newline or more than 65,536
                            bytes: correct it"
                "Malformed" "  env: Malformed            --env isn't a letter or `_`, then letters, digits, `_`: correct it"
                "Malformed" "  tree: Malformed           --tree of a tree that is expanded has a newline: rename the file"
                "NamedTwice" "  stdin: NamedTwice         /dev/stdin is named twice: store one; paths are compared as texts"
                "Read" "  LIST:0: Read              the file of --from or @FILE can't be opened or read: check the path"
                "TooLarge" "  LIST:0: TooLarge          more than 67,108,864 bytes in the file of --from or @FILE: split it"
                "Malformed" "  file: Malformed           a FILE of tidy or of -o has a newline: rename it"
                "Malformed" "  from: Malformed           a path in the file of --from isn't UTF-8 or has a newline, or a word in
                            @FILE isn't UTF-8: correct it"
                "UTF-8" "  kmin: a word isn't UTF-8  a word of the command line isn't: give the file another name"
                "error" "  error: ..                 the command line is refused: correct the named word"
                "memory" "  out of memory             memory was refused: free some, or raise a limit that was set"
            }
        }
    };
}

/// The examples and the exit statuses of the program's help, and then the given texts.
macro_rules! with_examples {
    ($($text:literal)*) => {
        concat!(
            "\
Examples:
  kmin min .config > defconfig                 the lines that the defaults don't give
  kmin full board.config debug.config          a full file of two fragments
  kmin missed board.config debug.config        what was asked for and not given
  kmin compare old.config new.config           what changes for the symbols
  kmin check --exit-code --root firmware --tree board/Kconfig board.config
  kmin tidy --root firmware configs/*_defconfig        which files aren't minimal files
  kmin wants --root linux --answers answers    what the tree's macros ask, and has no answer
  kmin full --root linux --answers answers .config

Exit status:
  0  done; of compare: no difference; of tidy: no file that isn't minimal; of wants: no question
  1  compare found differences, tidy files that aren't minimal, wants questions; with --exit-code
     missed or check listed a symbol
  2  the command line is refused
  3  the tree is refused
  4  a configuration file or a file of answers is refused, or a bundle is too large
  5  a read or a write failed
  6  out of memory

Without a word, kmin reads a bundle on standard input, a tree, a line `%%` and a configuration
file, and writes its full file. Options stand after the command or before it: `kmin help COMMAND`
lists them. A word @FILE stands for the words in FILE, a line each: a line is a word, spaces and
all, empty lines and those that begin with # are none, and @- is standard input. `kmin help KIND`
explains a kind of message, `kmin help FORM` a form that LeftOut leaves out, and
share/doc/kmin/FAULTS.md all of them.

",
            $($text),*
        )
    };
}

/// The long help of the program, with all tables.
macro_rules! as_long_help {
    ($($heading:literal { $($kind:literal $lines:literal)* })*) => {
        with_examples!(
            "\
Messages are `FILE:LINE: KIND`, on standard error, of an expansion also `FILE:LINE: KIND TEXT`.
A notice ends nothing, but with --strict one of a configuration file refuses that file.
Of a bundle FILE is `Kconfig` in the tree and `config` in the configuration. Line 0 is that of a
configuration file or a file of answers that can't be opened, and of a tree's first file where it
can't be opened or read or has too many bytes; and of what a message says of a file as a whole."
            $("\n\n" $heading $("\n" $lines)*)*
        )
    };
}

/// One of the tables as a value, to be searched for a kind.
macro_rules! table_of {
    ($heading:literal { $($kind:literal $lines:literal)* }) => {
        Table { heading: $heading, rows: &[$(Row { kind: $kind, lines: $lines }),*] }
    };
}

/// The table at a place.
macro_rules! table_at {
    (first: $a:literal $b:tt $($rest:tt)*) => { table_of!($a $b) };
    (second: $a:literal $b:tt $($rest:tt)*) => { table_at!(first: $($rest)*) };
    (third: $a:literal $b:tt $($rest:tt)*) => { table_at!(second: $($rest)*) };
    (fourth: $a:literal $b:tt $($rest:tt)*) => { table_at!(third: $($rest)*) };
    (fifth: $a:literal $b:tt $($rest:tt)*) => { table_at!(fourth: $($rest)*) };
    (sixth: $a:literal $b:tt $($rest:tt)*) => { table_at!(fifth: $($rest)*) };
    (seventh: $a:literal $b:tt $($rest:tt)*) => { table_at!(sixth: $($rest)*) };
}

pub(crate) const AFTER: &str = with_examples!(
    "`kmin --help` explains each message, and what to do about it."
);

pub(crate) const AFTER_LONG: &str = tables!(as_long_help);

static OF_TREES: Table = tables!(table_at first);

static OF_FORMS: Table = tables!(table_at second);

static OF_EXPANSIONS: Table = tables!(table_at third);

static OF_ANSWERS: Table = tables!(table_at fourth);

static OF_CONFIGURATIONS: Table = tables!(table_at fifth);

static OF_WRITING: Table = tables!(table_at sixth);

static WITHOUT_FILE: Table = tables!(table_at seventh);

/// All tables of help on kinds of messages, and on the forms that one of these leaves out.
pub fn message_tables() -> [Table; 7] {
    // Each has a function of its own, since one that sees all of them takes the prover too many steps.
    [
        of_trees(),
        of_forms(),
        of_expansions(),
        of_answers(),
        of_configurations(),
        of_writing(),
        without_file(),
    ]
}

fn of_trees() -> Table {
    OF_TREES
}

fn of_forms() -> Table {
    OF_FORMS
}

fn of_expansions() -> Table {
    OF_EXPANSIONS
}

fn of_answers() -> Table {
    OF_ANSWERS
}

fn of_configurations() -> Table {
    OF_CONFIGURATIONS
}

fn of_writing() -> Table {
    OF_WRITING
}

fn without_file() -> Table {
    WITHOUT_FILE
}
