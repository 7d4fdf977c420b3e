//! The texts of the program's help. Nothing wraps a line: each has less than 100 columns.

pub(crate) const VERSION: &str = "0.1.0";

pub(crate) const ABOUT: &str =
    "Reads Kconfig trees and configuration files, and writes minimal and full ones";

pub(crate) const USAGE: &str = "kmin <COMMAND> [OPTIONS] [FILE]...
       kmin < BUNDLE";

/// A command's name and its help: one line, the long text, and the text after its options.
pub(crate) struct CommandHelp {
    pub(crate) name: &'static str,
    pub(crate) about: &'static str,
    pub(crate) long: &'static str,
    pub(crate) after: &'static str,
}

/// A text, and the exit statuses of a command that lists symbols.
macro_rules! with_listing_statuses {
    ($text:literal) => {
        concat!(
            $text,
            "

Exit status: 0 done, 1 with --exit-code a symbol is listed, 2 command line refused, 3 tree refused,
4 configuration file refused, 5 a read or a write failed, 6 out of memory."
        )
    };
}

/// A text, and the exit statuses of a command that writes a file.
macro_rules! with_statuses {
    ($text:literal) => {
        concat!(
            $text,
            "

Exit status: 0 done, 2 command line refused, 3 tree refused, 4 configuration file refused,
5 a read or a write failed, 6 out of memory."
        )
    };
}

/// The command that writes a minimal file.
pub(crate) static MIN: CommandHelp = CommandHelp {
    name: "min",
    about: "Writes the minimal file: the lines that a tree's defaults don't give",
    long: "\
Writes the minimal file of the configuration: a line for each symbol, and each choice, whose value
isn't the one that it would have without that line. Reading it back gives every symbol its value
again, and without any one of its lines some symbol has another value. This is the file that is
kept as a board's defconfig, in the way of `make savedefconfig`.",
    after: with_statuses!(
        "\
Example:
  kmin min -o defconfig .config

The output is made whole before its first byte is written. With `-o` FILE may be one that is read,
too: it is replaced at the end, whole or not at all. A line that the tree can't read is then never
lost unasked: a file with a notice is refused, unless --drop is given, too. A shell empties
`> FILE` before kmin reads it."
    ),
};

/// The command that writes a full file.
pub(crate) static FULL: CommandHelp = CommandHelp {
    name: "full",
    about: "Writes the full file: the symbols that are visible, selected, implied or have a default",
    long: "\
Writes the full file of the configuration, a .config in the way of `make olddefconfig`, without a
header: headings of menus and comments, and each symbol that is visible. Of the others, members of
choices aside, it has those with an active default, the first whose condition isn't n (of a bool
or tristate it isn't n itself), those that are selected, and those that are implied while their
dependency isn't n. A line is `CONFIG_NAME=value`, of a bool or tristate that is n
`# CONFIG_NAME is not set`. No other symbol has a line, also where it has a value, as a number at a
bound of its range.

Several FILEs are merged: each overrides those before it. `kmin missed` lists afterwards which
assignments had no effect.",
    after: with_statuses!(
        "\
Example:
  kmin full --root firmware configs/board_defconfig -o .config"
    ),
};

/// The command that lists the symbols without their assigned value.
pub(crate) static MISSED: CommandHelp = CommandHelp {
    name: "missed",
    about: "Lists the symbols that don't have the value that a FILE assigns",
    long: "\
Lists, one name a line, the symbols whose assigned value isn't their value: since a dependency
isn't met, a number is out of its range, or another symbol selects them. A member of a choice is
listed if it was chosen and isn't selected. The status is 0 with and without such lines; with
--exit-code it is 1 where there are any.

With --long a line for each, `PATH:LINE: NAME: ASKED -> VALUE: WHY`, has the line that asks, the
value that the symbol has and why, as `kmin explain` says it. Lines that a later FILE overrides are
listed, too, as `PATH:LINE: NAME: ASKED -> overridden by PATH:LINE`. With --by-cause the symbols
are listed below what keeps them from their values: `COUNT VALUE: WHY`, the largest group first.",
    after: with_listing_statuses!(
        "\
Example, a check that fails where a symbol is listed, and where kmin fails, and what keeps most:
  kmin missed board.config debug.config
  kmin missed --exit-code board.config debug.config
  kmin missed --by-cause board.config debug.config"
    ),
};

pub(crate) const LONG_MISSED: &str = "Lists each line that isn't taken, and why";

pub(crate) const BY_CAUSE: &str = "Lists the symbols below what keeps them; not with --long";

/// The command that lists the symbols that are selected against their dependencies.
pub(crate) static CHECK: CommandHelp = CommandHelp {
    name: "check",
    about: "Lists the symbols that are selected against their dependencies",
    long: "\
Lists, as `unmet NAME`, the symbols that another symbol selects although their own dependencies
aren't met. The status is 0 with and without such lines; with --exit-code it is 1 where there are
any.

With --long a line for each has the place of its first definition, what selects it, and what is
unmet: `PATH:LINE: NAME: VALUE: selected by NAME (y) (PATH:LINE); unmet: PART (n) (PATH:LINE)`.",
    after: with_listing_statuses!(
        "\
Example, of a check that fails where there is any such line, and where kmin fails:
  kmin check --exit-code board.config"
    ),
};

pub(crate) const LONG_CHECK: &str = "Says what selects each symbol, and what is unmet";

/// The command that says why symbols have their values.
pub(crate) static EXPLAIN: CommandHelp = CommandHelp {
    name: "explain",
    about: "Says why symbols have their values, and which lines aren't taken",
    long: "\
Says of each NAME, in several lines, its value and what gives it, with the place of the default or
range: what the last line asks that says something of it, and whether that is taken; which parts of
its prompt's condition are too low (`needs`), each with its value and place; which symbols select
or imply it; and what is unmet where it is selected against its dependencies. NAME is a symbol's
name, with or without the prefix of configuration files. With --every each symbol of the tree is
explained, in order of first definition, and no NAME is given.",
    after: "\
Example:
  kmin explain NF_CONNTRACK_AMANDA,USB_GADGET x86_64_defconfig android-base.config
  kmin explain --every board_defconfig

Exit status: 0 done, 1 with --exit-code a line for a NAME isn't taken, 2 command line refused,
3 tree refused, 4 configuration file refused or NAME unknown, 5 a read or a write failed, 6 out of
memory.",
};

pub(crate) const NAMES: &str = "The names of symbols, with commas between them";

pub(crate) const EVERY: &str = "Explains each symbol of the tree; no NAME is given";

pub(crate) const DEEP: &str = "Goes on with the symbols that keep those explained too low";

pub(crate) const ALL: &str = "Lists each select and imply, also those that don't decide";

pub(crate) const EXIT_CODE_OF_LINES: &str =
    "Ends with status 1 where a line for an explained symbol isn't taken";

pub(crate) const EXIT_CODE: &str = "Ends with status 1 where a symbol is listed";

/// The command over any number of files, each a configuration of its own.
pub(crate) static TIDY: CommandHelp = CommandHelp {
    name: "tidy",
    about: "Lists, or rewrites, the files that aren't their own minimal file",
    long: "\
Goes over configuration files, each alone and over no assignments, with the tree read once, and
writes a line for each that isn't its own minimal file: `FILE: K out, L in`, how many of its lines
aren't in its minimal file, and the other way round; `FILE: order` where just their order is
another; or `FILE: line ends` where just carriage returns or the last newline are.

With --write each such file is replaced by its minimal file, whole or not at all. A line that the
tree can't read is never lost unasked: a file with a notice is then refused, unless --drop is
given, too. With --strict it is refused with and without --write.

A file that is refused or can't be written is reported and left as it is, and the others are gone
over. Standard output is written at the end, with --write a line for each file that was replaced.",
    after: "\
Example:
  kmin tidy --root firmware configs/*_defconfig
  git ls-files -z 'configs/*' | kmin tidy --write --from - -z

Exit status: 0 each file is minimal, or is now, 1 some file isn't minimal, 2 command line or list
refused, 3 tree refused, 4 configuration file or file of answers refused or list too large, 5 a
read or a write failed, 6 out of memory. Of several files the first refused one decides.",
};

pub(crate) const WRITE: &str = "Replaces each file that isn't minimal by its minimal file";

pub(crate) const DROP: &str =
    "Writes files without the lines that the tree can't read; with --write";

pub(crate) const DROP_IN_PLACE: &str =
    "Replaces a FILE without the lines that the tree can't read; with -o";

pub(crate) const FROM: &str = "File of further paths, a line each; - is standard input";

pub(crate) const NUL: &str = "Each path in LIST ends with NUL, not with a newline";

pub(crate) const EACH_FILE: &str = "Configuration files, each by itself";

/// The command over a tree without configuration files.
pub(crate) static WANTS: CommandHelp = CommandHelp {
    name: "wants",
    about: "Lists the questions of a tree's macros that have no answer",
    long: "\
Expands the tree as far as the answers go, and lists the questions that it met and that have no
answer, each once, a line each: a NAME of the environment, or `$ ` and a command. A command that is
made of another's answer is listed once that is known, so answer the list and ask again, until
nothing is listed. Then --unused lists what the files of answers have beyond what the tree asks, in
their order. kmin itself runs nothing: the script kmin-answer runs the commands of a tree, and adds
what they print to a file of answers, to be read before it is used.",
    after: "\
Example, and how a tree's own Makefile, in its folder, records the answers:
  kmin wants --root linux --answers answers
  make ARCH=x86 --eval='kminconfig:; kmin-answer ../answers kmin wants' kminconfig

Exit status: 0 nothing is listed, 1 questions are listed, 2 command line refused, 3 tree refused,
4 file of answers refused, 5 a read or a write failed, 6 out of memory.",
};

pub(crate) const UNUSED: &str = "Lists questions in files that nothing asks, once none is open";

/// The command over two configurations of one file each.
pub(crate) static COMPARE: CommandHelp = CommandHelp {
    name: "compare",
    about: "Lists the symbols whose values differ between two files",
    long: "\
Resolves LEFT and RIGHT, each alone, and writes a line `NAME: LEFT -> RIGHT` for each symbol whose
values differ, also where neither file has a line of it. It compares values, not lines: a file and
its minimal file don't differ, nor do a file and its full file where no tristate is above its
visibility, as a default or an imply may set it.",
    after: "\
Example:
  kmin compare old.config new.config

Exit status: 0 no difference, 1 differences, 2 command line refused, 3 tree refused,
4 configuration file refused, 5 a read or a write failed, 6 out of memory.",
};

pub(crate) const ROOT: &str = "Folder of the tree";

pub(crate) const TREE: &str = "First file of the tree, below DIR";

pub(crate) const PREFIX: &str = "Text before each name in a file";

pub(crate) const NO_PREFIX: &str =
    "Names in files are as in the tree, as Buildroot's; not with --prefix";

pub(crate) const STRINGS: &str = "Form of strings";

pub(crate) const STRINGS_LONG: &str = "\
How a string is spelled:
escaped  a \\ comes before each \" and each \\ of the text
raw      the text is as it is between two \", as in files of u-boot";

pub(crate) const IMPLY: &str = "Rule of imply";

pub(crate) const IMPLY_LONG: &str = "\
How `imply` counts:
present  where no assignment counts, as a default, up to the symbol's dependency
classic  there in full, unless that dependency is n; and under an implied y
         an m, an assigned one too, becomes y";

pub(crate) const STRICT: &str = "Refuses a file with a line that the tree can't read";

pub(crate) const LANGUAGE: &str = "Tree language";

pub(crate) const LANGUAGE_LONG: &str = "\
Forms that the tree may have, and its rules; strict by default, linux where the tree is
expanded:
strict      those of share/doc/kmin/RULES.md
linux       besides, a `\\$` in quotes, optional choices, def_int, def_hex and def_string,
            and further definitions of a choice's members
linux-6.1   as linux, for a Linux before 6.10
linux-6.12  as linux, with the rules of choices and numbers of Linux from 6.10 on";

pub(crate) const EXPAND: &str = "Expands the tree's macros, as each of the next three does";

pub(crate) const ANSWERS: &str = "File of answers to the questions of macros; repeatable";

pub(crate) const DEFINE: &str = "Value of a name, in place of any in a file; repeatable";

pub(crate) const ENV: &str = "Name that the environment answers where no file does; repeatable";

pub(crate) const MESSAGES: &str = "Form of messages";

pub(crate) const MESSAGES_LONG: &str = "\
How a line of standard error is spelled:
plain  FILE:LINE: KIND
long   FILE:LINE: error: KIND: TEXT, or warning, with a path that opens
json   an object with the members kind, severity, file, line, text and names
TEXT, of at most 200 bytes, has words of the line alone, and of a file that isn't below
--root or the working folder only a symbol's name. Refused words (2) are plain";

pub(crate) const FORMAT: &str = "Form of what is listed";

pub(crate) const FORMAT_LONG: &str = "\
How standard output is spelled:
plain  lines for people
json   a record for each, one JSON object a line, as share/doc/kmin/RULES.md has it";

pub(crate) const FILES: &str =
    "Configuration files, each overriding those before it; without one\nnothing is assigned; /dev/stdin is standard input";

pub(crate) const OUTPUT: &str = "File to write in place of standard output";

pub(crate) const OUTPUT_LONG: &str = "\
File to write in place of standard output. It is made, or replaced whole as by
`tidy --write`; one that has these bytes already is left alone";

pub(crate) const LEFT: &str = "Configuration file";

pub(crate) const RIGHT: &str = "Configuration file that it is compared with";
