//! The limits of what is read and made: of texts and lines, of a tree and its expansion, of a configuration file, of a bundle, of
//! answers to macro questions and of lists of files.

/// The most bytes of a text that is read as an int or a hex number.
pub const MAX_NUMBER_BYTES: usize = 64;

/// The greatest depth of an expression: the most `!` and pairs of parentheses around a symbol.
pub const MAX_EXPR_DEPTH: usize = 64;

/// The most bytes of a logical line of a Kconfig tree, and of a line of a configuration file, without the newline.
pub const MAX_LINE_BYTES: usize = 65_536;

/// The most bytes of a symbol's name in a `config`, a `select` or an `imply` of a Kconfig tree.
pub const MAX_NAME_BYTES: usize = 256;

/// The most symbols of a Kconfig tree.
pub const MAX_SYMBOLS: usize = 1_000_000;

/// The most choices of a Kconfig tree.
pub const MAX_CHOICES: usize = 4_096;

/// The most files that are read for a Kconfig tree; a file that is sourced twice counts twice.
pub const MAX_FILES: usize = 4_096;

/// The most bytes of all files that are read for a Kconfig tree; a file that is sourced twice counts twice.
pub const MAX_TREE_BYTES: usize = 67_108_864;

/// The most files of a Kconfig tree that are open at a time, each but the first sourced by the one before.
pub const MAX_OPEN_FILES: usize = 32;

/// The most blocks (`menu`, `choice` and `if`) that are open at a time, over all open files of a Kconfig tree.
pub const MAX_OPEN_BLOCKS: usize = 64;

/// The most bytes of a configuration file.
pub const MAX_CONFIG_BYTES: usize = 67_108_864;

/// The most lines of a configuration file.
pub const MAX_CONFIG_LINES: u32 = 1_048_576;

/// The most bytes of the prefix of names in configuration files, which usually is `CONFIG_`.
pub const MAX_PREFIX_BYTES: usize = 32;

/// The most bytes of a bundle, which is a Kconfig tree, a line of just `%%` and a configuration file in one text.
pub const MAX_BUNDLE_BYTES: usize = 67_108_864;

/// The most bytes that are read from a file of a Kconfig tree: one more than all its files may have.
pub const MAX_FILE_BYTES: usize = MAX_TREE_BYTES + 1;

/// The most bytes of a tree's file, or of an existing file that is compared, that are read at once.
pub const MAX_BLOCK_BYTES: usize = 8_192;

/// The most bytes of a configuration file that are read at once.
pub const MAX_CONFIG_BLOCK_BYTES: usize = 4_096;

/// The most names that are listed for the path patterns of a Kconfig tree; a folder that is listed twice counts twice.
pub const MAX_LISTED_NAMES: usize = 1_048_576;

/// The most bytes of a logical line, a variable's value, an expanded text and an expanded line of a Kconfig tree with macros.
pub const MAX_TEXT_BYTES: usize = 65_536;

/// The most expansions that may be open within each other: of a line's text, of a piece of a reference, of a variable's value.
pub const MAX_OPEN_EXPANSIONS: u32 = 64;

/// The most pieces of a macro reference: a name and 15 arguments.
pub const MAX_PIECES: usize = 16;

/// The most work of the expansion of a Kconfig tree. An expanded text costs 1, its length, and the length of its value; an
/// assignment costs the number of bytes that it stores.
pub const MAX_WORK: usize = 67_108_864;

/// The most bytes of a file of answers to macro questions.
pub const MAX_ANSWER_BYTES: usize = 67_108_864;

/// The most lines of a file of answers to macro questions.
pub const MAX_ANSWER_LINES: u32 = 1_048_576;

/// The most bytes of a line of a file of answers to macro questions.
pub const MAX_ANSWER_LINE_BYTES: usize = 65_536;

/// The most bytes of the value of a variable that the command line or the environment gives.
pub const MAX_VARIABLE_BYTES: usize = 65_536;

/// The most bytes of a list of configuration files.
pub const MAX_LIST_BYTES: usize = 67_108_864;

/// The most names that are tried for a new file beside an existing one.
pub const MAX_NEW_NAMES: u8 = 8;
