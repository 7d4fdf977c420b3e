//! Faults and notices of the expansion, and faults of files of answers.
use kc_value::variant_name;
use thiserror::Error;

/// Why the macros of a Kconfig tree can't be expanded. A kind is displayed as its name.
#[derive(Clone, Copy, Debug, PartialEq, Eq, Error)]
#[error("{}", self.name())]
pub enum MacroKind {
    /// A macro reference `$(` has no closing `)` in the same text.
    Unterminated,
    /// A macro reference calls a function that isn't defined, or has a name that no environment variable can have.
    Undefined,
    /// A variable that is used without arguments needs its own value to be expanded.
    Recursion,
    /// A built-in function is called with a wrong number of arguments, or a macro reference has more than 16 pieces.
    Arguments,
    /// A call of `error-if` has a condition that is `y`.
    Error,
    /// A question that the expansion asks, an environment variable or a shell command, has no answer.
    Unanswered,
    /// The line of a variable's assignment is continued by a backslash.
    JoinedAssignment,
    /// The first file of the tree or a sourced file can't be found, the path pattern of a `source` matches no file, or a file
    /// that is there can't be read, or a folder that is there can't be listed.
    MissingFile,
    /// A file is sourced while it is still being read: by itself, or by a file that it sources, directly or through others.
    SourceLoop,
    /// More than 32 files or lists of files, or more than 64 expansions, would be open within each other.
    TooDeep,
    /// The tree needs more files, bytes, listed folder names or expansion work than the limits allow.
    TooMany,
    /// A variable's value, an expanded text or an expanded line has more than 65,536 bytes.
    LineTooLong,
    /// Memory ran out.
    OutOfMemory,
}

impl MacroKind {
    ghost use Rattle.std.specs.Prelude.{◌≡◌};
    ghost use Rattle.kc_macros_model.specs.FaultNames.{macro_kind_name};

    /// The name of a kind of fault: that of its variant, which `Display` writes.
    pub fn name(self) -> &'static str
        ensures { result.now ≡ macro_kind_name self }
    {
        variant_name!(
            self, MacroKind:
            Unterminated, Undefined, Recursion, Arguments, Error, Unanswered, JoinedAssignment,
            MissingFile, SourceLoop, TooDeep, TooMany, LineTooLong, OutOfMemory
        )
    }
}

/// The messages of a tree's macros that don't make the expansion fail. A kind is displayed as its name.
#[derive(Clone, Copy, Debug, PartialEq, Eq, Error)]
#[error("{}", self.name())]
pub enum MacroNoticeKind {
    /// A message of the built-in function `info`.
    Info,
    /// A message of the built-in function `warning-if`, whose condition is `y`.
    Warning,
}

impl MacroNoticeKind {
    ghost use Rattle.std.specs.Prelude.{◌≡◌};
    ghost use Rattle.kc_macros_model.specs.FaultNames.{macro_notice_name};

    /// The name of a kind of message: that of its variant, which `Display` writes.
    pub fn name(self) -> &'static str
        ensures { result.now ≡ macro_notice_name self }
    {
        variant_name!(self, MacroNoticeKind: Info, Warning)
    }
}

/// Why a file of answers to macro questions is refused. A kind is displayed as its name.
#[derive(Clone, Copy, Debug, PartialEq, Eq, Error)]
#[error("{}", self.name())]
pub enum AnswersKind {
    /// A line is no comment, `NAME=TEXT`, `!NAME` or `$ COMMAND`, or a command has no answer `> TEXT` on the next line.
    Malformed,
    /// A line answers a question that has a different answer already, from an earlier line or file.
    TwoAnswers,
    /// A line of the file isn't UTF-8.
    NotUtf8,
    /// A line has more than 65,536 bytes without its newline.
    LineTooLong,
    /// The file has more than 1,048,576 lines.
    TooManyLines,
    /// The file has more than 67,108,864 bytes.
    TooLarge,
    /// A read of the file failed.
    Read,
    /// Memory ran out.
    OutOfMemory,
}

impl AnswersKind {
    ghost use Rattle.std.specs.Prelude.{◌≡◌};
    ghost use Rattle.kc_macros_model.specs.FaultNames.{answers_kind_name};

    /// The name of a kind of fault: that of its variant, which `Display` writes.
    pub fn name(self) -> &'static str
        ensures { result.now ≡ answers_kind_name self }
    {
        variant_name!(
            self, AnswersKind:
            Malformed, TwoAnswers, NotUtf8, LineTooLong, TooManyLines, TooLarge, Read, OutOfMemory
        )
    }
}

/// Why a file of answers to macro questions is refused, and at which line, counted from 1.
#[derive(Clone, Copy, Debug, PartialEq, Eq, Error)]
#[error("{kind} at line {line}")]
pub struct AnswersFault {
    pub line: u32,
    pub kind: AnswersKind,
}
