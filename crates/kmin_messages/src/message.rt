//! What a line of standard error reports.
ghost use Rattle.std.specs.Prelude.{◌≡◌};
ghost use Rattle.kmin_messages.specs.Messages.{severity_name};

/// How grave a message is.
#[derive(Clone, Copy, Debug, PartialEq, Eq)]
pub enum Severity {
    /// A fault, which ends the run or refuses a file.
    Error,
    /// A notice.
    Warning,
}

impl Severity {
    /// The word for it in messages: `error` or `warning`.
    pub fn name(self) -> &'static str
        ensures { result.now ≡ severity_name self }
    {
        match self {
            Severity::Error => "error",
            Severity::Warning => "warning",
        }
    }
}

/// A form of messages that has more than the file, the line and the kind.
#[derive(Clone, Copy, Debug, PartialEq, Eq)]
pub enum Form {
    /// A line for people.
    Long,
    /// A line for programs, one JSON object.
    Json,
}

/// A message: the name of its kind, the path of its file, if it is of one, and the line there, counted from 1 (0 where there is
/// none), what there is to say about it, which may be empty, and the names of symbols in that.
#[derive(Clone, Copy)]
pub struct Message<'a> {
    pub kind: &'a str,
    pub severity: Severity,
    pub file: Option<&'a [u8]>,
    pub line: u32,
    pub text: &'a str,
    pub names: &'a [&'a str],
}
