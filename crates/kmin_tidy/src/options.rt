//! The options of a run.
ghost use Rattle.std.specs.Prelude.{◌≡◌};

use kc_dotconfig::Format;
use kmin_records::OutputForm;
use std::alloc::Global;

/// The options of [`tidy_files`](crate::tidy_files).
#[derive(Clone, Copy, Debug, PartialEq, Eq)]
pub struct TidyOptions {
    /// Whether a file that isn't minimal is replaced by its minimal file.
    pub write: bool,
    /// Whether, if `write` is set, a file with notices is replaced too, without the lines that have the notices.
    pub drop: bool,
    /// Whether a file with a notice is refused, whatever the other options.
    pub strict: bool,
    /// The form of the lines of standard output.
    pub output_form: OutputForm,
}

/// What files are tidied by: how their lines are read and written, and the options.
#[derive(Clone, Copy)]
pub struct Tidier<'a> {
    pub alloc: Global,
    pub format: &'a Format,
    pub options: TidyOptions,
}

impl TidyOptions {
    ghost use Rattle.kmin_tidy.specs.Options.{refuses_notices};

    /// Whether a file with a notice is refused: if `strict` is set, or if `write` is set and `drop` isn't.
    pub(crate) fn refuses_notices(self) -> bool
        ensures { result ≡ refuses_notices self }
    {
        self.strict || (self.write && !self.drop)
    }
}
