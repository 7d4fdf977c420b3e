//! Errors that end a run before its output.
ghost use Rattle.std.specs.Prelude.{◌≡◌};
ghost use Rattle.kmin_report.specs.between.RunErrors.{status_of};
ghost use Rattle.kmin_report.specs.declared.run_error.RunError.TheVariants.{Memory};

use std::alloc::AllocError;

/// Why a run ends early. Every error but `Memory` was reported on standard error before.
#[derive(Clone, Copy, Debug, PartialEq, Eq)]
pub enum RunError {
    /// The tree is refused.
    Tree,
    /// A configuration file or an answer file is refused, or a bundle or a list of paths is too large.
    Configuration,
    /// A read or a write failed.
    Failed,
    /// Memory ran out.
    Memory,
}

impl RunError {
    /// The exit status of a run that ends with this error.
    pub fn status(self) -> u8
        ensures { result ≡ status_of self }
    {
        match self {
            RunError::Tree => 3,
            RunError::Configuration => 4,
            RunError::Failed => 5,
            RunError::Memory => 6,
        }
    }
}

/// Memory ran out: an `AllocError`, or an error that becomes one.
impl<E: Into<AllocError> + Drop> From<E> for RunError {
    ghost from_gives = { λ _ stop. stop ≡ Memory };

    fn from(_: E) -> RunError {
        RunError::Memory
    }
}
