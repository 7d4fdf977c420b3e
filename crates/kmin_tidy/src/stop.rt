//! Reasons to end a run before its last file.
ghost use Rattle.std.specs.Prelude.{◌≡◌};
ghost use Rattle.kmin_tidy.specs.declared.stop.TidyStop.TheVariants.{Memory};

use std::alloc::AllocError;

/// Why a run ends early.
#[derive(Debug, Drop, PartialEq, Eq)]
pub(crate) enum TidyStop {
    /// Memory ran out.
    Memory,
    /// The new file at this path, which was to replace a file, couldn't be removed.
    Left(String),
}

impl From<AllocError> for TidyStop {
    ghost from_gives = { λ _ stop. stop ≡ Memory };

    fn from(_: AllocError) -> TidyStop {
        TidyStop::Memory
    }
}
