//! Places, faults and notices of the expansion, and why it stops.
use super::bytes::Bytes;
use kc_macros_model::{MacroKind, MacroNoticeKind};
use std::alloc::AllocError;

/// A line of a file: the path of the file and the number of the line, which is 0 for the file as a whole.
#[derive(Clone, Copy)]
pub struct Place<'a> {
    pub file: &'a [u8],
    pub line: u32,
}

/// Why a tree can't be expanded, with the file and the line, which is 0 for the file as a whole.
#[derive(Drop)]
pub struct MacroFault {
    pub file: Bytes,
    pub line: u32,
    pub kind: MacroKind,
    pub text: Bytes,
}

/// A message of a tree by `info` or `warning-if`, with its file and line. It refuses nothing.
#[derive(Drop)]
pub struct MacroNotice {
    pub file: Bytes,
    pub line: u32,
    pub kind: MacroNoticeKind,
    pub text: Bytes,
}

/// Why an expansion stops.
#[derive(Drop)]
pub enum Stop {
    /// A fault of the tree.
    Fault(MacroFault),
    /// How to go on depends on a question without an answer.
    Unanswered,
    /// Memory ran out.
    OutOfMemory,
}

/// The value of a text, `None` where it depends on a question without an answer; or why the expansion stops.
pub(crate) type ValueResult = Result<Option<Bytes>, Stop>;

/// Memory ran out: an `AllocError`, or an error that becomes one.
impl<E: Into<AllocError> + Drop> From<E> for Stop {
    ghost use Rattle.std.specs.Prelude.{◌≡◌};
    ghost use Rattle.kc_macros.specs.declared.stop.Stop.TheVariants.{OutOfMemory};

    ghost from_gives = { λ _ e. e ≡ OutOfMemory };

    fn from(_error: E) -> Stop {
        Stop::OutOfMemory
    }
}
