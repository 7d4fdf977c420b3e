//! Refusals of words that `clap` accepts.
ghost use Rattle.kmin_options.specs.declared.refusal.Refusal.TheVariants.{OutOfMemory};
ghost use Rattle.std.specs.Prelude.{◌≡◌};

use std::alloc::AllocError;

/// Why words that `clap` accepts give no command.
#[derive(Clone, Copy, Debug)]
pub enum Refusal {
    /// A value isn't allowed. The text is the line of the message, which names the option or the word.
    Words(&'static str),
    OutOfMemory,
}

/// Memory ran out: an `AllocError`, or an error that becomes one.
impl<E: Into<AllocError> + Drop> From<E> for Refusal {
    ghost from_gives = { λ _ refusal. refusal ≡ OutOfMemory };

    fn from(_: E) -> Refusal {
        Refusal::OutOfMemory
    }
}
