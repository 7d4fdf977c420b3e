//! Faults of a line's tokens and of expressions.
use kc_value::variant_name;
use std::alloc::AllocError;
use thiserror::Error;

/// The kind of a fault of a line's tokens or of an expression; it is displayed by its name.
#[derive(Clone, Copy, Debug, PartialEq, Eq, Error)]
#[error("{}", self.name())]
pub enum ExprKind {
    /// A byte that begins no token.
    BadToken,
    /// A quote that isn't closed in its line.
    UnclosedQuote,
    /// Tokens that aren't an expression.
    Malformed,
    /// A symbol under more than `MAX_EXPR_DEPTH` `!` and parentheses.
    TooDeep,
    /// A `$` outside comments that the language leaves out: in the strict language any, in that of Linux any but the `$` of a
    /// pair `\$` in quotes.
    LeftOut,
    /// Out of memory.
    OutOfMemory,
}

impl ExprKind {
    ghost use Rattle.std.specs.Prelude.{◌≡◌};
    ghost use Rattle.kc_tokens.specs.FaultNames.{expr_kind_name};

    /// The name of the kind of fault, by which it is also displayed.
    pub fn name(self) -> &'static str
        ensures { result.now ≡ expr_kind_name self }
    {
        variant_name!(
            self, ExprKind:
            BadToken, UnclosedQuote, Malformed, TooDeep, LeftOut, OutOfMemory
        )
    }
}

/// A fault of a line's tokens or of an expression.
///
/// `offset` is the place of its byte in the line, counted from 0; it is 0 if memory ran out.
#[derive(Clone, Copy, Debug, PartialEq, Eq, Error)]
#[error("{kind} at byte {offset}")]
pub struct ExprFault {
    pub offset: usize,
    pub kind: ExprKind,
}

/// Memory ran out: an `AllocError`, or an error that becomes one.
impl<E: Into<AllocError> + Drop> From<E> for ExprFault {
    ghost use Rattle.std.specs.Prelude.{◌≡◌};
    ghost use Rattle.kc_tokens.specs.declared.fault.ExprKind.TheVariants.{OutOfMemory};

    ghost from_gives = { λ _ e. (e.kind ≡ OutOfMemory) × (e.offset ≡ 0) };

    fn from(_: E) -> ExprFault {
        ExprFault {
            offset: 0,
            kind: ExprKind::OutOfMemory,
        }
    }
}
