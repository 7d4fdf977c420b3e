//! Faults of expressions as faults of the tree.
ghost use Rattle.std.specs.Prelude.{◌≡◌};
ghost use Rattle.kc_tree_model.specs.Forms.{kind_of_fault};

use kc_tokens::ExprKind;
use kc_tree_model::TreeKind;

/// The fault of the tree that a fault of an expression becomes.
pub fn tree_kind_of(kind: ExprKind) -> TreeKind
    ensures { result ≡ kind_of_fault kind }
{
    match kind {
        ExprKind::BadToken => TreeKind::BadToken,
        ExprKind::UnclosedQuote => TreeKind::UnclosedQuote,
        ExprKind::Malformed => TreeKind::Malformed,
        ExprKind::TooDeep => TreeKind::TooDeep,
        ExprKind::LeftOut => TreeKind::LeftOut,
        ExprKind::OutOfMemory => TreeKind::OutOfMemory,
    }
}
