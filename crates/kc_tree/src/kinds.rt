//! Tests of types.
ghost use Rattle.std.specs.Prelude.{◌≡◌};
ghost use Rattle.kc_tree_model.specs.TreeFaults.{is_other_kind, is_no_member_kind};
ghost use Rattle.kc_tree_model.specs.Contents.{kind_in_tree};
ghost use Rattle.kc_value.specs.Kinds.{is_tri_kind, is_number};

use kc_tokens::Language;
use kc_value::Kind;

/// Whether a type is bool or tristate, so that its values are tristates.
pub fn is_tri_kind(kind: Kind) -> bool
    ensures { result ≡ is_tri_kind kind }
{
    matches!(kind, Kind::Bool | Kind::Tristate)
}

/// Whether a type is int or hex.
pub fn is_number(kind: Kind) -> bool
    ensures { result ≡ is_number kind }
{
    matches!(kind, Kind::Int | Kind::Hex)
}

/// Whether an optional type `given` is present and differs from `kind`.
pub fn is_other_kind(kind: Kind, given: Option<Kind>) -> bool
    ensures { result ≡ is_other_kind kind given }
{
    match given {
        Some(other) => other != kind,
        None => false,
    }
}

/// Whether an optional type `given` is present and a member of a choice can't have it.
pub fn is_no_member_kind(language: Language, given: Option<Kind>) -> bool
    ensures { result ≡ is_no_member_kind language given }
{
    match given {
        Some(kind) => match language {
            Language::Strict => kind != Kind::Bool,
            Language::Linux(_) => !is_tri_kind(kind),
        },
        None => false,
    }
}

/// The type of a symbol, by the number of its choice if it is a member, and the first type given to it, if any.
pub fn kind_in_tree(choice: Option<u32>, given: Option<Kind>) -> Kind
    ensures { result ≡ kind_in_tree choice given }
{
    match choice {
        Some(_) => Kind::Bool,
        None => given.unwrap_or(Kind::Bool),
    }
}
