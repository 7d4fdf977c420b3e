//! The kind of fault of a definition, or of an attribute.
ghost use Rattle.std.specs.Prelude.{◌≡◌, ◌&&◌, is_some, not};
ghost use Rattle.kc_expr.specs.between.Arena.{Exprs};
ghost use Rattle.kc_tree_model.specs.TreeFaults.{is_shapeless as shapeless};
ghost use Rattle.kc_value.specs.Kinds.{is_number};
ghost use Rattle.kc_tree_model.specs.Statements.{default_of, is_modules as modules, prompt_of, range_of};
ghost use Rattle.kc_statements.specs.between.StatementViews.{attribute_in};
ghost use Rattle.kc_checks.specs.checker.Kinds.{definition_kind, typed_kind, choice_kind};

use super::summary::SymbolSummary;
use kc_statements::ReadAttribute;
use kc_tree::{is_number, is_other_kind, is_tri_kind};
use kc_tree_model::TreeKind;
use kc_value::Kind;

/// The kind of the first fault of a definition, from the summary of its symbol; `is_misfit` is set if it is in a choice and the
/// symbol's type isn't one of a member, `may_follow` if it may come after its symbol's definition as a choice member.
pub(crate) fn definition_fault(
    symbol_summary: &SymbolSummary,
    is_misfit: bool,
    is_first: bool,
    is_modules: bool,
    may_follow: bool,
) -> Option<TreeKind>
    ensures { result ≡ definition_kind symbol_summary.now is_misfit is_first is_modules may_follow }
{
    let other = is_other_kind(Kind::Bool, symbol_summary.given);
    if is_first && symbol_summary.kind().is_none() {
        Some(TreeKind::NoType)
    } else if is_misfit || (!is_first && symbol_summary.choice.is_some() && !may_follow) {
        Some(TreeKind::ChoiceMember)
    } else if is_first && is_modules && other {
        Some(TreeKind::ModulesType)
    } else {
        None
    }
}

/// Whether an attribute is a default that isn't one operand, in a symbol whose type wants one.
fn is_shapeless(kind: Kind, attribute: &ReadAttribute) -> bool
    ensures { (e : Exprs) → result ≡ shapeless kind (default_of (attribute_in e attribute.now)) }
{
    match attribute.default_given() {
        Some(valued) => !is_tri_kind(kind) && !valued.single,
        None => false,
    }
}

/// Whether an attribute is a prompt after another one.
fn is_second_prompt(prompted: bool, attribute: &ReadAttribute) -> bool
    ensures { (e : Exprs) → result ≡ (prompted && is_some (prompt_of (attribute_in e attribute.now))) }
{
    prompted && attribute.is_prompt()
}

/// Whether an attribute is a range in a symbol whose type has none.
fn is_stray_range(kind: Kind, attribute: &ReadAttribute) -> bool
    ensures { (e : Exprs) → result ≡ (is_some (range_of (attribute_in e attribute.now)) && not (is_number kind)) }
{
    attribute.is_range() && !is_number(kind)
}

/// Whether an attribute marks the modules symbol in another symbol.
fn is_stray_modules(is_modules_symbol: bool, attribute: &ReadAttribute) -> bool
    ensures { (e : Exprs) → result ≡ (modules (attribute_in e attribute.now) && not is_modules_symbol) }
{
    attribute.is_modules() && !is_modules_symbol
}

/// The kind of the first fault of an attribute of a symbol with this type; `prompted` is set if a prompt precedes it, and
/// `is_wrong` if it selects or implies where it may not.
pub(crate) fn typed_attribute_fault(
    kind: Kind,
    prompted: bool,
    is_modules_symbol: bool,
    is_wrong: bool,
    attribute: &ReadAttribute,
) -> Option<TreeKind>
    ensures { (e : Exprs) → result ≡ typed_kind kind prompted is_modules_symbol is_wrong (attribute_in e attribute.now) }
{
    if is_other_kind(kind, attribute.type_given()) {
        Some(TreeKind::TypeConflict)
    } else if is_second_prompt(prompted, attribute) {
        Some(TreeKind::SecondPrompt)
    } else if is_shapeless(kind, attribute) {
        Some(TreeKind::DefaultShape)
    } else if is_stray_range(kind, attribute) {
        Some(TreeKind::RangeType)
    } else if is_wrong {
        Some(TreeKind::SelectType)
    } else if is_stray_modules(is_modules_symbol, attribute) {
        Some(TreeKind::ModulesType)
    } else {
        None
    }
}

/// The kind of the first fault of an attribute of a choice; `prompted` is set if a prompt precedes it, and `is_no_member` if it
/// is a default that names no member.
pub(crate) fn choice_attribute_kind(
    prompted: bool,
    is_no_member: bool,
    attribute: &ReadAttribute,
) -> Option<TreeKind>
    ensures { (e : Exprs) → result ≡ choice_kind prompted is_no_member (attribute_in e attribute.now) }
{
    if is_second_prompt(prompted, attribute) {
        Some(TreeKind::SecondPrompt)
    } else if is_no_member {
        Some(TreeKind::ChoiceDefault)
    } else {
        None
    }
}
