//! The first hindrance that holds of what a unit's user value asks of a symbol.
ghost use Rattle.std.specs.Prelude.{◌≡◌, ◌<◌, length, IfOk, IfSome, IsTrue, Some, find};
ghost use Rattle.kc_tree.specs.between.Views.{choice_view, ChoiceFits};
ghost use Rattle.kc_evaluation.specs.checker.ValuationView.{valuation_tree, valuation_exprs, valuation_values};
ghost use Rattle.kc_rules_model.specs.Rule.{assigned_member};
ghost use Rattle.kc_rules_model.specs.Shapes.{user_fits};
ghost use Rattle.kc_reasons_model.specs.Hindrances.{hinders, hinders_choice, is_as_asked, is_this, hindrances, hindrance_to};
ghost use Rattle.kc_rules_model.specs.Equality.{same_value};
ghost use Rattle.kc_rules_model.specs.declared.values.UnitValue.TheVariants.{Member as MemberValue};

use super::hindrances::hinders_symbol;
use super::member_hindrances::{hinders_listed, hinders_member, is_asked_n, is_given_y};
use kc_evaluation::{Rules, Valuation, value_of};
use kc_reasons_model::Hindrance;
use kc_rules_model::{MemberLine, UnitValue, UserValue};
use kc_tree::{Choice, Sym, Unit};
use std::alloc::{AllocError, Global};

/// Whether a hindrance holds of what a choice's user value asks of member `s`.
fn hinders_choice(
    alloc: Global,
    under: &Valuation<'_>,
    hindrance: Hindrance,
    choice: &Choice<'_>,
    s: Sym,
    user: &UserValue,
) -> Result<bool, AllocError>
    requires fits { ChoiceFits (valuation_exprs under.now) (length (valuation_tree under.now).symbols) choice.now }
    requires there { s < length (valuation_tree under.now).symbols }
    requires user { IfSome (assigned_member (Some user.now)) (λ m. m < length (valuation_tree under.now).symbols) }
    ensures ok { IfOk result (λ b. b ≡ hinders_choice hindrance (valuation_tree under.now) (Some (choice_view (valuation_exprs under.now) choice.now)) s user.now (valuation_values under.now)) }
{
    match user {
        UserValue::Member(m) => Ok(hinders_member(under, hindrance, choice, *m)),
        UserValue::Lines(l) => hinders_listed(
            alloc,
            under,
            hindrance,
            choice,
            s,
            l.as_slice(),
            user,
        ),
        UserValue::Tri(_) => Ok(false),
        UserValue::Text(_) => Ok(false),
    }
}

/// Whether a hindrance holds of unit `u` and what its user value asks of symbol `s`. An `Err` means out of memory.
pub fn hinders(
    alloc: Global,
    rules: &Rules,
    hindrance: Hindrance,
    u: u32,
    s: Sym,
    user: &UserValue,
    values: &[UnitValue],
) -> Result<bool, AllocError>
    requires unit { u < length rules.now.tree.tree.units }
    requires there { s < length rules.now.tree.tree.symbols }
    requires user { IsTrue (user_fits rules.now.tree.tree u user.now) }
    ensures ok { IfOk result (λ b. b ≡ hinders hindrance rules.now.profile rules.now.tree.tree u s user.now values.now) }
{
    let under = &Valuation { rules, values };
    match rules.tree.unit(u) {
        Unit::Symbol(own) => Ok(hinders_symbol(
            under,
            rules.profile,
            hindrance,
            &rules.tree.symbol(own),
            user,
        )),
        Unit::Choice(c) => hinders_choice(alloc, under, hindrance, &rules.tree.choice(c), s, user),
    }
}

/// Whether a choice's value is this member.
fn is_member_value(value: &UnitValue, s: Sym) -> bool
    ensures { result ≡ same_value value.now (MemberValue (Some s)) }
{
    match value {
        UnitValue::Member(Some(m)) => m.number() == s.number(),
        UnitValue::Member(None) => false,
        UnitValue::Tri(_) => false,
        UnitValue::Text(_) => false,
    }
}

/// Whether a unit with this value has what a user value asks of symbol `s`.
fn is_as_asked(s: Sym, user: &UserValue, value: &UnitValue) -> bool
    ensures { result ≡ is_as_asked s user.now value.now }
{
    match user {
        UserValue::Tri(t) => match value {
            UnitValue::Tri(v) => *v == *t,
            UnitValue::Text(_) => false,
            UnitValue::Member(_) => false,
        },
        UserValue::Text(t) => match value {
            UnitValue::Text(v) => v.as_str().as_bytes() == t.as_str().as_bytes(),
            UnitValue::Tri(_) => false,
            UnitValue::Member(_) => false,
        },
        UserValue::Member(m) => is_member_value(value, *m),
        UserValue::Lines(l) => {
            if is_member_value(value, s) {
                !is_asked_n(l.as_slice(), s)
            } else {
                !is_given_y(l.as_slice(), s)
            }
        }
    }
}

/// The hindrances in the order of the search.
fn hindrances() -> &'static [Hindrance]
    ensures { result.now ≡ hindrances }
{
    &[
        Hindrance::BelowSelected,
        Hindrance::FromEnvironment,
        Hindrance::Hidden,
        Hindrance::AboveVisibility,
        Hindrance::Promoted,
        Hindrance::ImpliedY,
        Hindrance::UpsideDown,
        Hindrance::OutOfRange,
        Hindrance::ChoiceNotShown,
        Hindrance::MemberHidden,
        Hindrance::LaterY,
        Hindrance::FirstOfAll,
    ]
}

/// What hinders that unit `u` has what its user value asks of symbol `s`, under values of the units: the first hindrance that holds;
/// `None` where it has it. An `Err` means out of memory.
pub fn hindrance_to(
    alloc: Global,
    rules: &Rules,
    u: u32,
    s: Sym,
    user: &UserValue,
    values: &[UnitValue],
) -> Result<Option<Hindrance>, AllocError>
    requires unit { u < length rules.now.tree.tree.units }
    requires there { s < length rules.now.tree.tree.symbols }
    requires user { IsTrue (user_fits rules.now.tree.tree u user.now) }
    ensures ok { IfOk result (λ o. o ≡ hindrance_to rules.now.profile rules.now.tree.tree u s (Some user.now) values.now) }
{
    let value = value_of(alloc, rules, u, Some(user), values)?;
    if is_as_asked(s, user, &value) {
        return Ok(None);
    }
    let order = hindrances();
    for hindrance in order {
        if hinders(alloc, rules, *hindrance, u, s, user, values)? {
            return Ok(Some(*hindrance));
        }
    }
    Ok(None)
}
