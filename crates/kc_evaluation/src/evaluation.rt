//! Values of units by their rules.
ghost use Rattle.std.specs.Prelude.{◌≡◌, ◌<◌, length, IfOk, IfSome, IsTrue};
ghost use Rattle.std.specs.Option.{option_copied};
ghost use Rattle.kc_tree.specs.between.Views.{symbol_view, choice_view, SymbolFits, ChoiceFits};
ghost use Rattle.kc_rules_model.specs.Rule.{rule, symbol_rule, choice_rule, assigned_tri, assigned_text, assigned_member, assigned_lines};
ghost use Rattle.kc_rules_model.specs.Shapes.{user_fits};
ghost use Rattle.kc_evaluation.specs.checker.ValuationView.{valuation_tree, valuation_exprs, valuation_values};

use super::choices::shown_choice_rule;
use super::member_lines::selected_by_lines;
use super::rules::Rules;
use super::text_rules::{number_rule, string_rule};
use super::tristate_rules::tri_rule;
use super::valuation::Valuation;
use kc_rules_model::{MemberLine, Profile, UnitValue, UserValue};
use kc_tree::{Choice, Sym, Symbol, Unit};
use kc_value::{Kind, Text, Tri};
use std::alloc::{AllocError, Global};

/// The tristate that a user value is, if it is one.
pub fn assigned_tri(user: Option<&UserValue>) -> Option<Tri>
    ensures { result ≡ assigned_tri (option_copied user.entry) }
{
    match user {
        Some(UserValue::Tri(t)) => Some(*t),
        _ => None,
    }
}

/// The text that a user value is, if it is one.
pub fn assigned_text<'a>(user: Option<&'a UserValue>) -> Option<&'a str>
    ensures { option_copied result ≡ assigned_text (option_copied user.entry) }
{
    match user {
        Some(UserValue::Text(t)) => Some(t.as_str()),
        _ => None,
    }
}

/// The member that a user value selects, if it selects one.
pub fn assigned_member(user: Option<&UserValue>) -> Option<Sym>
    ensures { result ≡ assigned_member (option_copied user.entry) }
{
    match user {
        Some(UserValue::Member(s)) => Some(*s),
        _ => None,
    }
}

/// What a user value assigns to members one by one; nothing where it is another one.
pub fn assigned_lines<'a>(user: Option<&'a UserValue>) -> &'a [MemberLine]
    ensures { result.now ≡ assigned_lines (option_copied user.entry) }
{
    match user {
        Some(UserValue::Lines(lines)) => lines.as_slice(),
        _ => &[],
    }
}

fn symbol_rule(
    alloc: Global,
    under: &Valuation<'_>,
    profile: Profile,
    symbol: &Symbol<'_>,
    user: Option<&UserValue>,
) -> Result<UnitValue, AllocError>
    requires fits { SymbolFits (valuation_exprs under.now) (length (valuation_tree under.now).symbols) symbol.now }
    ensures ok { IfOk result (λ value. value ≡ symbol_rule (symbol_view (valuation_exprs under.now) symbol.now).kind profile (valuation_tree under.now) (symbol_view (valuation_exprs under.now) symbol.now) (option_copied user.entry) (valuation_values under.now)) }
{
    match symbol.kind {
        Kind::Bool => Ok(UnitValue::Tri(tri_rule(under, profile, symbol, assigned_tri(user)))),
        Kind::Tristate => Ok(UnitValue::Tri(tri_rule(under, profile, symbol, assigned_tri(user)))),
        Kind::Text => {
            let text = string_rule(under, symbol, assigned_text(user));
            Ok(UnitValue::Text(Text::copied(alloc, text)?))
        }
        Kind::Int => Ok(UnitValue::Text(number_rule(alloc, under, symbol, assigned_text(user))?)),
        Kind::Hex => Ok(UnitValue::Text(number_rule(alloc, under, symbol, assigned_text(user))?)),
    }
}

fn choice_rule(
    alloc: Global,
    under: &Valuation<'_>,
    choice: &Choice<'_>,
    user: Option<&UserValue>,
) -> Result<Option<Sym>, AllocError>
    requires fits { ChoiceFits (valuation_exprs under.now) (length (valuation_tree under.now).symbols) choice.now }
    requires member { IfSome (assigned_member (option_copied user)) (λ s. s < length (valuation_tree under.now).symbols) }
    ensures ok { IfOk result (λ m. m ≡ choice_rule (valuation_tree under.now) (choice_view (valuation_exprs under.now) choice.now) (option_copied user.entry) (valuation_values under.now)) }
{
    if under.rules.tree.language().is_linux_6_12() {
        selected_by_lines(alloc, under, choice, assigned_lines(user))
    } else {
        Ok(shown_choice_rule(under, choice, assigned_member(user)))
    }
}

/// The value of a unit by its rule, given its user value, if it has one, and the values of units. An `Err` means out of memory.
pub fn value_of(
    alloc: Global,
    rules: &Rules,
    u: u32,
    user: Option<&UserValue>,
    values: &[UnitValue],
) -> Result<UnitValue, AllocError>
    requires unit { u < length rules.now.tree.tree.units }
    requires user { IfSome (option_copied user) (λ x. IsTrue (user_fits rules.now.tree.tree u x)) }
    ensures ok { IfOk result (λ value. value ≡ rule rules.now.profile rules.now.tree.tree u (option_copied user.entry) values.now) }
{
    let under = &Valuation { rules, values };
    match rules.tree.unit(u) {
        Unit::Symbol(s) => symbol_rule(alloc, under, rules.profile, &rules.tree.symbol(s), user),
        Unit::Choice(c) => Ok(UnitValue::Member(choice_rule(
            alloc,
            under,
            &rules.tree.choice(c),
            user,
        )?)),
    }
}
