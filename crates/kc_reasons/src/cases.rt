//! What gives a unit its value.
ghost use Rattle.std.specs.Prelude.{◌≡◌, ◌<◌, length, is_some, IfOk, IfSome, IsTrue};
ghost use Rattle.std.specs.Option.{option_copied};
ghost use Rattle.kc_tree.specs.between.Views.{symbol_view, SymbolFits};
ghost use Rattle.kc_evaluation.specs.checker.ValuationView.{valuation_tree, valuation_exprs, valuation_values};
ghost use Rattle.kc_rules_model.specs.Rule.{visible_text};
ghost use Rattle.kc_rules_model.specs.Shapes.{user_fits};
ghost use Rattle.kc_reasons_model.specs.Cases.{symbol_case, case_of};

use super::choices::choice_case;
use super::numbers::number_case;
use super::texts::string_case;
use super::tristates::{lift, tri_case};
use kc_evaluation::{Rules, Valuation, assigned_text, assigned_tri, is_visible};
use kc_reasons_model::Case;
use kc_rules_model::{UnitValue, UserValue};
use kc_tree::{Symbol, Unit};
use kc_value::Kind;
use std::alloc::{AllocError, Global};

/// Whether there is a user's text of a symbol, and it is visible.
fn is_text_visible(under: &Valuation<'_>, symbol: &Symbol<'_>, user: Option<&UserValue>) -> bool
    requires fits { SymbolFits (valuation_exprs under.now) (length (valuation_tree under.now).symbols) symbol.now }
    ensures value { result ≡ is_some (visible_text (valuation_tree under.now) (symbol_view (valuation_exprs under.now) symbol.now) (option_copied user.entry) (valuation_values under.now)) }
{
    assigned_text(user).is_some() && is_visible(under, symbol)
}

/// What gives a symbol outside choices its value.
fn symbol_case(under: &Valuation<'_>, symbol: &Symbol<'_>, user: Option<&UserValue>) -> Case
    requires fits { SymbolFits (valuation_exprs under.now) (length (valuation_tree under.now).symbols) symbol.now }
    ensures value { result ≡ symbol_case (symbol_view (valuation_exprs under.now) symbol.now).kind under.now.rules.now.profile (valuation_tree under.now) (symbol_view (valuation_exprs under.now) symbol.now) (option_copied user.entry) (valuation_values under.now) }
{
    match symbol.kind {
        Kind::Bool | Kind::Tristate => Case::Tri(
            tri_case(under, symbol, assigned_tri(user)),
            lift(under, symbol, user),
        ),
        Kind::Text => {
            let by_user = is_text_visible(under, symbol, user);
            Case::Text(string_case(under, symbol, by_user))
        }
        Kind::Int => Case::Text(number_case(under, symbol, user)),
        Kind::Hex => Case::Text(number_case(under, symbol, user)),
    }
}

/// What gives unit `u` its value under values of the units, if it has this user value, or none. An `Err` means out of memory.
pub fn case_of(
    alloc: Global,
    rules: &Rules,
    u: u32,
    user: Option<&UserValue>,
    values: &[UnitValue],
) -> Result<Case, AllocError>
    requires unit { u < length rules.now.tree.tree.units }
    requires user { IfSome (option_copied user) (λ x. IsTrue (user_fits rules.now.tree.tree u x)) }
    ensures ok { IfOk result (λ case. case ≡ case_of rules.now.profile rules.now.tree.tree u (option_copied user.entry) values.now) }
{
    let under = &Valuation { rules, values };
    match rules.tree.unit(u) {
        Unit::Symbol(s) => Ok(symbol_case(under, &rules.tree.symbol(s), user)),
        Unit::Choice(c) => Ok(Case::Choice(choice_case(
            alloc,
            under,
            &rules.tree.choice(c),
            user,
        )?)),
    }
}
