//! Values of symbols and expressions.
ghost use Rattle.std.specs.Prelude.{◌≡◌, ◌<◌, length, Some, is_none, nat_lt};
ghost use Rattle.std.specs.Option.{option_copied};
ghost use Rattle.kc_value.specs.Tri.{rank};
ghost use Rattle.kc_expr.specs.between.Arena.{node_expr};
ghost use Rattle.kc_expr.specs.Expr.{symbol_tri};
ghost use Rattle.kc_expr.specs.Lookup.{symbol_value_of};
ghost use Rattle.kc_rules_model.specs.SymbolValues.{value_of_symbol, tri_of, text_of, member_of, tri_if_selected, condition, tri_symbol_value};
ghost use Rattle.kc_rules_model.specs.Rule.{expression_text, modules_value};
ghost use Rattle.kc_evaluation.specs.checker.SymbolValueViews.{symbol_value_at};
ghost use Rattle.kc_evaluation.specs.checker.ValuationView.{valuation_tree, valuation_exprs, valuation_values};

use super::valuation::Valuation;
use kc_expr::{ExprId, Looked, Lookup, NameId, Operand};
use kc_rules_model::UnitValue;
use kc_tree::Sym;
use kc_value::{Kind, Tri};

/// Whether the first is below the second.
pub fn is_below(a: Tri, b: Tri) -> bool
    ensures { result ≡ nat_lt (rank a) (rank b) }
{
    match (a, b) {
        (Tri::N, Tri::N) => false,
        (Tri::N, Tri::M) => true,
        (Tri::N, Tri::Y) => true,
        (Tri::M, Tri::N) => false,
        (Tri::M, Tri::M) => false,
        (Tri::M, Tri::Y) => true,
        (Tri::Y, Tri::N) => false,
        (Tri::Y, Tri::M) => false,
        (Tri::Y, Tri::Y) => false,
    }
}

/// The tristate that a unit's value is, and `n` where it is no tristate.
fn tri_of_value(held: Option<&UnitValue>) -> Tri
    ensures { result ≡ tri_of (option_copied held.entry) }
{
    match held {
        Some(UnitValue::Tri(t)) => *t,
        _ => Tri::N,
    }
}

/// The text that a unit's value is, and an empty text where it is none.
fn text_of_value<'a>(held: Option<&'a UnitValue>) -> &'a str
    ensures { result.now ≡ text_of (option_copied held.entry) }
{
    match held {
        Some(UnitValue::Text(text)) => text.as_str(),
        _ => "",
    }
}

/// `y` where a unit's value is this symbol as the selected member of a choice, otherwise `n`.
fn tri_if_member(held: Option<&UnitValue>, s: Sym) -> Tri
    ensures { result ≡ tri_if_selected s (member_of (option_copied held.entry)) }
{
    match held {
        Some(UnitValue::Member(Some(member))) => {
            if member.number() == s.number() {
                Tri::Y
            } else {
                Tri::N
            }
        }
        _ => Tri::N,
    }
}

/// Whether a unit has no selected member: it has no value, a value of another shape, or that of a choice without a selection.
pub fn has_no_member(held: Option<&UnitValue>) -> bool
    ensures { result ≡ is_none (member_of (option_copied held.entry)) }
{
    !matches!(held, Some(UnitValue::Member(Some(_))))
}

/// A tristate, and its letter.
fn tri_value_ref(kind: Kind, tri: Tri) -> Looked<'static>
    ensures { symbol_value_of result ≡ tri_symbol_value kind tri }
{
    Looked {
        kind,
        tri,
        text: tri.letter(),
    }
}

impl<'a> Valuation<'a> {
    /// The value of a symbol under the values of the units: its type, its tristate value and its text.
    pub fn symbol(&self, s: Sym) -> Looked<'a>
        requires there { s < length (valuation_tree self.now).symbols }
        ensures value { value_of_symbol (valuation_tree self.now) (valuation_values self.now) s ≡ Some (symbol_value_of result) }
    {
        let symbol = self.rules.tree.symbol(s);
        let held = self.values.get(symbol.unit as usize);
        if symbol.choice.is_some() {
            return tri_value_ref(symbol.kind, tri_if_member(held, s));
        }
        match symbol.kind {
            Kind::Bool | Kind::Tristate => tri_value_ref(symbol.kind, tri_of_value(held)),
            Kind::Text | Kind::Int | Kind::Hex => Looked {
                kind: symbol.kind,
                tri: Tri::N,
                text: text_of_value(held),
            },
        }
    }

    /// The value of a symbol as a tristate, `n` where it has another type.
    pub(crate) fn tristate(&self, s: Sym) -> Tri
        requires there { s < length (valuation_tree self.now).symbols }
        ensures value { result ≡ symbol_tri (value_of_symbol (valuation_tree self.now) (valuation_values self.now) s) }
    {
        let seen = self.symbol(s);
        match seen.kind {
            Kind::Bool | Kind::Tristate => seen.tri,
            Kind::Text | Kind::Int | Kind::Hex => Tri::N,
        }
    }

    /// The value of the symbol `MODULES`, `n` where it isn't defined.
    pub fn modules(&self) -> Tri
        ensures { result ≡ modules_value (valuation_tree self.now) (valuation_values self.now) }
    {
        match self.rules.modules {
            None => Tri::N,
            Some(s) => self.tristate(s),
        }
    }

    /// The value of an expression of the tree's arena under the values of the units.
    pub fn condition(&self, id: ExprId) -> Tri
        requires there { id < length (valuation_exprs self.now).nodes }
        ensures value { result ≡ condition (valuation_tree self.now) (valuation_values self.now) (node_expr (valuation_exprs self.now) id) }
    {
        self.rules.tree.arena().value(id, self)
    }

    /// The text that an operand represents: of a defined symbol its value, of an undefined one its name, of a constant its text.
    /// It is empty for an expression that isn't an operand alone.
    pub(crate) fn operand_text(&self, id: ExprId) -> &str
        requires there { id < length (valuation_exprs self.now).nodes }
        ensures value { result.now ≡ expression_text (valuation_tree self.now) (valuation_values self.now) (node_expr (valuation_exprs self.now) id) }
    {
        let arena = self.rules.tree.arena();
        match &arena.operand(id) {
            None => "",
            Some(Operand::Tri(t)) => t.letter(),
            Some(Operand::Quoted(text)) => *text,
            Some(Operand::Name(name)) => match self.look(*name) {
                None => arena.name(*name),
                Some(seen) => seen.text,
            },
        }
    }
}

impl Lookup for Valuation<'_> {
    ghost symbol_values = { λ u i. symbol_value_at (valuation_tree u) (valuation_values u) (valuation_exprs u).names i };

    fn look(&self, name: NameId) -> Option<Looked<'_>> {
        let s = self.rules.tree.symbol_at(name)?;
        Some(self.symbol(s))
    }
}
