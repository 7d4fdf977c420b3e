//! Tests of whether a user value fits a unit.
ghost use Rattle.std.specs.Prelude.{◌≡◌, ◌<◌, length, slice_get};
ghost use Rattle.std.specs.List.{list_all};
ghost use Rattle.kc_tree_model.specs.TreeLookup.{IsConsistent};
ghost use Rattle.kc_rules_model.specs.Shapes.{tri_fits, user_text_fits, is_member, choice_user_fits, user_fits};
ghost use Rattle.kc_rules.specs.between.SettledViews.{tree_of_settled};
ghost use Rattle.kc_rules.specs.checker.Fits.{kind_user_fits};

use super::rules::Settled;
use kc_evaluation::number_of;
use kc_rules_model::{MemberLine, UserValue};
use kc_tree::{Sym, Tree, Unit};
use kc_value::{Kind, Text, Tri, has_newline};

/// Whether a tristate fits a type: any fits a tristate, all but `m` a bool, none another type.
fn is_tri_fit(kind: Kind, value: Tri) -> bool
    ensures { result ≡ tri_fits kind value }
{
    match kind {
        Kind::Bool => !matches!(value, Tri::M),
        Kind::Tristate => true,
        _ => false,
    }
}

/// A string is of one line, and an int or hex is a number of its type.
#[tactic(auto, using(crate::proofs::UserFits::line_is))]
fn is_text_fit(kind: Kind, text: &Text) -> bool
    ensures { result ≡ user_text_fits kind text.now }
{
    match kind {
        Kind::Text => !has_newline(text.as_str().as_bytes()),
        Kind::Bool => false,
        Kind::Tristate => false,
        Kind::Int => number_of(kind, text.as_str()).is_some(),
        Kind::Hex => number_of(kind, text.as_str()).is_some(),
    }
}

/// A tristate for a bool or tristate, a text for the other types.
fn is_kind_fit(kind: Kind, value: &UserValue) -> bool
    ensures { result ≡ kind_user_fits kind value.now }
{
    match value {
        UserValue::Tri(t) => is_tri_fit(kind, *t),
        UserValue::Text(text) => is_text_fit(kind, text),
        UserValue::Member(_) => false,
        UserValue::Lines(_) => false,
    }
}

/// Whether a symbol is a member of a choice.
fn is_member(tree: &Tree, c: u32, s: Sym) -> bool
    requires consistent { IsConsistent tree.now.tree }
    ensures value { result ≡ is_member (slice_get tree.now.tree.choices c) s }
{
    if s.number() >= tree.symbol_count() {
        return false;
    }
    match tree.symbol(s).choice {
        None => false,
        Some(choice) => choice == c,
    }
}

/// Whether something is assigned to members of a choice alone.
fn are_lines_fit(tree: &Tree, c: u32, lines: &[MemberLine]) -> bool
    requires consistent { IsConsistent tree.now.tree }
    ensures value { result ≡ list_all (λ l. is_member (slice_get tree.now.tree.choices c) l.member) lines.now }
{
    for line in lines {
        if !is_member(tree, c, line.member) {
            return false;
        }
    }
    true
}

/// A member for a choice; under the rules of Linux 6.12 assignments of its members.
fn is_choice_fit(tree: &Tree, c: u32, value: &UserValue) -> bool
    requires consistent { IsConsistent tree.now.tree }
    ensures value { result ≡ choice_user_fits tree.now.tree.language (slice_get tree.now.tree.choices c) value.now }
{
    match value {
        UserValue::Tri(_) => false,
        UserValue::Text(_) => false,
        UserValue::Member(s) => !tree.language().is_linux_6_12() && is_member(tree, c, *s),
        UserValue::Lines(lines) => {
            tree.language().is_linux_6_12() && are_lines_fit(tree, c, lines.as_slice())
        }
    }
}

impl Settled {
    /// Whether a user value has the shape of a unit: `n` or `y` for a bool, any tristate for a tristate, a text that is a number
    /// of its type for an int or hex, a text without newline for a string, one of its members for a choice, or under the rules of
    /// Linux 6.12 assignments of its members. Takes no memory.
    pub fn user_fits(&self, u: u32, value: &UserValue) -> bool
        requires there { u < length (tree_of_settled self.now).units }
        ensures value { result ≡ user_fits (tree_of_settled self.now) u value.now }
    {
        let _ = self.rules.tree.arena();
        match self.rules.tree.unit(u) {
            Unit::Symbol(s) => is_kind_fit(self.rules.tree.symbol(s).kind, value),
            Unit::Choice(c) => is_choice_fit(&self.rules.tree, c, value),
        }
    }
}
