//! Parts of the text that explains a symbol's value.
ghost use Rattle.std.specs.Prelude.{◌≡◌, ◌++◌, ◌&&◌, OnOk};
ghost use Rattle.kc_expr.specs.between.Arena.{Exprs};
ghost use Rattle.kc_tree.specs.between.Views.{symbol_view};
ghost use Rattle.kc_evaluation.specs.checker.ValuationView.{valuation_tree};
ghost use Rattle.kc_reasons_model.specs.Reasons.{name_of_symbol};
ghost use Rattle.kc_explanation.specs.Explained.{case_text, chosen_text, is_hidden, is_without_prompt};

use super::words::{given_text, lifted_text};
use kc_evaluation::Valuation;
use kc_reasons::{Case, Hindrance};
use kc_tree::{Sym, Symbol};
use std::alloc::AllocError;

/// Appends what gives a unit its value.
#[tactic(auto, using(crate::proofs::CaseTexts::case_text_is))]
pub(crate) fn push_case(out: &mut Vec<u8>, case: Case) -> Result<(), AllocError>
    ensures { OnOk result (out.new.items ≡ out.old.items ++ case_text case) }
{
    out.extend_from_slice(given_text(case).as_bytes())?;
    out.extend_from_slice(lifted_text(case).as_bytes())
}

/// The name of a symbol; empty where the tree has no such symbol.
pub fn name_of<'a>(under: &Valuation<'a>, s: Sym) -> &'a str
    ensures { result.now ≡ name_of_symbol (valuation_tree under.now) s }
{
    if s.number() < under.rules.tree.symbol_count() {
        under.rules.tree.name(s)
    } else {
        ""
    }
}

/// Appends that another member of the choice is selected, if one is.
pub(crate) fn push_chosen(
    out: &mut Vec<u8>,
    under: &Valuation<'_>,
    chosen: Option<Sym>,
) -> Result<(), AllocError>
    ensures { OnOk result (out.new.items ≡ out.old.items ++ chosen_text (valuation_tree under.now) chosen) }
{
    match chosen {
        None => out.extend_from_slice(b""),
        Some(m) => {
            out.extend_from_slice(name_of(under, m).as_bytes())?;
            out.extend_from_slice(b" is y, ")
        }
    }
}

/// Whether a hindrance is a missing visibility.
fn is_hidden(hindrance: Option<Hindrance>) -> bool
    ensures { result ≡ is_hidden hindrance }
{
    matches!(hindrance, Some(Hindrance::Hidden | Hindrance::MemberHidden))
}

/// Whether a hindrance is a missing visibility, for want of a prompt of this symbol.
pub fn is_without_prompt(hindrance: Option<Hindrance>, symbol: &Symbol<'_>) -> bool
    ensures { (exprs : Exprs) → result ≡ is_without_prompt hindrance (symbol_view exprs symbol.now) }
{
    is_hidden(hindrance) && symbol.prompts.len() == 0
}
