//! What keeps a symbol from the value that a file assigns.
ghost use Rattle.std.specs.Prelude.{◌≡◌, ◌<◌, ◌++◌, List, length, OnOk};
ghost use Rattle.kc_tree_model.specs.Blocks.{Group};
ghost use Rattle.kc_dotconfig_model.specs.ConfigLines.{LineMeaning};
ghost use Rattle.kc_config.specs.ConfigStates.{tree_in};
ghost use Rattle.kmin_missed.specs.MissedLines.{cause_at};
ghost use Rattle.kmin_explain.specs.between.Sources.{config_of, AreReadSources, AreSourcesOf, sources_model};

use crate::one_line::push_in_one_line;
use kc_config_reasons::valuation;
use kc_explanation::{push_value_of, push_why};
use kc_tree::Sym;
use kmin_explain::{Sources, explained_symbol, push_details};
use std::alloc::AllocError;

/// Appends what keeps symbol `s` from its assigned value: the value, why the line isn't taken, and what `explain` says below that.
pub(crate) fn push_cause(out: &mut Vec<u8>, by: &Sources<'_>, s: Sym) -> Result<(), AllocError>
    requires read { AreReadSources by.now }
    requires there { s < length (tree_in (config_of by.now)).symbols }
    ensures { (read : List Group) (meanings : List (List LineMeaning)) → AreSourcesOf by.now read meanings → OnOk result (out.new.items ≡ out.old.items ++ cause_at (sources_model by.now read meanings) s) }
{
    let found = explained_symbol(by, false, s)?;
    let reasons = &found.reasons;
    let mut details = Vec::new(by.alloc);
    push_details(&mut details, by, &found)?;
    push_value_of(out, &valuation(by.config), by.strings, s)?;
    out.extend_from_slice(b": ")?;
    push_why(out, reasons.hindrance)?;
    push_in_one_line(out, b"; ", &details)
}
