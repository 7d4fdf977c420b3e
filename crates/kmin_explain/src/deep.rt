//! The symbols with which `explain --deep` goes on.
ghost use Rattle.std.specs.Prelude.{◌≡◌, ◌<◌, List, All, length, IfOk, OnOk};
ghost use Rattle.kc_tree_model.specs.Blocks.{Group};
ghost use Rattle.kc_dotconfig_model.specs.ConfigLines.{LineMeaning};
ghost use Rattle.kc_config.specs.ConfigStates.{tree_in};
ghost use Rattle.kmin_explain.specs.Names.{each_once_after};
ghost use Rattle.kmin_explain.specs.Deep.{next_of, AreDeep};
ghost use Rattle.kmin_explain.specs.between.Sources.{config_of, sources_model};
ghost use Rattle.kmin_explain.specs.checker.Marks.{AreMarked};

use super::blame::add_all_blamed;
use super::each_once::SymbolsOnce;
use super::sources::Sources;
use kc_config_reasons::{reasons_in, valuation};
use kc_tree::Sym;
use std::alloc::AllocError;

/// Adds the symbols to go on with from symbol `s`.
fn add_next(by: &Sources<'_>, s: Sym, seen: &mut SymbolsOnce) -> Result<(), AllocError>
    requires there { s < length (tree_in (config_of by.now)).symbols }
    requires marks { AreMarked seen.old }
    requires many { length seen.old.is_found.items ≡ length (tree_in (config_of by.now)).symbols }
    ensures found { (read : List Group) (meanings : List (List LineMeaning)) → OnOk result (seen.new.found.items ≡ each_once_after seen.old.found.items (next_of (sources_model by.now read meanings) s)) }
    ensures marks { OnOk result (AreMarked seen.new) }
    ensures many { OnOk result (length seen.new.is_found.items ≡ length (tree_in (config_of by.now)).symbols) }
{
    let reasons = reasons_in(by.alloc, by.config, s)?;
    let under = &valuation(by.config);
    add_all_blamed(by.alloc, under, &reasons.needs, seen)?;
    add_all_blamed(by.alloc, under, &reasons.unmet, seen)
}

/// The symbols that are explained with `--deep`: these, then those whose values keep each of them in turn too low, each once. An
/// `Err` means out of memory.
pub fn deep_symbols(by: &Sources<'_>, symbols: &[Sym]) -> Result<Vec<Sym>, AllocError>
    requires there { All (λ s. s < length (tree_in (config_of by.now)).symbols) symbols.now }
    ensures deep { (read : List Group) (meanings : List (List LineMeaning)) → IfOk result (λ found. AreDeep (sources_model by.now read meanings) symbols.now found.items) }
    ensures there { IfOk result (λ found. All (λ s. s < length (tree_in (config_of by.now)).symbols) found.items) }
{
    let mut seen = SymbolsOnce::new(by.alloc, by.config.settled().tree().symbol_count())?;
    seen.add_all(symbols)?;
    let mut i = 0;
    while i < seen.found.len() {
        add_next(by, seen.found[i], &mut seen)?;
        i += 1;
    }
    let SymbolsOnce { found, .. } = seen;
    Ok(found)
}
