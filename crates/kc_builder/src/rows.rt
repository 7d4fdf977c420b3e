//! The rows of symbols.
ghost use Rattle.std.specs.Prelude.{◌≡◌, List, IfOk};
ghost use Rattle.kc_tree_model.specs.Blocks.{Group as ModelGroup};
ghost use Rattle.kc_tree_model.specs.Contents.{contents_of};
ghost use Rattle.kc_tree_model.specs.Limits.{names_defined};
ghost use Rattle.kc_parser.specs.between.ListingView.{RepresentsListing};
ghost use Rattle.kc_builder.specs.checker.Rows.{place_of_group_number, row_of_symbol, AreRowsOf};
ghost use Rattle.kc_checks.specs.between.Summaries.{AreSymbolSummaries, IsRepresented};

use kc_checks::SymbolSummary;
use kc_expr::NameId;
use kc_parser::{Group, Listing};
use kc_tree::{SymbolRow, kind_in_tree};
use std::alloc::{AllocError, Global};

/// The file and the line of the group of that number.
fn place_of(groups: &[Group], number: Option<u32>) -> (u32, u32)
    ensures { result ≡ place_of_group_number groups.now number }
{
    let Some(number) = number else {
        return (0, 0);
    };
    match groups.get(number as usize) {
        Some(group) => (group.file, group.line),
        None => (0, 0),
    }
}

/// The row of a symbol of that name.
fn row_of(groups: &[Group], name: NameId, symbol_summary: &SymbolSummary) -> SymbolRow
    ensures { result ≡ row_of_symbol groups.now name symbol_summary.now }
{
    let (file, line) = place_of(groups, symbol_summary.first);
    SymbolRow {
        name,
        kind: kind_in_tree(symbol_summary.choice, symbol_summary.given),
        file,
        line,
        choice: symbol_summary.choice,
    }
}

/// The stored rows of all symbols of a listing, in order of their numbers. An `Err` means out of memory.
pub(crate) fn symbol_rows(
    alloc: Global,
    listing: &Listing,
    symbols: &[SymbolSummary],
) -> Result<Vec<SymbolRow>, AllocError>
    requires shown { IsRepresented listing.now }
    requires symbols { AreSymbolSummaries listing.now symbols.now }
    ensures ok { (read : List ModelGroup) → RepresentsListing listing.now read → IfOk result (λ rows. AreRowsOf listing.now.names.arena (contents_of read) (names_defined read) rows.items) }
{
    let names = listing.names.symbols.as_slice();
    let groups = listing.groups.as_slice();
    let mut rows = Vec::with_capacity(alloc, names.len())?;
    for s in 0..names.len() {
        rows.push(row_of(groups, names[s], &symbols[s]))?;
    }
    Ok(rows)
}
