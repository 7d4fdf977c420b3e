//! Names in `select`, `imply` and the defaults of choices.
ghost use Rattle.std.specs.Prelude.{◌≡◌, ◌<◌, ℕ, List, is_some, length};
ghost use Rattle.kc_tree_model.specs.Blocks.{Group as ModelGroup};
ghost use Rattle.kc_tree_model.specs.Contents.{contents_of, member_named};
ghost use Rattle.kc_tree_model.specs.Limits.{names_defined};
ghost use Rattle.kc_tree_model.specs.TreeFaults.{is_selectable as selectable, is_wrong_reverse_dependency as wrong};
ghost use Rattle.kc_expr.specs.Lookup.{index_of_name};
ghost use Rattle.kc_statements.specs.between.StatementViews.{attribute_in, AttributeNodesExist, default_in, DefaultNodesExist};
ghost use Rattle.kc_parser.specs.between.ListingView.{RepresentsListing};
ghost use Rattle.kc_checks.specs.between.Summaries.{AreSymbolSummaries, IsRepresented};
ghost use Rattle.kc_checks.specs.checker.Marks.{AreMarked};

use super::summary::SymbolSummary;
use kc_parser::Listing;
use kc_statements::{ReadAttribute, ReadDefault};
use kc_tree::is_tri_kind;
use kc_value::Kind;

/// The number of the symbol of a name, if an entry defines it.
fn symbol_number_of_name(listing: &Listing, name: &str) -> Option<u32>
    ensures { (read : List ModelGroup) → RepresentsListing listing.now read → result ≡ index_of_name name.now (names_defined read) }
{
    listing.names.number_of(name)
}

/// Whether a symbol of that name may be selected: it is a bool or tristate, has no type, or isn't defined.
fn is_selectable(listing: &Listing, symbols: &[SymbolSummary], name: &str) -> bool
    requires shown { IsRepresented listing.now }
    requires symbols { AreSymbolSummaries listing.now symbols.now }
    ensures value { (read : List ModelGroup) → RepresentsListing listing.now read → result ≡ selectable (contents_of read) name.now }
{
    match symbol_number_of_name(listing, name) {
        Some(s) => match symbols[s as usize].kind() {
            Some(kind) => is_tri_kind(kind),
            None => true,
        },
        None => true,
    }
}

/// Whether an attribute selects or implies wrongly: its symbol, which has the type `kind`, or its target has a type that is
/// neither bool nor tristate.
pub(crate) fn is_wrong_reverse_dependency(
    listing: &Listing,
    symbols: &[SymbolSummary],
    kind: Kind,
    attribute: &ReadAttribute,
) -> bool
    requires shown { IsRepresented listing.now }
    requires symbols { AreSymbolSummaries listing.now symbols.now }
    requires held { AttributeNodesExist listing.now.names.arena attribute.now }
    ensures value { (read : List ModelGroup) → RepresentsListing listing.now read → result ≡ wrong (contents_of read) kind (attribute_in listing.now.names.arena attribute.now) }
{
    match attribute.target_name() {
        Some(name) => {
            !is_tri_kind(kind) || !is_selectable(listing, symbols, listing.names.arena.name(name))
        }
        None => false,
    }
}

/// Whether a default of a choice is the bare name of one of the choice's members, which have `mark` in `marks`.
pub(crate) fn names_member(
    listing: &Listing,
    marks: &[u32],
    mark: u32,
    valued: &ReadDefault,
) -> bool
    requires shown { IsRepresented listing.now }
    requires many { length marks.now ≡ length listing.now.names.symbols.items }
    requires held { DefaultNodesExist listing.now.names.arena valued.now }
    ensures value { (read : List ModelGroup) (members : List (List ℕ)) → RepresentsListing listing.now read → AreMarked (names_defined read) members marks.now mark
        → result ≡ is_some (member_named members (default_in listing.now.names.arena valued.now)) }
{
    if !valued.single {
        return false;
    }
    let Some(name) = listing.names.arena.bare_name(valued.value) else {
        return false;
    };
    match symbol_number_of_name(listing, listing.names.arena.name(name)) {
        Some(s) => marks[s as usize] == mark,
        None => false,
    }
}
