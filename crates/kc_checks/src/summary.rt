//! Summaries of symbols and choices, before conditions are joined.
ghost use Rattle.std.specs.Prelude.{◌≡◌, ◌<◌, ◌+◌, ◌^◌, ◌++◌, List, IfOk, OnOk, Some, None, is_none, is_some, length, filter_map, option_to_list, slice_get, if◌then◌else◌};
ghost use Rattle.kc_expr.specs.between.Arena.{Exprs};
ghost use Rattle.kc_tree_model.specs.Blocks.{Group as ModelGroup};
ghost use Rattle.kc_tree_model.specs.TreeFaults.{kind_or_bool};
ghost use Rattle.kc_tree_model.specs.declared.ids.Unit.TheVariants.{Symbol as of_symbol};
ghost use Rattle.kc_parser.specs.between.ListingView.{RepresentsListing};
ghost use Rattle.kc_checks.specs.between.Summaries.{first_is, first_summary, type_in, IsRepresented, IsSummary};
ghost use Rattle.kc_checks.specs.checker.SummarySteps.{HasDefined, HasMember, IsSummedTo};

use super::group_lines::lines_of;
use kc_parser::{GroupHead, Line, Listing};
use kc_tree::ItemsWithKeys;
use kc_tree_model::{Sym, Unit};
use kc_value::Kind;
use std::alloc::{AllocError, Global};

/// A summary of all definitions of a symbol: the group number of the first one, the type that is given first, and the number of
/// the first choice that the symbol is a member of.
#[derive(Clone, Copy)]
pub struct SymbolSummary {
    pub first: Option<u32>,
    pub given: Option<Kind>,
    pub choice: Option<u32>,
}

impl SymbolSummary {
    /// The type of the symbol: the one given first, or bool for a choice member without one; `None` if it has none.
    pub fn kind(&self) -> Option<Kind>
        ensures { result ≡ kind_or_bool self.now.given (is_some self.now.choice) }
    {
        match self.given {
            Some(kind) => Some(kind),
            None => match self.choice {
                Some(_) => Some(Kind::Bool),
                None => None,
            },
        }
    }

    /// Two summaries of a symbol as one: each value is `self`'s, or `other`'s where `self` has none.
    fn or(self, other: SymbolSummary) -> SymbolSummary
        ensures { result ≡ first_summary self other }
    {
        SymbolSummary {
            first: self.first.or(other.first),
            given: self.given.or(other.given),
            choice: self.choice.or(other.choice),
        }
    }
}

/// A summary of a listing: the summary of each symbol, the number of choices, the members of choices, each under the number of its
/// choice, by all definitions (`members`) and by first ones alone (`own_members`), and the units, each where it begins: a choice, or
/// a symbol that is first defined outside choices.
#[derive(Drop)]
pub struct Summary {
    pub symbols: Vec<SymbolSummary>,
    pub choices: u32,
    pub members: ItemsWithKeys<Sym>,
    pub own_members: ItemsWithKeys<Sym>,
    pub units: Vec<Unit>,
}

/// The first type that attribute lines give, or `None`.
fn first_type(lines: &[Line]) -> Option<Kind>
    ensures { (e : Exprs) → result ≡ slice_get (filter_map (type_in e) lines.now) 0 }
{
    for i in 0..lines.len() {
        if let Some(kind) = lines[i].attribute.type_given() {
            return Some(kind);
        }
    }
    None
}

/// Whether the group of a number is the first definition of a symbol, by the number of that.
pub(crate) fn is_first(first: Option<u32>, i: usize) -> bool
    ensures { result ≡ first_is first i }
{
    match first {
        Some(first) => first as usize == i,
        None => false,
    }
}

/// Appends a symbol under the number of a choice, if there is a choice.
fn push_member(
    members: &mut ItemsWithKeys<Sym>,
    choice: Option<u32>,
    symbol: Sym,
) -> Result<(), AllocError>
    ensures { OnOk result (HasMember choice symbol members.old members.new) }
{
    match choice {
        Some(choice) => members.push(choice, symbol),
        None => Ok(()),
    }
}

/// Appends a symbol where it is defined first: to the members of the choice that the definition is in, or else to the units.
fn push_first(
    own_members: &mut ItemsWithKeys<Sym>,
    units: &mut Vec<Unit>,
    choice: Option<u32>,
    symbol: Sym,
) -> Result<(), AllocError>
    ensures members { OnOk result (HasMember choice symbol own_members.old own_members.new) }
    ensures units { OnOk result (units.new.items ≡ units.old.items ++ option_to_list (if is_none choice then Some (of_symbol symbol) else None)) }
{
    match choice {
        Some(choice) => own_members.push(choice, symbol),
        None => {
            units.push(Unit::Symbol(symbol))?;
            Ok(())
        }
    }
}

impl Summary {
    /// The summary of no group, with capacity for those of a listing. An `Err` means out of memory.
    fn empty(alloc: Global, listing: &Listing) -> Result<Summary, AllocError>
        ensures { IfOk result (IsSummedTo listing.now 0) }
    {
        let nothing = SymbolSummary {
            first: None,
            given: None,
            choice: None,
        };
        let symbols = vec![in alloc; nothing; listing.names.symbols.len()]?;
        let units = Vec::with_capacity(alloc, listing.groups.len())?;
        Ok(Summary {
            symbols,
            choices: 0,
            members: ItemsWithKeys::new(alloc),
            own_members: ItemsWithKeys::new(alloc),
            units,
        })
    }

    /// Adds a definition of a symbol, by the summary that it alone gives. An `Err` means out of memory.
    fn define(&mut self, s: u32, here: SymbolSummary) -> Result<(), AllocError>
        requires there { s < length self.old.symbols.items }
        ensures ok { OnOk result (HasDefined s here self.old self.new) }
    {
        let symbol_summary = self.symbols[s as usize];
        self.symbols[s as usize] = symbol_summary.or(here);
        let symbol = Sym::at(s);
        push_member(&mut self.members, here.choice, symbol)?;
        if symbol_summary.first.is_some() {
            return Ok(());
        }
        push_first(&mut self.own_members, &mut self.units, here.choice, symbol)
    }

    /// Adds the group of this number. An `Err` means out of memory.
    fn add_group(&mut self, listing: &Listing, i: usize) -> Result<(), AllocError>
        requires shown { IsRepresented listing.now }
        requires few { length listing.now.groups.items < 2 ^ 32 }
        requires here { i < length listing.now.groups.items }
        requires summed { IsSummedTo listing.now i self.old }
        ensures summed { OnOk result (IsSummedTo listing.now (i + 1) self.new) }
    {
        let group = &listing.groups[i];
        match group.head {
            GroupHead::Config(s) => {
                let given = first_type(lines_of(listing, i));
                let here = SymbolSummary {
                    first: Some(i as u32),
                    given,
                    choice: group.choice,
                };
                self.define(s, here)?;
                Ok(())
            }
            GroupHead::Choice => {
                self.units.push(Unit::Choice(self.choices))?;
                self.choices += 1;
                Ok(())
            }
            _ => Ok(()),
        }
    }

    /// The summary of a listing. An `Err` means out of memory, or 2^32 statements or more.
    pub fn new(alloc: Global, listing: &Listing) -> Result<Summary, AllocError>
        requires shown { IsRepresented listing.now }
        ensures summary { (read : List ModelGroup) → RepresentsListing listing.now read → IfOk result (IsSummary read) }
        ensures few { IfOk result (λ s. length listing.now.groups.items < 2 ^ 32) }
    {
        if listing.groups.len() > u32::MAX as usize {
            return Err(AllocError);
        }
        let mut summary = Summary::empty(alloc, listing)?;
        for i in 0..listing.groups.len() {
            summary.add_group(listing, i)?;
        }
        Ok(summary)
    }
}
