//! Checks on attributes of files that were read without a fault.
ghost use Rattle.std.specs.Prelude.{◌≡◌, ℕ, All, List, Some, false, bytes_eq, length, map, slice_get};
ghost use Rattle.kc_expr.specs.Expr.{modules as modules_name};
ghost use Rattle.kc_tree_model.specs.Blocks.{Group as ModelGroup};
ghost use Rattle.kc_tree_model.specs.Contents.{contents_of};
ghost use Rattle.kc_tree_model.specs.Limits.{names_defined};
ghost use Rattle.kc_tree_model.specs.TreeFaults.{attribute_faults, choice_faults, faults_of_lines};
ghost use Rattle.kc_statements.specs.between.StatementViews.{attribute_in, AttributeNodesExist};
ghost use Rattle.kc_parser.specs.between.ListingView.{RepresentsListing, line_in, LineNodesExist};
ghost use Rattle.kc_checks.specs.checker.Marks.{AreMarked};
ghost use Rattle.kc_checks.specs.between.Summaries.{AreSymbolSummaries, IsRepresented};

use super::fault_kinds::{choice_attribute_kind, typed_attribute_fault};
use super::name_checks::{is_wrong_reverse_dependency, names_member};
use super::summary::SymbolSummary;
use kc_parser::{Line, Listing};
use kc_statements::ReadAttribute;
use kc_tree_model::{TreeFault, TreeKind};
use kc_value::Kind;

/// The fault of an attribute of a symbol of type `kind`, or `None`; `prompted` is set if a prompt precedes it.
fn symbol_attribute_fault(
    listing: &Listing,
    symbols: &[SymbolSummary],
    kind: Option<Kind>,
    is_modules: bool,
    prompted: bool,
    attribute: &ReadAttribute,
) -> Option<TreeKind>
    requires shown { IsRepresented listing.now }
    requires symbols { AreSymbolSummaries listing.now symbols.now }
    requires held { AttributeNodesExist listing.now.names.arena attribute.now }
    ensures fault { (read : List ModelGroup) (name : List ℕ) → RepresentsListing listing.now read → is_modules ≡ bytes_eq name modules_name
        → result ≡ slice_get (attribute_faults (contents_of read) name kind prompted (attribute_in listing.now.names.arena attribute.now)) 0 }
{
    match kind {
        Some(kind) => {
            let is_wrong = is_wrong_reverse_dependency(listing, symbols, kind, attribute);
            typed_attribute_fault(kind, prompted, is_modules, is_wrong, attribute)
        }
        None if prompted && attribute.is_prompt() => Some(TreeKind::SecondPrompt),
        None => None,
    }
}

/// The first fault of the attribute lines of one definition; `kind` is its symbol's type, `file` the number of its file.
pub(crate) fn first_symbol_fault(
    listing: &Listing,
    symbols: &[SymbolSummary],
    kind: Option<Kind>,
    is_modules: bool,
    file: u32,
    lines: &[Line],
) -> Option<TreeFault>
    requires shown { IsRepresented listing.now }
    requires symbols { AreSymbolSummaries listing.now symbols.now }
    requires held { All (LineNodesExist listing.now.names.arena) lines.now }
    ensures fault { (read : List ModelGroup) (g : ModelGroup) (name : List ℕ) → RepresentsListing listing.now read → is_modules ≡ bytes_eq name modules_name → g.at.file ≡ file
        → result ≡ slice_get (faults_of_lines g (attribute_faults (contents_of read) name kind) false (map (line_in listing.now.names.arena) lines.now)) 0 }
{
    let mut prompted = false;
    for i in 0..lines.len() {
        let line = &lines[i];
        let fault = symbol_attribute_fault(
            listing,
            symbols,
            kind,
            is_modules,
            prompted,
            &line.attribute,
        );
        if let Some(kind) = fault {
            return Some(TreeFault::at_line(file, line.number, kind));
        }
        prompted = prompted || line.attribute.is_prompt();
    }
    None
}

/// The fault of an attribute of a choice, whose members have `mark` in `marks`, or `None`.
fn choice_attribute_fault(
    listing: &Listing,
    marks: &[u32],
    mark: u32,
    prompted: bool,
    attribute: &ReadAttribute,
) -> Option<TreeKind>
    requires shown { IsRepresented listing.now }
    requires many { length marks.now ≡ length listing.now.names.symbols.items }
    requires held { AttributeNodesExist listing.now.names.arena attribute.now }
    ensures fault { (read : List ModelGroup) (members : List (List ℕ)) → RepresentsListing listing.now read → AreMarked (names_defined read) members marks.now mark
        → result ≡ slice_get (choice_faults members prompted (attribute_in listing.now.names.arena attribute.now)) 0 }
{
    let is_no_member = match attribute.default_given() {
        Some(valued) => !names_member(listing, marks, mark, &valued),
        None => false,
    };
    choice_attribute_kind(prompted, is_no_member, attribute)
}

/// The first fault of the attribute lines of a choice, whose members have `mark` in `marks`; `file` is the number of its file.
pub(crate) fn first_choice_fault(
    listing: &Listing,
    marks: &[u32],
    mark: u32,
    file: u32,
    lines: &[Line],
) -> Option<TreeFault>
    requires shown { IsRepresented listing.now }
    requires many { length marks.now ≡ length listing.now.names.symbols.items }
    requires held { All (LineNodesExist listing.now.names.arena) lines.now }
    ensures fault { (read : List ModelGroup) (g : ModelGroup) (members : List (List ℕ)) → RepresentsListing listing.now read → AreMarked (names_defined read) members marks.now mark → g.at.file ≡ file
        → result ≡ slice_get (faults_of_lines g (choice_faults members) false (map (line_in listing.now.names.arena) lines.now)) 0 }
{
    let mut prompted = false;
    for i in 0..lines.len() {
        let line = &lines[i];
        if let Some(kind) = choice_attribute_fault(
            listing,
            marks,
            mark,
            prompted,
            &line.attribute,
        ) {
            return Some(TreeFault::at_line(file, line.number, kind));
        }
        prompted = prompted || line.attribute.is_prompt();
    }
    None
}
