//! The places of selects and implies by their targets, and the definitions of each symbol.
ghost use Rattle.std.specs.Prelude.{◌≡◌, ◌++◌, ◌<◌, ◌^◌, ℕ, List, length, IfOk, IfSome, OnOk};
ghost use Rattle.kc_expr.specs.between.Arena.{Exprs};
ghost use Rattle.kc_tree_model.specs.Blocks.{Group as ModelGroup};
ghost use Rattle.kc_tree_model.specs.Contents.{tree_of_groups};
ghost use Rattle.kc_builder.specs.between.TreeLines.{HasLines};
ghost use Rattle.kc_symbol_lines.specs.checker.Reads.{IsRead};
ghost use Rattle.kc_symbol_lines.specs.checker.Targets.{target_symbol, target_keys, target_places, HasDefinition, AreGathered};

use super::contexts::lines_at;
use super::located::Position;
use kc_builder::TreeLines;
use kc_parser::{GroupHead, Line};
use kc_statements::ReadAttribute;
use kc_tree::{ItemsWithKeys, Tree};
use kc_tree_model::{ReverseKind, Sym};
use std::alloc::{AllocError, Global};

/// The number of the group of each definition, under that of its symbol; the places of selects and implies, under the numbers of
/// their targets.
#[derive(Drop)]
pub(crate) struct GatheredLines {
    pub definitions: ItemsWithKeys<u32>,
    pub selectors: ItemsWithKeys<Position>,
    pub impliers: ItemsWithKeys<Position>,
}

/// The symbol that an attribute selects, or implies, if an entry defines it.
fn target_symbol(tree: &Tree, which: ReverseKind, attribute: &ReadAttribute) -> Option<Sym>
    ensures { result ≡ target_symbol tree.now which attribute.now }
{
    match attribute.target_given(which) {
        None => None,
        Some(name) => tree.symbol_at(name),
    }
}

/// Appends the places of the selects, or of the implies, among lines of a file, each under the number of its target.
fn push_targets(
    found: &mut ItemsWithKeys<Position>,
    tree: &Tree,
    which: ReverseKind,
    file: u32,
    lines: &[Line],
) -> Result<(), AllocError>
    ensures keys { OnOk result (found.new.keys.items ≡ found.old.keys.items ++ target_keys tree.now which lines.now) }
    ensures items { OnOk result (found.new.items.items ≡ found.old.items.items ++ target_places tree.now which file lines.now) }
{
    for line in lines {
        if let Some(target) = target_symbol(tree, which, &line.attribute) {
            let at = Position {
                file,
                line: line.number,
            };
            found.push(target.number(), at)?;
        }
    }
    Ok(())
}

/// Appends the definition of a symbol by the group with a number, in a file and with these lines.
fn push_definition(
    found: &mut GatheredLines,
    tree: &Tree,
    symbol: u32,
    number: u32,
    file: u32,
    lines: &[Line],
) -> Result<(), AllocError>
    ensures { OnOk result (HasDefinition tree.now symbol number file lines.now found.old found.new) }
{
    found.definitions.push(symbol, number)?;
    push_targets(&mut found.selectors, tree, ReverseKind::Select, file, lines)?;
    push_targets(&mut found.impliers, tree, ReverseKind::Imply, file, lines)
}

/// Collects the definitions of all symbols, and the places of all selects and implies. An `Err` means out of memory.
pub(crate) fn gather_lines(
    alloc: Global,
    tree: &Tree,
    lines: &TreeLines,
) -> Result<GatheredLines, AllocError>
    requires read { IsRead lines.now }
    ensures ok { (read : List ModelGroup) → tree.now.tree ≡ tree_of_groups tree.now.tree.language read → HasLines tree.now.exprs lines.now read → IfOk result (AreGathered read) }
{
    let mut found = GatheredLines {
        definitions: ItemsWithKeys::new(alloc),
        selectors: ItemsWithKeys::new(alloc),
        impliers: ItemsWithKeys::new(alloc),
    };
    for i in 0..lines.groups.len() {
        if let GroupHead::Config(s) = lines.groups[i].head {
            let own = lines_at(lines, i);
            let file = lines.groups[i].file;
            push_definition(&mut found, tree, s, i as u32, file, own)?;
        }
    }
    Ok(found)
}
