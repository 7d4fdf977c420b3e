//! The lines of any symbol of a tree.
ghost use Rattle.std.specs.Prelude.{◌≡◌, ◌<◌, ℕ, List, Some, length, slice_get, IfOk};
ghost use Rattle.kc_tree_model.specs.Blocks.{Group as ModelGroup};
ghost use Rattle.kc_tree_model.specs.Contents.{contents_of, tree_of_groups};
ghost use Rattle.kc_tree_model.specs.Limits.{names_defined};
ghost use Rattle.kc_reasons_model.specs.SymbolLines.{lines_of_symbol};
ghost use Rattle.kc_builder.specs.between.TreeLines.{HasLines};
ghost use Rattle.kc_symbol_lines.specs.between.LinesView.{symbol_lines_view, AreHeld};
ghost use Rattle.kc_symbol_lines.specs.between.Indexes.{IsReadTree, IsIndex};

use super::blocks::innermost_blocks;
use super::located::{Position, SymbolLines};
use super::symbol::{DefinitionLines, definition_lines, keep_own};
use super::targets::gather_lines;
use kc_builder::TreeLines;
use kc_tree::{ItemsByNumber, Tree};
use kc_tree_model::Sym;
use std::alloc::{AllocError, Global};

/// By which the lines of each symbol of a tree are found: for each group the number of the one that opens the innermost block around
/// it; for each symbol the numbers of the groups that define it, and the places of the selects and of the implies that target it.
#[derive(Drop)]
pub struct LineIndex {
    pub blocks: Vec<Option<u32>>,
    pub definitions: ItemsByNumber<u32>,
    pub selectors: ItemsByNumber<Position>,
    pub impliers: ItemsByNumber<Position>,
}

impl LineIndex {
    /// The index of a tree that was read, and of its lines. An `Err` means out of memory, or 2^32 selects or implies or more.
    pub fn new(alloc: Global, tree: &Tree, lines: &TreeLines) -> Result<LineIndex, AllocError>
        requires read { IsReadTree tree.now lines.now }
        ensures ok { IfOk result (IsIndex tree.now lines.now) }
    {
        let blocks = innermost_blocks(alloc, lines)?;
        let found = gather_lines(alloc, tree, lines)?;
        let count = tree.symbol_count() as usize;
        Ok(LineIndex {
            blocks,
            definitions: found.definitions.grouped(alloc, count)?,
            selectors: found.selectors.grouped(alloc, count)?,
            impliers: found.impliers.grouped(alloc, count)?,
        })
    }

    /// The lines of symbol `s`. An `Err` means out of memory.
    pub fn lines_of(
        &self,
        alloc: Global,
        tree: &Tree,
        lines: &TreeLines,
        s: Sym,
    ) -> Result<SymbolLines, AllocError>
        requires read { IsReadTree tree.now lines.now }
        requires index { IsIndex tree.now lines.now self.now }
        requires there { s < length tree.now.tree.symbols }
        ensures ok { (read : List ModelGroup) (name : List ℕ) → tree.now.tree ≡ tree_of_groups tree.now.tree.language read → HasLines tree.now.exprs lines.now read
            → slice_get (names_defined read) s ≡ Some name
            → IfOk result (λ l. symbol_lines_view tree.now.exprs l ≡ lines_of_symbol tree.now.tree.language (contents_of read) name) }
        ensures prompts { IfOk result (λ l. AreHeld tree.now.exprs l.prompts.items) }
        ensures direct { IfOk result (λ l. AreHeld tree.now.exprs l.direct.items) }
    {
        let at = s.number() as usize;
        let numbers = self.definitions.get(at);
        let found = definition_lines(alloc, tree.language(), lines, &self.blocks, numbers)?;
        let DefinitionLines {
            prompts,
            direct: all,
            defaults,
            ranges,
        } = found;
        let mut direct = all;
        keep_own(&mut direct, tree.symbol(s).choice.is_some());
        Ok(SymbolLines {
            prompts,
            direct,
            defaults,
            ranges,
            selectors: Vec::from_slice(alloc, self.selectors.get(at))?,
            impliers: Vec::from_slice(alloc, self.impliers.get(at))?,
        })
    }
}
