//! Appends statements to the listing.
ghost use Rattle.std.specs.Prelude.{◌≡◌, ◌<◌, ◌+◌, ◌≤◌, ℕ, false, slice_get, List, None, Some, IfOk, IfErr, OnOk};
ghost use Rattle.kc_value.specs.declared.limits.TheConstants.{MAX_CHOICES, MAX_FILES, MAX_TREE_BYTES};
ghost use Rattle.kc_tree_model.specs.declared.fault.TreeKind.TheVariants.{OutOfMemory};
ghost use Rattle.kc_tree_model.specs.Blocks.{Group as Placed, GroupHead as Meant, of_head, closing, inside, side_of, from_head};
ghost use Rattle.kc_tree_model.specs.Statements.{name_of_head, block_of_head, same_block};
ghost use Rattle.kc_tree_model.specs.declared.statement.Head.TheVariants.{Choice as choice, Source as source};
ghost use Rattle.kc_tree_model.specs.Limits.{FileSource, size_in};
ghost use Rattle.kc_tree_model.specs.TreeReading.{with_group};
ghost use Rattle.kc_parser.specs.between.EnclosingChoices.{innermost_choice};
ghost use Rattle.kc_parser.specs.between.ListingView.{RepresentsListing};
ghost use Rattle.kc_parser.specs.checker.StateViews.{Describes, IsMeant, at_line, open_choices, open_choices_after};

use super::listing::{Group, GroupHead, Listing};
use super::open_blocks::enclosing_choice;
use super::state::{OpenBlock, Position, ReaderState};
use kc_tree_model::{Block, TreeKind};
use kc_value::Text;

/// Appends to the listing a statement that defines no symbol, or the end of a file, in the choice of this number.
pub(crate) fn push_group(
    listing: &mut Listing,
    at: Position,
    head: GroupHead,
    choice: Option<u32>,
) -> Result<(), TreeKind>
    ensures appends { (before : List Placed) (m : Meant) → RepresentsListing listing.old before → IsMeant listing.old before head m
        → from_head name_of_head m ≡ None → choice ≡ innermost_choice (open_choices listing.old) → OnOk result (RepresentsListing listing.new (with_group (at_line at.file at.line) m before)) }
    ensures choices { OnOk result (open_choices listing.new ≡ open_choices_after head listing.old) }
    ensures texts { listing.new.texts ≡ listing.old.texts }
    ensures memory { IfErr result (λ k. k ≡ OutOfMemory) }
{
    let attributes = listing.lines.len();
    let Ok(()) = listing.groups.push(Group {
        file: at.file,
        line: at.line,
        head,
        attributes,
        choice,
    })
    else {
        return Err(TreeKind::OutOfMemory);
    };
    Ok(())
}

impl ReaderState {
    /// Appends the end of the innermost block or sourced file, and takes it off the stack.
    pub(crate) fn push_end(&mut self, at: Position, head: GroupHead) -> Result<(), TreeKind>
        ensures appends { (r : FileSource) (before : List Placed) (m : Meant) → Describes r self.old before → IsMeant self.old.listing before head m
            → side_of m ≡ closing → OnOk result (Describes r self.new (with_group (at_line at.file at.line) m before)) }
        ensures memory { IfErr result (λ k. k ≡ OutOfMemory) }
    {
        let choice = enclosing_choice(&self.stack);
        let _ = self.stack.pop();
        push_group(&mut self.listing, at, head, choice)
    }

    /// Appends a statement that defines no symbol, and opens and ends no block or file.
    pub(crate) fn push_plain(&mut self, at: Position, head: GroupHead) -> Result<(), TreeKind>
        ensures appends { (r : FileSource) (before : List Placed) (m : Meant) → Describes r self.old before → IsMeant self.old.listing before head m
            → side_of m ≡ inside → from_head name_of_head m ≡ None → OnOk result (Describes r self.new (with_group (at_line at.file at.line) m before)) }
        ensures memory { IfErr result (λ k. k ≡ OutOfMemory) }
    {
        let choice = enclosing_choice(&self.stack);
        push_group(&mut self.listing, at, head, choice)
    }

    /// Appends the statement that opens a menu or an `if`.
    pub(crate) fn push_block(
        &mut self,
        at: Position,
        head: GroupHead,
        block: Block,
    ) -> Result<(), TreeKind>
        ensures appends { (r : FileSource) (before : List Placed) (m : Meant) → Describes r self.old before → IsMeant self.old.listing before head m
            → from_head block_of_head m ≡ Some block → same_block Block.Choice block ≡ false
            → OnOk result (Describes r self.new (with_group (at_line at.file at.line) m before)) }
        ensures memory { IfErr result (λ k. k ≡ OutOfMemory) }
    {
        let choice = enclosing_choice(&self.stack);
        let Ok(()) = self.stack.push(OpenBlock::Block(block, at.line, choice)) else {
            return Err(TreeKind::OutOfMemory);
        };
        push_group(&mut self.listing, at, head, choice)
    }

    /// Appends the statement that opens a choice.
    pub(crate) fn push_choice_group(&mut self, at: Position) -> Result<(), TreeKind>
        requires few { self.old.choices < MAX_CHOICES }
        ensures appends { (r : FileSource) (before : List Placed) → Describes r self.old before
            → OnOk result (Describes r self.new (with_group (at_line at.file at.line) (of_head choice) before)) }
        ensures memory { IfErr result (λ k. k ≡ OutOfMemory) }
    {
        let choice = enclosing_choice(&self.stack);
        let number = Some(self.choices as u32);
        let Ok(()) = self
            .stack
            .push(OpenBlock::Block(Block::Choice, at.line, number))
        else {
            return Err(TreeKind::OutOfMemory);
        };
        self.choices += 1;
        push_group(&mut self.listing, at, GroupHead::Choice, choice)
    }

    /// Appends a text, which is a title or a path, and returns its index among the texts.
    pub(crate) fn push_text(&mut self, text: Text) -> Result<usize, TreeKind>
        ensures kept { IfOk result (λ t. slice_get self.new.listing.texts.items t ≡ Some text) }
        ensures describes { (r : FileSource) (before : List Placed) → Describes r self.old before → OnOk result (Describes r self.new before) }
        ensures files { self.new.files ≡ self.old.files }
        ensures bytes { self.new.bytes ≡ self.old.bytes }
        ensures memory { IfErr result (λ k. k ≡ OutOfMemory) }
    {
        let place = self.listing.texts.len();
        let Ok(()) = self.listing.texts.push(text) else {
            return Err(TreeKind::OutOfMemory);
        };
        Ok(place)
    }

    /// Appends a `source` whose path is the text at the index `place`, and counts its file and the file's bytes.
    pub(crate) fn push_source(
        &mut self,
        at: Position,
        place: usize,
        size: usize,
    ) -> Result<(), TreeKind>
        requires files { self.old.files < MAX_FILES }
        requires bytes { self.old.bytes + size ≤ MAX_TREE_BYTES }
        ensures appends { (r : FileSource) (before : List Placed) (path : List ℕ) → Describes r self.old before → slice_get self.old.listing.texts.items place ≡ Some path → size ≡ size_in r path
            → OnOk result (Describes r self.new (with_group (at_line at.file at.line) (of_head (source path)) before)) }
        ensures memory { IfErr result (λ k. k ≡ OutOfMemory) }
    {
        let choice = enclosing_choice(&self.stack);
        let Ok(()) = self.stack.push(OpenBlock::Source(place, choice)) else {
            return Err(TreeKind::OutOfMemory);
        };
        self.files += 1;
        self.bytes += size;
        push_group(&mut self.listing, at, GroupHead::Source(place), choice)
    }
}
