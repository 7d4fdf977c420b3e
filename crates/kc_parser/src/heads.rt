//! Statements that close the open entry, and their limits.
ghost use Rattle.std.specs.Prelude.{◌≡◌, ◌<◌, List, length, count_by, nat_le};
ghost use Rattle.kc_expr.specs.between.Arena.{node_expr};
ghost use Rattle.kc_tree_model.specs.Blocks.{Group as Placed};
ghost use Rattle.kc_tree_model.specs.Limits.{FileSource};
ghost use Rattle.kc_tree_model.specs.declared.statement.Head.TheVariants.{Config as config, Choice as choice, Menu as menu, Condition as condition, Comment as comment};
ghost use Rattle.kc_parser.specs.checker.StateViews.{Describes};
ghost use Rattle.kc_parser.specs.checker.OpenBlockViews.{is_block};
ghost use Rattle.kc_parser.specs.checker.Steps.{AppendsHead};

use super::listing::{Group, GroupHead};
use super::open_blocks::{enclosing_choice, open_block_count};
use super::state::{OpenBlock, Position, ReaderState};
use kc_expr::ExprId;
use kc_tree_model::{Block, TreeKind};
use kc_value::{MAX_CHOICES, MAX_NAME_BYTES, MAX_OPEN_BLOCKS, Text};

/// Whether the limit of open blocks is reached.
fn is_at_block_limit(stack: &[OpenBlock]) -> bool
    ensures { result ≡ nat_le MAX_OPEN_BLOCKS (count_by is_block stack.now) }
{
    open_block_count(stack) >= MAX_OPEN_BLOCKS
}

impl ReaderState {
    /// Appends a menu to the groups read, within the limit of open blocks.
    pub(crate) fn push_menu(&mut self, at: Position, title: Text) -> Result<(), TreeKind>
        ensures { (r : FileSource) (before : List Placed) → Describes r self.old before → AppendsHead r at.file at.line before (menu title) self.new result }
    {
        if is_at_block_limit(&self.stack) {
            return Err(TreeKind::TooDeep);
        }
        let Ok(place) = self.push_text(title) else {
            return Err(TreeKind::OutOfMemory);
        };
        self.push_block(at, GroupHead::Menu(place), Block::Menu)
    }

    /// Appends an `if` to the groups read, within the limit of open blocks.
    pub(crate) fn push_if_block(&mut self, at: Position, id: ExprId) -> Result<(), TreeKind>
        requires there { id < length self.old.listing.names.arena.nodes }
        ensures appends { (r : FileSource) (before : List Placed) → Describes r self.old before
            → AppendsHead r at.file at.line before (condition (node_expr self.old.listing.names.arena id)) self.new result }
    {
        if is_at_block_limit(&self.stack) {
            return Err(TreeKind::TooDeep);
        }
        self.push_block(at, GroupHead::Condition(id), Block::If)
    }

    /// Appends a choice to the groups read, within the limits of open blocks and of choices.
    pub(crate) fn push_choice(&mut self, at: Position) -> Result<(), TreeKind>
        ensures { (r : FileSource) (before : List Placed) → Describes r self.old before → AppendsHead r at.file at.line before choice self.new result }
    {
        if is_at_block_limit(&self.stack) {
            return Err(TreeKind::TooDeep);
        }
        if self.choices >= MAX_CHOICES {
            return Err(TreeKind::TooMany);
        }
        self.push_choice_group(at)
    }

    /// Appends a `comment` with its title to the groups read.
    pub(crate) fn push_comment(&mut self, at: Position, title: Text) -> Result<(), TreeKind>
        ensures { (r : FileSource) (before : List Placed) → Describes r self.old before → AppendsHead r at.file at.line before (comment title) self.new result }
    {
        let Ok(place) = self.push_text(title) else {
            return Err(TreeKind::OutOfMemory);
        };
        self.push_plain(at, GroupHead::Comment(place))
    }

    /// Appends a definition of a symbol to the groups read, within the limits of the length of names and the number of symbols.
    pub(crate) fn push_config(&mut self, at: Position, name: &str) -> Result<(), TreeKind>
        ensures { (r : FileSource) (before : List Placed) → Describes r self.old before → AppendsHead r at.file at.line before (config name.now) self.new result }
    {
        if name.len() > MAX_NAME_BYTES {
            return Err(TreeKind::TooMany);
        }
        let number = match self.listing.names.symbol_of(name) {
            Ok(number) => number,
            Err(kind) => return Err(kind),
        };
        let attributes = self.listing.lines.len();
        let choice = enclosing_choice(&self.stack);
        let Ok(()) = self.listing.groups.push(Group {
            file: at.file,
            line: at.line,
            head: GroupHead::Config(number),
            attributes,
            choice,
        })
        else {
            return Err(TreeKind::OutOfMemory);
        };
        Ok(())
    }
}
