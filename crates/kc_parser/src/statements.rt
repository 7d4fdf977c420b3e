//! Appends the statements of lines.
ghost use Rattle.std.specs.Prelude.{◌≡◌, List};
ghost use Rattle.kc_tree_model.specs.Blocks.{Group as Placed};
ghost use Rattle.kc_tree_model.specs.Limits.{FileSource};
ghost use Rattle.kc_tree_model.specs.declared.statement.Statement.TheVariants.{Head as said_by_head};
ghost use Rattle.kc_statements.specs.between.StatementViews.{head_in, HeadNodesExist, statement_in, StatementNodesExist};
ghost use Rattle.kc_parser.specs.checker.StateViews.{Describes};
ghost use Rattle.kc_parser.specs.checker.StatementResults.{no_path, AppendsStatement};

use super::listing::GroupHead;
use super::state::{Position, ReaderState};
use kc_statements::{ReadHead, ReadStatement};
use kc_tree_model::{Head, Statement, TreeKind};
use kc_value::Text;

/// The result for a statement that names no file to read.
fn without_path(pushed: Result<(), TreeKind>) -> Result<Option<Text>, TreeKind>
    ensures { result ≡ no_path pushed }
{
    match pushed {
        Ok(()) => Ok(None),
        Err(kind) => Err(kind),
    }
}

impl ReaderState {
    /// Appends a statement that closes the open entry; of a `source` only the path is returned, and nothing appended yet.
    fn push_head(&mut self, at: Position, head: ReadHead<'_>) -> Result<Option<Text>, TreeKind>
        requires held { HeadNodesExist self.old.listing.names.arena head }
        ensures appends { (r : FileSource) (before : List Placed) → Describes r self.old before
            → AppendsStatement r at.file at.line before (said_by_head (head_in self.old.listing.names.arena head.entry)) self.new result }
    {
        match head {
            Head::Config(name) => without_path(self.push_config(at, name)),
            Head::Choice => without_path(self.push_choice(at)),
            Head::Menu(title) => without_path(self.push_menu(at, title)),
            Head::Condition(id) => without_path(self.push_if_block(at, id)),
            Head::Comment(title) => without_path(self.push_comment(at, title)),
            Head::Source(path) => Ok(Some(path)),
            Head::Mainmenu => without_path(self.push_plain(at, GroupHead::Mainmenu)),
            Head::Ends(block) => without_path(self.push_end(at, GroupHead::Ends(block))),
        }
    }

    /// Appends the statement of a line; a `source` isn't appended yet, and its path is returned instead.
    pub(crate) fn push_statement(
        &mut self,
        at: Position,
        statement: ReadStatement<'_>,
    ) -> Result<Option<Text>, TreeKind>
        requires held { StatementNodesExist self.old.listing.names.arena statement }
        ensures appends { (r : FileSource) (before : List Placed) → Describes r self.old before
            → AppendsStatement r at.file at.line before (statement_in self.old.listing.names.arena statement.entry) self.new result }
    {
        match statement {
            Statement::Head(head) => self.push_head(at, head),
            Statement::Attribute(attribute) => without_path(self.push_attribute(
                at.line, &attribute,
            )),
        }
    }
}
