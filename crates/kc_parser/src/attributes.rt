//! Attributes of the open entry, and their limit.
ghost use Rattle.std.specs.Prelude.{◌≡◌, List};
ghost use Rattle.kc_tree_model.specs.Blocks.{Group as Placed};
ghost use Rattle.kc_tree_model.specs.Limits.{FileSource, too_many_by_attribute};
ghost use Rattle.kc_statements.specs.between.StatementViews.{attribute_in, AttributeNodesExist};
ghost use Rattle.kc_parser.specs.checker.StateViews.{Describes};
ghost use Rattle.kc_parser.specs.checker.Steps.{AppendsAttribute};

use super::listing::Line;
use super::state::ReaderState;
use kc_expr::Arena;
use kc_statements::ReadAttribute;
use kc_tree_model::{Attribute, TreeKind};
use kc_value::MAX_NAME_BYTES;

/// Whether an attribute selects or implies a name that is too long.
fn has_long_name(arena: &Arena, attribute: &ReadAttribute) -> bool
    requires held { AttributeNodesExist arena.now attribute.now }
    ensures value { result ≡ too_many_by_attribute (attribute_in arena.now attribute.now) }
{
    match attribute {
        Attribute::Select(aimed) => arena.name(aimed.name).len() > MAX_NAME_BYTES,
        Attribute::Imply(aimed) => arena.name(aimed.name).len() > MAX_NAME_BYTES,
        _ => false,
    }
}

impl ReaderState {
    /// Appends an attribute to the newest group; `TooMany` if it selects or implies a name that is too long.
    pub(crate) fn push_attribute(
        &mut self,
        line: u32,
        attribute: &ReadAttribute,
    ) -> Result<(), TreeKind>
        requires held { AttributeNodesExist self.old.listing.names.arena attribute.now }
        ensures appends { (r : FileSource) (before : List Placed) → Describes r self.old before
            → AppendsAttribute r line before (attribute_in self.old.listing.names.arena attribute.now) self.new result }
    {
        if has_long_name(&self.listing.names.arena, attribute) {
            return Err(TreeKind::TooMany);
        }
        let Ok(()) = self.listing.lines.push(Line {
            number: line,
            attribute: *attribute,
        })
        else {
            return Err(TreeKind::OutOfMemory);
        };
        Ok(())
    }
}
