//! The defaults of choices.
ghost use Rattle.std.specs.Prelude.{◌≡◌, ◌++◌, All, OnOk, map};
ghost use Rattle.kc_parser.specs.between.ListingView.{LineNodesExist};
ghost use Rattle.kc_builder.specs.checker.ChoiceDefaults.{group_default_rows, member_default_row, member_default_rows};

use super::group_attributes::{GroupAttributes, push_optional};
use kc_checks::begins_choice;
use kc_expr::ExprId;
use kc_parser::{GroupHead, Line, SymbolTable};
use kc_tree::{ItemsWithKeys, MemberDefault};
use kc_tree_model::Sym;
use std::alloc::AllocError;

/// The default that an attribute with a condition gives a choice: the symbol whose bare name it is.
fn member_default(names: &SymbolTable, line: &Line, condition: ExprId) -> Option<MemberDefault>
    requires held { LineNodesExist names.now.arena line.now }
    ensures value { result ≡ member_default_row names.now line.now condition }
{
    let valued = line.attribute.default_given()?;
    let name = names.arena.bare_name(valued.value)?;
    let member = names.number_of(names.arena.name(name))?;
    Some(MemberDefault {
        member: Sym::at(member),
        condition,
    })
}

/// Appends the defaults of a choice.
fn push_defaults(
    found: &mut ItemsWithKeys<MemberDefault>,
    own: GroupAttributes<'_>,
    choice: u32,
) -> Result<(), AllocError>
    requires held { All (LineNodesExist own.names.now.arena) own.lines.now }
    ensures keys { OnOk result (found.new.keys.items ≡ found.old.keys.items ++ map (λ _. choice) (member_default_rows own.entry.names.now own.entry.lines.now own.entry.conditions.now)) }
    ensures items { OnOk result (found.new.items.items ≡ found.old.items.items ++ member_default_rows own.entry.names.now own.entry.lines.now own.entry.conditions.now) }
{
    let (lines, conditions) = (own.lines, own.conditions);
    for i in 0..lines.len() {
        let item = member_default(own.names, &lines[i], conditions[i]);
        push_optional(found, choice, item)?;
    }
    Ok(())
}

/// Appends the defaults of a group under the number of its choice, if it is a choice. An `Err` means out of memory.
pub(crate) fn push_group_defaults(
    found: &mut ItemsWithKeys<MemberDefault>,
    own: GroupAttributes<'_>,
    head: &GroupHead,
    choice: u32,
) -> Result<(), AllocError>
    requires held { All (LineNodesExist own.names.now.arena) own.lines.now }
    ensures keys { OnOk result (found.new.keys.items ≡ found.old.keys.items ++ map (λ _. choice) (group_default_rows head.now own.entry.names.now own.entry.lines.now own.entry.conditions.now)) }
    ensures items { OnOk result (found.new.items.items ≡ found.old.items.items ++ group_default_rows head.now own.entry.names.now own.entry.lines.now own.entry.conditions.now) }
{
    if begins_choice(head) {
        return push_defaults(found, own, choice);
    }
    Ok(())
}
