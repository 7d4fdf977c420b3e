//! The entries of a tree, in reading order.
ghost use Rattle.std.specs.Prelude.{◌≡◌, ◌++◌, IfOk, OnOk, option_to_list};
ghost use Rattle.kc_builder.specs.checker.Entries.{entry_row};

use kc_conditions::GroupConditions;
use kc_parser::GroupHead;
use kc_tree::EntryRow;
use kc_tree_model::{Block, Sym};
use std::alloc::AllocError;

/// The index of a text as `u32`; out of memory if it doesn't fit.
fn title_number(place: usize) -> Result<u32, AllocError>
    ensures { IfOk result (λ n. n ≡ place) }
{
    match u32::try_from(place) {
        Ok(number) => Ok(number),
        Err(_) => Err(AllocError),
    }
}

/// The entry of a group, if it has one; `choices` counts the choices before it.
fn entry_of(
    head: &GroupHead,
    group: &GroupConditions,
    choices: u32,
) -> Result<Option<EntryRow>, AllocError>
    ensures { IfOk result (λ row. row ≡ entry_row head.now group.now choices) }
{
    match *head {
        GroupHead::Config(s) => Ok(Some(EntryRow::Definition(Sym::at(s)))),
        GroupHead::Choice => Ok(Some(EntryRow::ChoiceBegins(choices))),
        GroupHead::Menu(title) => Ok(Some(EntryRow::MenuBegins {
            title: title_number(title)?,
            dependency: group.dependency,
            visible: group.visible,
        })),
        GroupHead::Comment(title) => Ok(Some(EntryRow::Comment {
            title: title_number(title)?,
            dependency: group.dependency,
        })),
        GroupHead::Ends(Block::Menu) => match group.ended {
            Some(title) => Ok(Some(EntryRow::MenuEnds {
                title: title_number(title)?,
                dependency: group.dependency,
                visible: group.visible,
            })),
            None => Ok(None),
        },
        _ => Ok(None),
    }
}

/// Appends the entry of a group, if it has one; `choices` counts the choices before it. An `Err` means out of memory.
pub(crate) fn push_entry(
    rows: &mut Vec<EntryRow>,
    head: &GroupHead,
    group: &GroupConditions,
    choices: u32,
) -> Result<(), AllocError>
    ensures { OnOk result (rows.new.items ≡ rows.old.items ++ option_to_list (entry_row head.now group.now choices)) }
{
    match entry_of(head, group, choices)? {
        Some(row) => {
            rows.push(row)?;
            Ok(())
        }
        None => Ok(()),
    }
}
