//! The rows of choices.
ghost use Rattle.std.specs.Prelude.{◌≡◌, ◌++◌, OnOk, length};
ghost use Rattle.std.specs.List.{list_any};
ghost use Rattle.kc_builder.specs.checker.ChoiceRows.{is_optional_line, choice_row, group_rows};

use kc_checks::begins_choice;
use kc_conditions::first_condition;
use kc_expr::ExprId;
use kc_parser::{Group, Line};
use kc_tree::ChoiceRow;
use std::alloc::AllocError;

/// Whether some attribute makes the choice optional.
fn has_optional(lines: &[Line]) -> bool
    ensures { result ≡ list_any is_optional_line lines.now }
{
    lines.iter().any(|line| line.attribute.is_optional())
}

/// The row of a choice that begins with a group, which has these attributes with these conditions.
fn row_of(group: &Group, lines: &[Line], conditions: &[ExprId]) -> ChoiceRow
    requires many { length conditions.now ≡ length lines.now }
    ensures value { result ≡ choice_row group.now lines.now conditions.now }
{
    ChoiceRow {
        file: group.file,
        line: group.line,
        prompt: first_condition(lines, conditions),
        optional: has_optional(lines),
    }
}

/// Appends the row of the choice that begins with a group, if one does. An `Err` means out of memory.
pub(crate) fn push_row(
    rows: &mut Vec<ChoiceRow>,
    group: &Group,
    lines: &[Line],
    conditions: &[ExprId],
) -> Result<(), AllocError>
    requires many { length conditions.now ≡ length lines.now }
    ensures { OnOk result (rows.new.items ≡ rows.old.items ++ group_rows group.now lines.now conditions.now) }
{
    if !begins_choice(&group.head) {
        return Ok(());
    }
    rows.push(row_of(group, lines, conditions))?;
    Ok(())
}
