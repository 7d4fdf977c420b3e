//! The help on a kind of message.
ghost use Rattle.std.specs.Prelude.{◌≡◌, ◌++◌, ℕ, List, map, bytes_eq, OnOk, IfOk};
ghost use Rattle.std.specs.Borrow.{Bor};
ghost use Rattle.std.specs.List.{list_any};
ghost use Rattle.kmin_commands.specs.declared.messages.Row.{Row as DeclaredRow};
ghost use Rattle.kmin_commands.specs.Messages.{kind_asked, kind_text, row_text, rows_text, table_text};

use crate::messages::{Row, Table};
use std::alloc::{AllocError, Global};

/// The help on a kind of message if the words of the command line are `help KIND`; empty if not.
pub fn kind_asked(alloc: Global, tables: &[Table], words: &[&str]) -> Result<String, AllocError>
    ensures { IfOk result (λ text. text.bytes.items ≡ kind_asked (map (λ (word : Bor (List ℕ)). word.now) words.now) tables.now) }
{
    match words {
        [first, second] if *first == "help" => kind_text(alloc, tables, second),
        _ => Ok(String::new(alloc)),
    }
}

/// The rows of all tables that explain a kind of message, each table's under its heading; empty where there are none.
fn kind_text(alloc: Global, tables: &[Table], kind: &str) -> Result<String, AllocError>
    ensures { IfOk result (λ text. text.bytes.items ≡ kind_text kind.now tables.now) }
{
    let mut text = String::new(alloc);
    for table in tables {
        push_table(&mut text, table, kind)?;
    }
    Ok(text)
}

/// Appends the rows of a table that explain a kind of message, under its heading; nothing where there are none.
fn push_table(text: &mut String, table: &Table, kind: &str) -> Result<(), AllocError>
    ensures { OnOk result (text.new.bytes.items ≡ text.old.bytes.items ++ table_text kind.now table.now) }
{
    if !has_kind(table.rows, kind) {
        return Ok(());
    }
    text.push_str(table.heading)?;
    text.push_str("\n")?;
    push_rows(text, table.rows, kind)
}

/// Whether a row explains this kind of message.
fn has_kind(rows: &[Row], kind: &str) -> bool
    ensures { result ≡ list_any (λ (row : DeclaredRow). bytes_eq row.kind.now kind.now) rows.now }
{
    rows.iter().any(|row| row.kind == kind)
}

/// Appends the lines of the rows that explain a kind of message.
fn push_rows(text: &mut String, rows: &[Row], kind: &str) -> Result<(), AllocError>
    ensures { OnOk result (text.new.bytes.items ≡ text.old.bytes.items ++ rows_text kind.now rows.now) }
{
    for row in rows {
        push_row(text, row, kind)?;
    }
    Ok(())
}

/// Appends the lines of a row if it explains this kind of message.
fn push_row(text: &mut String, row: &Row, kind: &str) -> Result<(), AllocError>
    ensures { OnOk result (text.new.bytes.items ≡ text.old.bytes.items ++ row_text kind.now row.now) }
{
    if row.kind == kind {
        text.push_str(row.lines)?;
        text.push_str("\n")?;
    }
    Ok(())
}
