//! Minimal files.
ghost use Rattle.std.specs.Prelude.{◌≡◌, ◌<◌, ◌++◌, [], length, IfOk, OnOk, if◌then◌else◌};
ghost use Rattle.kc_rules.specs.between.SettledViews.{tree_of_settled, profile_of};
ghost use Rattle.kc_dotconfig_model.specs.between.Formats.{file_format};
ghost use Rattle.kc_minimal_model.specs.SymbolLine.{ended_line};
ghost use Rattle.kc_minimal_model.specs.MinimalFile.{is_kept, has_line, minimal_file};
ghost use Rattle.kc_minimal.specs.checker.Values.{FitValues, AreGivenBy};

use crate::symbol_line::{Written, push_symbol};
use kc_dotconfig_model::Format;
use kc_rules::{Settled, Steps, UnitValue, UserValue};
use kc_solver::System;
use kc_tree::Sym;
use std::alloc::{AllocError, Global};

/// A settled tree, user values, and the values that they give its units.
#[derive(Clone, Copy)]
struct Solved<'a> {
    settled: &'a Settled,
    users: &'a [Option<UserValue>],
    values: &'a [UnitValue],
}

/// Whether a unit's value isn't what its rule gives without a user value. Where it has none there is nothing to
/// evaluate.
fn is_kept(alloc: Global, solved: &Solved<'_>, u: u32) -> Result<bool, AllocError>
    requires unit { u < length (tree_of_settled solved.now.settled.now).units }
    requires values { FitValues (tree_of_settled solved.now.settled.now) solved.now.values.now }
    requires given { AreGivenBy (profile_of solved.now.settled.now) (tree_of_settled solved.now.settled.now) solved.now.users.now solved.now.values.now }
    ensures ok { IfOk result (λ kept. kept ≡ is_kept (profile_of solved.now.settled.now) (tree_of_settled solved.now.settled.now) solved.now.values.now u) }
{
    if solved.users[u as usize].is_none() {
        return Ok(false);
    }
    let mut steps = Steps::new();
    let value = solved
        .settled
        .eval(alloc, u, None, solved.values, &mut steps)?;
    Ok(!Settled::same(&solved.values[u as usize], &value))
}

/// Whether a symbol has a line: of a choice the selected member alone may have one, so that each unit's rule is
/// evaluated at most once.
fn has_line(alloc: Global, solved: &Solved<'_>, s: Sym) -> Result<bool, AllocError>
    requires symbol { s < length (tree_of_settled solved.now.settled.now).symbols }
    requires values { FitValues (tree_of_settled solved.now.settled.now) solved.now.values.now }
    requires given { AreGivenBy (profile_of solved.now.settled.now) (tree_of_settled solved.now.settled.now) solved.now.users.now solved.now.values.now }
    ensures ok { IfOk result (λ line. line ≡ has_line (profile_of solved.now.settled.now) (tree_of_settled solved.now.settled.now) solved.now.values.now s) }
{
    let symbol = solved.settled.tree().symbol(s);
    if symbol.choice.is_some() && solved.settled.value_of_symbol(s, solved.values).tri.is_n() {
        Ok(false)
    } else {
        is_kept(alloc, solved, symbol.unit)
    }
}

/// Appends the line of a symbol, if it has one.
fn push_if_kept(
    out: &mut Vec<u8>,
    alloc: Global,
    solved: &Solved<'_>,
    format: &Format,
    s: Sym,
) -> Result<(), AllocError>
    requires symbol { s < length (tree_of_settled solved.now.settled.now).symbols }
    requires values { FitValues (tree_of_settled solved.now.settled.now) solved.now.values.now }
    requires given { AreGivenBy (profile_of solved.now.settled.now) (tree_of_settled solved.now.settled.now) solved.now.users.now solved.now.values.now }
    ensures ok { let settled = solved.now.settled.now in let values = solved.now.values.now in OnOk result (out.new.items ≡ out.old.items ++ (if has_line (profile_of settled) (tree_of_settled settled) values s then ended_line (file_format format.now) (tree_of_settled settled) values s else [])) }
{
    let line = has_line(alloc, solved, s)?;
    if line {
        let written = Written {
            settled: solved.settled,
            format,
            values: solved.values,
        };
        push_symbol(out, &written, s)
    } else {
        Ok(())
    }
}

/// The minimal file of a settled tree under `values`, which the user values `users` give. The user values save work and don't
/// change the file. An `Err` means out of memory.
pub(crate) fn minimal_lines(
    alloc: Global,
    settled: &Settled,
    format: &Format,
    users: &[Option<UserValue>],
    values: &[UnitValue],
) -> Result<Vec<u8>, AllocError>
    requires values { FitValues (tree_of_settled settled.now) values.now }
    requires given { AreGivenBy (profile_of settled.now) (tree_of_settled settled.now) users.now values.now }
    ensures ok { IfOk result (λ text. text.items ≡ minimal_file (file_format format.now) (profile_of settled.now) (tree_of_settled settled.now) values.now) }
{
    let solved = Solved {
        settled,
        users,
        values,
    };
    let mut text = Vec::new(alloc);
    for number in 0..settled.tree().symbol_count() {
        let s = Sym::at(number);
        push_if_kept(&mut text, alloc, &solved, format, s)?;
    }
    Ok(text)
}
