//! Names that mean no symbol.
ghost use Rattle.std.specs.Prelude.{◌≡◌, ◌++◌, [], List, ℕ, None, option_map, string_bytes, IfOk, IfErr, OnOk};
ghost use Rattle.std.specs.Borrow.{Bor};
ghost use Rattle.kmin_explain_command.specs.Explains.{unknown_for};
ghost use Rattle.kmin_explain_command.specs.Stops.{nearest_text, unknown_text};
ghost use Rattle.kmin_explain_command.specs.between.UnknownNames.{StopsAtName};
ghost use Rattle.kmin_options.specs.Jobs.{explain_job_view};
ghost use Rattle.kmin_report.specs.StandardError.{TakesLines};
ghost use Rattle.kmin_report.specs.between.RunErrors.{status_of};

use crate::questions::names_of;
use kc_tree::Tree;
use kmin_explain::{nearest_name, unknown_name};
use kmin_options::ExplainJob;
use kmin_report::{Message, Messages, RunError};
use std::alloc::{AllocError, Global};

/// Refuses the names of a job if one of them means no symbol: reports the first such, with the name that is nearest to it.
pub(crate) fn refuse_unknown<E: Messages>(
    alloc: Global,
    job: &ExplainJob<'_>,
    tree: &Tree,
    err: &mut E,
) -> Result<(), RunError>
    ensures known { OnOk result (unknown_for (explain_job_view job.now) tree.now.tree ≡ None) }
    ensures unreported { OnOk result (TakesLines (E.taken err.old) (E.failures err.old) [] (E.taken err.new) (E.failures err.new)) }
    ensures stopped { IfErr result (λ stop. StopsAtName (explain_job_view job.now) tree.now.tree (status_of stop) (E.taken err.old) (E.failures err.old) (E.taken err.new) (E.failures err.new)) }
{
    match first_unknown(alloc, job, tree)? {
        None => Ok(()),
        Some(name) => {
            let near = nearest_name(alloc, tree, &job.settings.format.prefix, name)?;
            let line = unknown_line(alloc, name, near)?;
            err.write_report(Message::RefusedWords(&line));
            Err(RunError::Configuration)
        }
    }
}

/// The first name of a job that means no symbol.
fn first_unknown<'a>(
    alloc: Global,
    job: &ExplainJob<'a>,
    tree: &Tree,
) -> Result<Option<&'a str>, AllocError>
    ensures { IfOk result (λ found. option_map (λ (name : Bor (List ℕ)). name.now) found ≡ unknown_for (explain_job_view job.now) tree.now.tree) }
{
    match names_of(job.question) {
        Some(names) => unknown_name(alloc, tree, &job.settings.format.prefix, names),
        None => Ok(None),
    }
}

/// The line that reports a name that means no symbol, with the name that is nearest to it.
fn unknown_line(alloc: Global, name: &str, near: Option<&str>) -> Result<String, AllocError>
    ensures { IfOk result (λ line. string_bytes line ≡ unknown_text name.now (option_map (λ (near : Bor (List ℕ)). near.now) near.entry)) }
{
    let mut line = String::from_str(alloc, "explain: UnknownSymbol ")?;
    line.push_str(name)?;
    push_nearest(&mut line, near)?;
    line.push_str("\n")?;
    Ok(line)
}

/// Appends ` (nearest NAME)`, if there is one.
fn push_nearest(line: &mut String, near: Option<&str>) -> Result<(), AllocError>
    ensures { OnOk result (string_bytes line.new ≡ string_bytes line.old ++ nearest_text (option_map (λ (near : Bor (List ℕ)). near.now) near.entry)) }
{
    match near {
        None => Ok(()),
        Some(near) => {
            line.push_str(" (nearest ")?;
            line.push_str(near)?;
            line.push_str(")")
        }
    }
}
