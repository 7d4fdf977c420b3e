//! The command `wants`, which lists the open questions of a tree's macros, or the answers that they don't use.
ghost use Rattle.std.specs.Prelude.{◌≡◌, ◌≢◌, ◌≤◌, ◌⊎◌, ◌++◌, [], List, ℕ, true, Ok, Vec, IfOk, IfErr};
ghost use Rattle.std.specs.declared.alloc.Global.{Global};
ghost use Rattle.std.specs.List.{flat_map};
ghost use Rattle.std.specs.Io.KnownBytes.{Appends};
ghost use Rattle.kc_files.specs.TextViews.{items_of};
ghost use Rattle.kmin_options.specs.Jobs.{questions_view};
ghost use Rattle.kmin_report.specs.Reports.{ErrorLine, last_lines};
ghost use Rattle.kmin_report.specs.StandardError.{TakesLines};
ghost use Rattle.kc_files.specs.TreeContents.{HasRisen};
ghost use Rattle.kmin_expansions.specs.WantedQuestions.{AreAsked, AsksInPart, StopsWanting, question_line, questions_text};
ghost use Rattle.kmin_outputs.specs.Statuses.{status_of_list};
ghost use Rattle.kmin_report.specs.between.RunErrors.{status_of};

use kc_value::Sink;
use kmin_expansions::{Wanted, wanted_of};
use kmin_inputs::Files;
use kmin_options::Questions;
use kmin_outputs::{JobOutput, finish};
use kmin_report::{Message, Messages, RunError};
use std::alloc::{AllocError, Global};

/// Lists the open questions of a tree's macros, a line each, in the order in which the expansion asks them; with `--unused`, where
/// none is open, those that the answer files answer and the expansion doesn't ask, in their order. Returns the exit status: 0 no
/// question, 1 some questions, 3 no question but a fault of the expansion, 4 answer file refused, 5 a read or write failed, 6 out of
/// memory.
///
/// The output is complete before the first write. Standard error gets a line `FILE:LINE: KIND` or
/// `FILE:LINE: KIND TEXT` for the fault, and no notices; a failed write there has no influence.
pub fn list_questions<F: Files, O: Sink, E: Messages>(
    alloc: Global,
    questions: &Questions<'_>,
    files: &mut F,
    out: &mut O,
    err: &mut E,
) -> u8
    ensures status { result ≤ 6 }
    ensures accepted_words { result ≢ 2 }

    // The answer files are accepted, exactly these questions are written, and no write failed.
    ensures done { (result ≡ 0) ⊎ (result ≡ 1) → (asked : List (List ℕ)) × AreAsked (F.surroundings files.old) (F.failures files.old) (F.failures files.new) (questions_view questions.now) (Ok asked) × (result ≡ status_of_list true asked) × Appends (O.taken out.old) (O.taken out.new) (questions_text asked) × TakesLines (E.taken err.old) (E.failures err.old) [] (E.taken err.new) (E.failures err.new) }
    ensures unfailed { (result ≡ 0) ⊎ (result ≡ 1) → O.failures out.new ≡ O.failures out.old }

    // On every other status the fault that ended the run is reported.
    ensures stopped { (result ≢ 0) × (result ≢ 1) → (lines : List ErrorLine) × StopsWanting (F.surroundings files.old) (F.failures files.old) (F.failures files.new) (questions_view questions.now) result lines × TakesLines (E.taken err.old) (E.failures err.old) (lines ++ last_lines result) (E.taken err.new) (E.failures err.new) }

    // On status 5 the writer took the first bytes of the questions, or nothing.
    ensures part { result ≡ 5 → (O.taken out.new ≡ O.taken out.old) ⊎ AsksInPart (F.surroundings files.old) (F.failures files.old) (F.failures files.new) (questions_view questions.now) (O.taken out.old) (O.taken out.new) }

    ensures unwritten { result ≢ 0 → result ≢ 1 → result ≢ 5 → O.taken out.new ≡ O.taken out.old }

    // On status 5 an answer file couldn't be opened, or a read of one or a write of the output failed.
    ensures failed { result ≡ 5 → HasRisen (F.failures files.old) (F.failures files.new) ⊎ HasRisen (O.failures out.old) (O.failures out.new) }
{
    let output = output_of_questions(alloc, questions, files, err);
    finish(output, out, err)
}

/// The complete list of questions, and its status. Reports why there is none.
fn output_of_questions<F: Files, E: Messages>(
    alloc: Global,
    questions: &Questions<'_>,
    files: &mut F,
    err: &mut E,
) -> Result<JobOutput, RunError>
    ensures status { IfOk result (λ output. output.status ≤ 1) }
    ensures output { IfOk result (λ output. (asked : List (List ℕ)) × AreAsked (F.surroundings files.old) (F.failures files.old) (F.failures files.new) (questions_view questions.now) (Ok asked) × (output.text.items ≡ questions_text asked) × (output.status ≡ status_of_list true asked)) }
    ensures unreported { IfOk result (λ output. TakesLines (E.taken err.old) (E.failures err.old) [] (E.taken err.new) (E.failures err.new)) }
    ensures stopped { IfErr result (λ stop. (lines : List ErrorLine) × StopsWanting (F.surroundings files.old) (F.failures files.old) (F.failures files.new) (questions_view questions.now) (status_of stop) lines × TakesLines (E.taken err.old) (E.failures err.old) lines (E.taken err.new) (E.failures err.new)) }
    ensures failed { IfErr result (λ stop. status_of stop ≡ 5 → HasRisen (F.failures files.old) (F.failures files.new)) }
{
    let Wanted { listed, missing } = wanted_of(alloc, questions, files, err)?;
    match listed {
        Ok(asked) => Ok(lines_of(alloc, &asked)?),
        Err(fault) => {
            err.write_report(Message::MacroFault {
                fault: &fault,
                missing: missing.as_deref(),
            });
            Err(RunError::Tree)
        }
    }
}

/// A line for each question, and the exit status: 1 if there are any, else 0.
fn lines_of(alloc: Global, asked: &[Vec<u8>]) -> Result<JobOutput, AllocError>
    ensures text { IfOk result (λ output. output.text.items ≡ questions_text (items_of asked.now)) }
    ensures status { IfOk result (λ output. output.status ≡ status_of_list true (items_of asked.now)) }
{
    let text = question_lines(alloc, asked)?;
    let status = if asked.is_empty() { 0 } else { 1 };
    Ok(JobOutput { text, status })
}

/// A line for each question.
fn question_lines(alloc: Global, asked: &[Vec<u8>]) -> Result<Vec<u8>, AllocError>
    ensures { IfOk result (λ text. text.items ≡ flat_map (λ (q : Vec ℕ Global). question_line q.items) asked.now) }
{
    let mut text = Vec::new(alloc);
    for question in asked {
        text.extend_from_slice(question)?;
        text.push(b'\n')?;
    }
    Ok(text)
}
