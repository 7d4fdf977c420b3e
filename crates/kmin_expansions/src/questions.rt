//! The open questions of the macros of a job's tree, and the answers that they don't use.
ghost use Rattle.std.specs.Prelude.{◌≡◌, [], List, IfOk, IfErr};
ghost use Rattle.kc_expansion.specs.Expansions.{questions_of};
ghost use Rattle.kmin_options.specs.Jobs.{questions_view};
ghost use Rattle.kmin_expansions.specs.WantedQuestions.{AreAsked, StopsWanting};
ghost use Rattle.kmin_report.specs.StandardError.{TakesLines};
ghost use Rattle.kc_files.specs.TreeContents.{HasRisen};
ghost use Rattle.kmin_report.specs.between.RunErrors.{status_of};
ghost use Rattle.kmin_report.specs.Reports.{ErrorLine};

use crate::expanded_trees::{Wanted, wanted_below};
use kmin_inputs::{Files, answers_and_questions};
use kmin_options::Questions;
use kmin_report::{Messages, RunError};
use std::alloc::Global;

/// The questions that `wants` lists of a tree's macros, or the fault of the expansion, with the path of the file that couldn't be
/// opened last, if that is known. Reports why an answer file is refused.
pub fn wanted_of<F: Files, E: Messages>(
    alloc: Global,
    questions: &Questions<'_>,
    files: &mut F,
    err: &mut E,
) -> Result<Wanted, RunError>
    ensures asked { IfOk result (λ wanted. AreAsked (F.surroundings files.old) (F.failures files.old) (F.failures files.new) (questions_view questions.now) (questions_of wanted.listed)) }
    ensures unreported { IfOk result (λ wanted. TakesLines (E.taken err.old) (E.failures err.old) [] (E.taken err.new) (E.failures err.new)) }
    ensures stopped { IfErr result (λ stop. (lines : List ErrorLine) × StopsWanting (F.surroundings files.old) (F.failures files.old) (F.failures files.new) (questions_view questions.now) (status_of stop) lines × TakesLines (E.taken err.old) (E.failures err.old) lines (E.taken err.new) (E.failures err.new)) }
    ensures failed { IfErr result (λ stop. status_of stop ≡ 5 → HasRisen (F.failures files.old) (F.failures files.new)) }
{
    let (answers, answered) = answers_and_questions(alloc, &questions.expansion, files, err)?;
    let wanted = wanted_below(alloc, questions, &answers, answered, files);
    drop(answers);
    Ok(wanted?)
}
