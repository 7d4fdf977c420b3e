//! The answers to the questions of a job's tree, from definitions, answer files and the environment.
ghost use Rattle.std.specs.Prelude.{◌≡◌, ◌∷◌, [], ℕ, ◌≤◌, List, Some, None, IfOk, IfErr, OnOk, map, option_map, string_bytes};
ghost use Rattle.std.specs.Borrow.{Bor};
ghost use Rattle.std.specs.Option.{option_or};
ghost use Rattle.kc_tree_model.specs.Keywords.{keyword_in_table};
ghost use Rattle.kmin_options.specs.Jobs.{definition_view, expansion_view};
ghost use Rattle.kmin_inputs.specs.JobAnswers.{FilesRecord, AreJobAnswers, defined_answer, answer_of_variable};
ghost use Rattle.kc_answers.specs.ReadAnswers.{AreRecorded};
ghost use Rattle.kmin_inputs.specs.AnswerStops.{StopsAmongAnswers, answers_status};
ghost use Rattle.kmin_report.specs.StandardError.{TakesLines};
ghost use Rattle.kc_files.specs.TreeContents.{HasRisen};
ghost use Rattle.kmin_inputs.specs.between.AnswerSteps.{StopsReading, StopsAtAnswersPath, AreLent, AnswersAndQuestions, answers_lines};
ghost use Rattle.kc_files.specs.TextViews.{texts_of};
ghost use Rattle.kmin_report.specs.between.RunErrors.{status_of};
ghost use Rattle.kmin_report.specs.Reports.{ErrorLine};

use crate::files::Files;
use kc_answers::Answers;
use kc_macros::{AnswersFault, AnswersKind};
use kc_value::{MAX_VARIABLE_BYTES, Source, has_newline};
use kmin_options::{Definition, ExpansionOptions};
use kmin_report::{Message, Messages, RunError};
use std::alloc::{AllocError, Global};

/// The answers to the questions of a job's tree: by its definitions, else by its answer files, else by the environment.
/// Reports why an answer file is refused.
pub fn job_answers<F: Files, E: Messages>(
    alloc: Global,
    expansion: &ExpansionOptions<'_>,
    files: &mut F,
    err: &mut E,
) -> Result<Answers, RunError>
    ensures same { F.surroundings files.new ≡ F.surroundings files.old }
    ensures answers { IfOk result (AreJobAnswers (F.surroundings files.old).content (F.surroundings files.old).variable (expansion_view expansion.now)) }
    ensures unreported { OnOk result (TakesLines (E.taken err.old) (E.failures err.old) [] (E.taken err.new) (E.failures err.new)) }
    ensures stopped { IfErr result (λ stop. (lines : List ErrorLine) × StopsAmongAnswers (F.surroundings files.old).content (expansion_view expansion.now).answers (status_of stop) lines × TakesLines (E.taken err.old) (E.failures err.old) lines (E.taken err.new) (E.failures err.new)) }
    ensures rising { F.failures files.old ≤ F.failures files.new }
    ensures failed { IfErr result (λ stop. status_of stop ≡ 5 → HasRisen (F.failures files.old) (F.failures files.new)) }
{
    let mut answers = file_answers(alloc, &expansion.answers, files, err)?;
    define(&expansion.definitions, &mut answers)?;
    answer_from_environment(alloc, &expansion.environment, files, &mut answers)?;
    Ok(answers)
}

/// The answers that `job_answers` makes, and the questions that the answer files answer, in order of their first answers.
pub fn answers_and_questions<F: Files, E: Messages>(
    alloc: Global,
    expansion: &ExpansionOptions<'_>,
    files: &mut F,
    err: &mut E,
) -> Result<(Answers, Vec<Vec<u8>>), RunError>
    ensures same { F.surroundings files.new ≡ F.surroundings files.old }
    ensures answers { IfOk result (λ r. AnswersAndQuestions (F.surroundings files.old).content (F.surroundings files.old).variable (expansion_view expansion.now) r.0 (texts_of r.1)) }
    ensures unreported { OnOk result (TakesLines (E.taken err.old) (E.failures err.old) [] (E.taken err.new) (E.failures err.new)) }
    ensures stopped { IfErr result (λ stop. (lines : List ErrorLine) × StopsAmongAnswers (F.surroundings files.old).content (expansion_view expansion.now).answers (status_of stop) lines × TakesLines (E.taken err.old) (E.failures err.old) lines (E.taken err.new) (E.failures err.new)) }
    ensures rising { F.failures files.old ≤ F.failures files.new }
    ensures failed { IfErr result (λ stop. status_of stop ≡ 5 → HasRisen (F.failures files.old) (F.failures files.new)) }
{
    let mut answers = file_answers(alloc, &expansion.answers, files, err)?;
    let answered = answers.questions()?;
    define(&expansion.definitions, &mut answers)?;
    answer_from_environment(alloc, &expansion.environment, files, &mut answers)?;
    Ok((answers, answered))
}

/// Reads answer files, one after another. Reports why one is refused.
fn file_answers<F: Files, E: Messages>(
    alloc: Global,
    paths: &[&str],
    files: &mut F,
    err: &mut E,
) -> Result<Answers, RunError>
    ensures same { F.surroundings files.new ≡ F.surroundings files.old }
    ensures recorded { IfOk result (λ answers. FilesRecord (F.surroundings files.old).content (map (λ (path : Bor (List ℕ)). path.now) paths.now) [] answers) }
    ensures unreported { OnOk result (TakesLines (E.taken err.old) (E.failures err.old) [] (E.taken err.new) (E.failures err.new)) }
    ensures stopped { IfErr result (λ stop. (lines : List ErrorLine) × StopsAmongAnswers (F.surroundings files.old).content (map (λ (path : Bor (List ℕ)). path.now) paths.now) (status_of stop) lines × TakesLines (E.taken err.old) (E.failures err.old) lines (E.taken err.new) (E.failures err.new)) }
    ensures rising { F.failures files.old ≤ F.failures files.new }
    ensures failed { IfErr result (λ stop. status_of stop ≡ 5 → HasRisen (F.failures files.old) (F.failures files.new)) }
{
    let mut answers = Answers::new(alloc, files.seed());
    for path in paths {
        record_path(path, files, &mut answers, err)?;
    }
    Ok(answers)
}

/// Reads one more answer file by its path. Reports why it is refused.
fn record_path<F: Files, E: Messages>(
    path: &str,
    files: &mut F,
    answers: &mut Answers,
    err: &mut E,
) -> Result<(), RunError>
    ensures same { F.surroundings files.new ≡ F.surroundings files.old }
    ensures recorded { OnOk result (FilesRecord (F.surroundings files.old).content (path.now ∷ []) answers.old answers.new) }
    ensures unreported { OnOk result (TakesLines (E.taken err.old) (E.failures err.old) [] (E.taken err.new) (E.failures err.new)) }
    ensures stopped { IfErr result (λ stop. (lines : List ErrorLine) × StopsAtAnswersPath ((F.surroundings files.old).content path.now) answers.old path.now (status_of stop) lines × TakesLines (E.taken err.old) (E.failures err.old) lines (E.taken err.new) (E.failures err.new)) }
    ensures rising { F.failures files.old ≤ F.failures files.new }
    ensures failed { IfErr result (λ stop. status_of stop ≡ 5 → HasRisen (F.failures files.old) (F.failures files.new)) }
{
    match files.reader_for(path) {
        Some(mut reader) => {
            let recorded = record(path, &mut reader, answers, err);
            files.close(reader);
            recorded
        }
        None => {
            let kind = AnswersKind::Read;
            let fault = AnswersFault { line: 0, kind };
            Err(report_answers_fault(path, fault, err))
        }
    }
}

/// Reads one more answer file from a reader. Reports why it is refused.
fn record<S: Source, E: Messages>(
    path: &str,
    source: &mut S,
    answers: &mut Answers,
    err: &mut E,
) -> Result<(), RunError>
    ensures recorded { OnOk result (AreRecorded (S.left source.old) (S.left source.new) answers.old answers.new) }
    ensures unreported { OnOk result (TakesLines (E.taken err.old) (E.failures err.old) [] (E.taken err.new) (E.failures err.new)) }
    ensures stopped { IfErr result (λ stop. StopsReading path.now (S.left source.old) (S.left source.new) (S.failures source.old) (S.failures source.new) answers.old (status_of stop) (E.taken err.old) (E.failures err.old) (E.taken err.new) (E.failures err.new)) }
    ensures failed { IfErr result (λ stop. status_of stop ≡ 5 → HasRisen (S.failures source.old) (S.failures source.new)) }
{
    match answers.read(source) {
        Ok(()) => Ok(()),
        Err(fault) => Err(report_answers_fault(path, fault, err)),
    }
}

/// Reports a fault of an answer file, and returns the error that ends the run. Out of memory is reported later.
fn report_answers_fault<E: Messages>(path: &str, fault: AnswersFault, err: &mut E) -> RunError
    ensures status { status_of result ≡ answers_status fault.kind }
    ensures reported { TakesLines (E.taken err.old) (E.failures err.old) (answers_lines path.now fault.line fault.kind) (E.taken err.new) (E.failures err.new) }
{
    let AnswersFault { line, kind } = fault;
    match kind {
        AnswersKind::OutOfMemory => RunError::Memory,
        AnswersKind::Read => {
            err.write_report(Message::AnswersFault { path, line, kind });
            RunError::Failed
        }
        _ => {
            err.write_report(Message::AnswersFault { path, line, kind });
            RunError::Configuration
        }
    }
}

/// Gives names the values of definitions, in place of those that they have. The last definition of a name counts.
fn define(definitions: &[Definition<'_>], answers: &mut Answers) -> Result<(), AllocError>
    ensures { OnOk result ((question : List ℕ) → keyword_in_table answers.new question ≡ option_or (defined_answer (map definition_view definitions.now) question) (keyword_in_table answers.old question)) }
{
    for definition in definitions {
        let value = definition.value.as_bytes();
        answers.set(definition.name.as_bytes(), Some(value))?;
    }
    Ok(())
}

/// Gives each of these names that has no answer its value in the environment.
fn answer_from_environment<F: Files>(
    alloc: Global,
    names: &[&str],
    files: &mut F,
    answers: &mut Answers,
) -> Result<(), AllocError>
    ensures same { F.surroundings files.new ≡ F.surroundings files.old }
    ensures lent { OnOk result (AreLent (F.surroundings files.old).variable (map (λ (name : Bor (List ℕ)). name.now) names.now) answers.old answers.new) }
    ensures uncounted { F.failures files.new ≡ F.failures files.old }
{
    for name in names {
        answer_one_from_environment(alloc, name, files, answers)?;
    }
    Ok(())
}

/// Gives a name that has no answer its value in the environment.
fn answer_one_from_environment<F: Files>(
    alloc: Global,
    name: &str,
    files: &mut F,
    answers: &mut Answers,
) -> Result<(), AllocError>
    ensures same { F.surroundings files.new ≡ F.surroundings files.old }
    ensures lent { OnOk result (AreLent (F.surroundings files.old).variable (name.now ∷ []) answers.old answers.new) }
    ensures uncounted { F.failures files.new ≡ F.failures files.old }
{
    let question = name.as_bytes();
    if answers.has(question) {
        return Ok(());
    }
    let value = files.variable(alloc, name)?;
    answers.set(question, usable_value(&value))
}

/// The value of a variable, if it can be an answer: it has no newline, and at most `MAX_VARIABLE_BYTES` bytes.
fn usable_value(value: &Option<String>) -> Option<&[u8]>
    ensures { option_map (λ t. t.now) result ≡ answer_of_variable (option_map string_bytes value.now) }
{
    let bytes = value.as_ref()?.as_bytes();
    if has_newline(bytes) || bytes.len() > MAX_VARIABLE_BYTES {
        None
    } else {
        Some(bytes)
    }
}
