//! The expansion of a tree, and the questions that it asks.
ghost use Rattle.std.specs.Prelude.{◌≡◌, ◌≤◌, ℕ, List, Vec, IfOk, OnOk, length, map};
ghost use Rattle.std.specs.declared.alloc.Global.{Global};
ghost use Rattle.kc_macros_model.specs.ReadingStates.{ExpandedFile, initial_state};
ghost use Rattle.kc_macros_model.specs.TreeExpansion.{tree_read};
ghost use Rattle.kc_macros_model.specs.Worlds.{Ending, questions_or_fault, if_all_answered};
ghost use Rattle.kc_answers.specs.RunStates.{open_questions, run_at_start};
ghost use Rattle.kc_macros.specs.Runs.{end_of, ends, notice_of};
ghost use Rattle.kc_expansion.specs.Expansions.{ending_of, tree_of, questions_of, IsCountedExpansion, AreCountedWanted, AreCountedUnused};
ghost use Rattle.kc_files.specs.TreeContents.{StaysKnown};
ghost use Rattle.kc_files.specs.TextViews.{texts_of};
ghost use Rattle.kc_expansion.specs.between.Reads.{Reads};
ghost use Rattle.kc_files.specs.checker.FileViews.{known_of};
ghost use Rattle.kc_expansion.specs.checker.ExpansionViews.{nothing_known, with_root, GoesOn, HasEnded};
ghost use Rattle.kc_expansion.specs.checker.ReadingViews.{state_of, file_run_of};

use super::choice_names::ChoiceNames;
use super::faults::fault;
use super::line_steps::LineState;
use super::open_files::OpenFiles;
use super::read_counts::ReadCounts;
use super::tree_expander::TreeExpander;
use super::tree_reading::read_lines;
use kc_answers::Answers;
use kc_files::{ExpandedFiles, ExpandedTree, FileCache, FileRead, TreeFiles};
use kc_macros::{
    Bindings, ExpansionState, MacroFault, MacroKind, MacroNotice, Place, Stop, with_innermost,
};
use kc_value::{MAX_FILES, MAX_TREE_BYTES, Seed};
use std::alloc::{AllocError, Global};
use std::rc::Rc;

/// The expansion of a tree: its notices, and its expanded files or its fault.
#[derive(Drop)]
pub struct ExpansionOutcome {
    pub notices: Vec<MacroNotice>,
    pub tree: Result<ExpandedTree, MacroFault>,
}

/// The reading of a tree at its start.
fn new_reading(alloc: Global, seed: Seed, answers: &Answers, all_answered: bool) -> TreeExpander<'_>
    ensures run { result.lines.run ≡ run_at_start answers.now all_answered }
    ensures state { state_of result ≡ initial_state }
    ensures known { known_of result.store ≡ nothing_known }
{
    TreeExpander {
        alloc,
        lines: LineState {
            run: ExpansionState::new(alloc, seed, answers, all_answered),
            bindings: Bindings::new(alloc, seed),
            choices: ChoiceNames::new(alloc, seed),
        },
        store: FileCache::new(alloc, seed),
        expanded: ExpandedFiles::new(alloc, seed),
        counts: ReadCounts { files: 0, bytes: 0 },
        listed: 0,
    }
}

/// Reads the first file of a tree and all files that its lines source; returns its expanded text.
fn read_root<F: TreeFiles>(
    reading: &mut TreeExpander<'_>,
    files: &mut F,
    root: &[u8],
) -> Result<Rc<Vec<u8>>, Stop>
    requires initial { state_of reading.old ≡ initial_state }
    ensures reads { Reads (file_run_of (F.contents files.old) reading.old) (file_run_of (F.contents files.new) reading.new) (tree_read root.now) (end_of (λ text. with_root root.now text.value.items reading.new.expanded) result) }
{
    let at = Place {
        file: root,
        line: 0,
    };
    let read = reading.store.file(reading.alloc, files, root)?;
    let bytes = match read {
        FileRead::Whole(bytes) => bytes,
        FileRead::Missing => return Err(fault(reading.alloc, at, MacroKind::MissingFile)),
        FileRead::Unreadable => return Err(fault(reading.alloc, at, MacroKind::MissingFile)),
        FileRead::TooLong => return Err(fault(reading.alloc, at, MacroKind::TooMany)),
    };
    if bytes.len() > MAX_TREE_BYTES {
        return Err(fault(reading.alloc, at, MacroKind::TooMany));
    }
    let paths = with_innermost(reading.alloc, root, &[])?;
    let opened = OpenFiles {
        root,
        paths: &paths,
    };
    reading.counts = ReadCounts {
        files: 1,
        bytes: bytes.len(),
    };
    read_lines(reading, files, &opened, root, bytes)
}

/// The notices of a reading, and its expanded files. Nothing else of it is kept, and it is dropped here and in `into_questions` alone.
fn into_notices(reading: TreeExpander<'_>) -> (Vec<MacroNotice>, ExpandedFiles)
    ensures notices { map notice_of result.0.items ≡ reading.entry.lines.run.notices }
    ensures files { result.1 ≡ reading.entry.expanded }
{
    let TreeExpander {
        lines,
        expanded,
        ..
    } = reading;
    (lines.run.into_notices(), expanded)
}

/// The questions without an answer that a reading asked.
fn into_questions(reading: TreeExpander<'_>) -> Result<Vec<Vec<u8>>, AllocError>
    ensures { IfOk result (λ questions. texts_of questions ≡ open_questions reading.entry.lines.run) }
{
    let TreeExpander { lines, .. } = reading;
    lines.run.into_open_questions()
}

/// The expanded files of a reading that isn't stopped, the first file of the tree last, or the fault of the reading.
fn read_tree(
    alloc: Global,
    read: Result<Rc<Vec<u8>>, Stop>,
    sourced: ExpandedFiles,
    root: &[u8],
) -> Result<Result<ExpandedTree, MacroFault>, AllocError>
    requires goes_on { GoesOn read }
    ensures tree { IfOk result (λ tree. end_of (λ text. with_root root.now text.value.items sourced) read ≡ ends (ending_of (tree_of tree))) }
{
    match read {
        Ok(text) => {
            let root = Vec::from_slice(alloc, root)?;
            Ok(Ok(ExpandedTree::new(sourced, root, text)))
        }
        Err(Stop::Fault(fault)) => Ok(Err(fault)),
        Err(Stop::Unanswered) => unreachable!(),
        Err(Stop::OutOfMemory) => Err(AllocError),
    }
}

/// The expansion of a tree by its first file: each line is written with the values of its macros, and a `source` line is
/// followed where it is read. Each file is opened once at most, and no tree has more than 4,096 expanded files. `answers` has
/// the answers to the questions that macros ask.
///
/// # Errors
///
/// Memory ran out. A fault of the tree, such as a missing file or a question without an answer, is part of the expansion.
pub fn expand<F: TreeFiles>(
    alloc: Global,
    files: &mut F,
    root: &[u8],
    answers: &Answers,
) -> Result<ExpansionOutcome, AllocError>
    ensures same { StaysKnown (F.contents files.old) (F.contents files.new) }
    ensures expanded { IfOk result (λ e. IsCountedExpansion (F.contents files.old) (F.contents files.old).failures (F.contents files.new).failures answers.now root.now (map notice_of e.notices.items) (tree_of e.tree)) }
    ensures few { IfOk result (λ e. IfOk e.tree (λ expanded. length expanded ≤ MAX_FILES)) }
{
    let mut reading = new_reading(alloc, files.seed(), answers, true);
    let read = read_root(&mut reading, files, root);
    let (notices, sourced) = into_notices(reading);
    let tree = read_tree(alloc, read, sourced, root)?;
    Ok(ExpansionOutcome { notices, tree })
}

/// The questions of a reading, or its fault where it asked none.
fn wanted_by(
    read: Result<Rc<Vec<u8>>, Stop>,
    questions: Vec<Vec<u8>>,
) -> Result<Result<Vec<Vec<u8>>, MacroFault>, AllocError>
    ensures ended { OnOk result (HasEnded read) }
    ensures wanted { IfOk result (λ w. (view : Rc (Vec ℕ Global) Global → List ExpandedFile) (e : Ending (List ExpandedFile)) → end_of view read ≡ ends e → questions_of w ≡ questions_or_fault (texts_of questions) e) }
{
    match read {
        Err(Stop::OutOfMemory) => Err(AllocError),
        Err(Stop::Fault(fault)) if questions.is_empty() => Ok(Err(fault)),
        _ => Ok(Ok(questions)),
    }
}

/// The questions without an answer that the macros of a tree ask, each once in order of first appearance; where they ask none,
/// the fault of the tree, if it has one. The reading goes on after a question as far as nothing depends on its answer.
///
/// # Errors
///
/// Memory ran out.
pub fn wants<F: TreeFiles>(
    alloc: Global,
    files: &mut F,
    root: &[u8],
    answers: &Answers,
) -> Result<Result<Vec<Vec<u8>>, MacroFault>, AllocError>
    ensures same { StaysKnown (F.contents files.old) (F.contents files.new) }
    ensures wanted { IfOk result (λ w. AreCountedWanted (F.contents files.old) (F.contents files.old).failures (F.contents files.new).failures answers.now root.now (questions_of w)) }
{
    let mut reading = new_reading(alloc, files.seed(), answers, false);
    let read = read_root(&mut reading, files, root);
    let questions = into_questions(reading)?;
    wanted_by(read, questions)
}

/// The questions of a reading, or its fault where it asked none, and where it has neither these unused ones.
fn unused_by(
    read: Result<Rc<Vec<u8>>, Stop>,
    questions: Vec<Vec<u8>>,
    unused: Vec<Vec<u8>>,
) -> Result<Result<Vec<Vec<u8>>, MacroFault>, AllocError>
    ensures ended { OnOk result (HasEnded read) }
    ensures unused { IfOk result (λ w. (view : Rc (Vec ℕ Global) Global → List ExpandedFile) (e : Ending (List ExpandedFile)) → end_of view read ≡ ends e → questions_of w ≡ if_all_answered (questions_or_fault (texts_of questions) e) (texts_of unused)) }
{
    match wanted_by(read, questions)? {
        Ok(questions) => {
            let listed = if questions.is_empty() {
                unused
            } else {
                questions
            };
            Ok(Ok(listed))
        }
        Err(fault) => Ok(Err(fault)),
    }
}

/// The questions of `answered` that the macros of a tree don't ask, in their order. Where macros ask questions without an answer,
/// it is these, as `wants` returns them, and else the fault of the tree, if it has one.
///
/// # Errors
///
/// Memory ran out.
pub fn unused<F: TreeFiles>(
    alloc: Global,
    files: &mut F,
    root: &[u8],
    answers: &Answers,
    answered: Vec<Vec<u8>>,
) -> Result<Result<Vec<Vec<u8>>, MacroFault>, AllocError>
    ensures same { StaysKnown (F.contents files.old) (F.contents files.new) }
    ensures unused { IfOk result (λ w. AreCountedUnused (F.contents files.old) (F.contents files.old).failures (F.contents files.new).failures answers.now root.now (texts_of answered) (questions_of w)) }
{
    let seed = files.seed();
    let mut reading = new_reading(alloc, seed, answers, false);
    let read = read_root(&mut reading, files, root);
    let mut rest = answered;
    reading.lines.run.keep_not_asked(&mut rest);
    let questions = into_questions(reading)?;
    unused_by(read, questions, rest)
}
