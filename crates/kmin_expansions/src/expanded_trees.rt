//! The expansion of a tree: its expanded files, and the questions of its macros that are open.
ghost use Rattle.std.specs.Prelude.{◌≡◌, ◌≤◌, ℕ, List, Ok, IfOk, IfErr, OnOk, map, slice_get, if◌then◌else◌};
ghost use Rattle.std.specs.Str.{is_utf8};
ghost use Rattle.kc_answers.specs.RunStates.{questions_of as recorded_questions};
ghost use Rattle.kc_macros_model.specs.AnswerFiles.{RecordedAnswers};
ghost use Rattle.kc_macros_model.specs.Programs.{Notice};
ghost use Rattle.kc_macros.specs.Runs.{notice_of};
ghost use Rattle.kc_expansion.specs.Expansions.{IsExpansion, IsCountedExpansion, tree_of, questions_of};
ghost use Rattle.kc_files.specs.TextViews.{texts_of};
ghost use Rattle.kc_files.specs.TreeContents.{StaysKnown};
ghost use Rattle.kc_tree_model.specs.TreeFiles.{with_file};
ghost use Rattle.kmin_expansions.specs.JobTexts.{expanded_texts};
ghost use Rattle.kmin_expansions.specs.TreeFolders.{contents_below};
ghost use Rattle.kmin_expansions.specs.WantedQuestions.{AreListed};
ghost use Rattle.kmin_report.specs.Reports.{ErrorLine, macro_notice_line};
ghost use Rattle.kmin_report.specs.StandardError.{TakesLines};
ghost use Rattle.kmin_expansions.specs.between.FilesByPlace.{with_file_at};
ghost use Rattle.kmin_expansions.specs.between.ExpansionStops.{StopsExpanding};
ghost use Rattle.kmin_report.specs.between.RunErrors.{status_of};

use crate::tree_folder::{TreeFolder, utf8_or_none};
use kc_answers::Answers;
use kc_expansion::{ExpandedTree, ExpansionOutcome, expand, unused, wants};
use kc_files::TreeFiles;
use kc_macros::{MacroFault, MacroNotice};
use kc_tokens::Language;
use kc_tree::Texts;
use kc_value::Seed;
use kmin_inputs::Files;
use kmin_options::{Questions, Settings};
use kmin_report::{Message, Messages, RunError};
use std::alloc::{AllocError, Global};
use std::rc::Rc;

/// A tree whose macros are expanded, and its expanded files as the texts to read as a Kconfig tree.
#[derive(Drop)]
pub struct ExpandedTexts {
    pub tree: ExpandedTree,
    pub texts: Texts,
}

/// The expansion of a tree below a folder, and the path of the file that couldn't be opened last, if that is known.
#[derive(Drop)]
struct FolderExpansion {
    notices: Vec<MacroNotice>,
    tree: Result<ExpandedTree, MacroFault>,
    missing: Option<Vec<u8>>,
}

/// What `wants` lists of a tree's macros, and the path of the file that couldn't be opened last, if that is known.
#[derive(Drop)]
pub struct Wanted {
    /// The questions, or the fault of the expansion where it lists none.
    pub listed: Result<Vec<Vec<u8>>, MacroFault>,
    pub missing: Option<Vec<u8>>,
}

/// Expands the macros of a job's tree. Reports the notices of the expansion, and its fault.
///
/// # Errors
///
/// `RunError::Tree` at a fault of the expansion, which is reported; `RunError::Memory` if memory runs out.
pub fn expanded_tree<F: Files, E: Messages>(
    alloc: Global,
    settings: &Settings<'_>,
    answers: &Answers,
    files: &mut F,
    err: &mut E,
) -> Result<ExpandedTexts, RunError>
    ensures same { (F.surroundings files.new).content ≡ (F.surroundings files.old).content }
    ensures texts { IfOk result (λ t. t.texts ≡ expanded_texts settings.now.language t.tree) }
    ensures expanded { IfOk result (λ t. (notices : List Notice) × IsExpansion (contents_below (F.surroundings files.old) settings.now.root.now) answers.now settings.now.tree.now notices (Ok t.tree) × TakesLines (E.taken err.old) (E.failures err.old) (map macro_notice_line notices) (E.taken err.new) (E.failures err.new)) }
    ensures stopped { IfErr result (λ stop. (lines : List ErrorLine) × StopsExpanding (contents_below (F.surroundings files.old) settings.now.root.now) (F.failures files.old) (F.failures files.new) answers.now settings.now.tree.now (status_of stop) lines × TakesLines (E.taken err.old) (E.failures err.old) lines (E.taken err.new) (E.failures err.new)) }
    ensures rising { F.failures files.old ≤ F.failures files.new }
{
    let seed = files.seed();
    let FolderExpansion {
        notices,
        tree,
        missing,
    } = expansion_below(alloc, settings.root, settings.tree, answers, files)?;
    match tree {
        Ok(expanded) => {
            let texts = texts_of(alloc, seed, settings.language, &expanded)?;
            report_macro_notices(&notices, err);
            Ok(ExpandedTexts {
                tree: expanded,
                texts,
            })
        }
        Err(fault) => {
            report_macro_notices(&notices, err);
            let missing = borrowed(&missing);
            err.write_report(Message::MacroFault {
                fault: &fault,
                missing,
            });
            Err(RunError::Tree)
        }
    }
}

/// A path, borrowed.
fn borrowed(path: &Option<Vec<u8>>) -> Option<&[u8]> {
    match path {
        Some(path) => Some(path.as_slice()),
        None => None,
    }
}

/// The expansion of the tree below a folder, with the path of the file that couldn't be opened, if none was asked for after it.
fn expansion_below<F: Files>(
    alloc: Global,
    root: &str,
    first: &str,
    answers: &Answers,
    files: &mut F,
) -> Result<FolderExpansion, AllocError>
    ensures same { (F.surroundings files.new).content ≡ (F.surroundings files.old).content }
    ensures expanded { IfOk result (λ e. IsCountedExpansion (contents_below (F.surroundings files.old) root.now) (F.failures files.old) (F.failures files.new) answers.now first.now (map notice_of e.notices.items) (tree_of e.tree)) }
    ensures rising { F.failures files.old ≤ F.failures files.new }
{
    let mut missing = None;
    let mut tree = TreeFolder {
        files,
        root,
        missing: &mut missing,
    };
    let ExpansionOutcome {
        notices,
        tree: expanded,
    } = expand(alloc, &mut tree, first.as_bytes(), answers)?;
    Ok(FolderExpansion {
        notices,
        tree: expanded,
        missing,
    })
}

/// What `wants` lists of the macros of a job's tree, as `listed_in` does, with the path of the file that couldn't be opened, if none was
/// asked for after it.
pub(crate) fn wanted_below<F: Files>(
    alloc: Global,
    questions: &Questions<'_>,
    answers: &Answers,
    answered: Vec<Vec<u8>>,
    files: &mut F,
) -> Result<Wanted, AllocError>
    ensures asked { IfOk result (λ w. (recorded : RecordedAnswers) → texts_of answered ≡ recorded_questions recorded → AreListed questions.now.unused (contents_below (F.surroundings files.old) questions.now.root.now) (F.failures files.old) (F.failures files.new) answers.now recorded questions.now.tree.now (questions_of w.listed)) }
    ensures rising { F.failures files.old ≤ F.failures files.new }
{
    let mut missing = None;
    let mut tree = TreeFolder {
        files,
        root: questions.root,
        missing: &mut missing,
    };
    let listed = listed_in(alloc, questions, &mut tree, answers, answered)?;
    Ok(Wanted { listed, missing })
}

/// What `wants` lists of the macros of a tree with these answers, of which those to the questions `answered` are of answer files: the open
/// questions, with `--unused` those of `answered` that the tree doesn't ask where none is open, or the fault of its expansion.
fn listed_in<F: TreeFiles>(
    alloc: Global,
    questions: &Questions<'_>,
    tree: &mut F,
    answers: &Answers,
    answered: Vec<Vec<u8>>,
) -> Result<Result<Vec<Vec<u8>>, MacroFault>, AllocError>
    ensures same { StaysKnown (F.contents tree.old) (F.contents tree.new) }
    ensures listed { IfOk result (λ listed. (recorded : RecordedAnswers) → texts_of answered ≡ recorded_questions recorded → AreListed questions.now.unused (F.contents tree.old) (F.contents tree.old).failures (F.contents tree.new).failures answers.now recorded questions.now.tree.now (questions_of listed)) }
{
    let first = questions.tree.as_bytes();
    if questions.unused {
        unused(alloc, tree, first, answers, answered)
    } else {
        wants(alloc, tree, first, answers)
    }
}

/// The texts of expanded files by their keys, in a language; a file whose key isn't UTF-8 is left out.
fn texts_of(
    alloc: Global,
    seed: Seed,
    language: Language,
    tree: &ExpandedTree,
) -> Result<Texts, AllocError>
    ensures { IfOk result (λ texts. texts ≡ expanded_texts language tree.now) }
{
    let mut texts = Texts::with_language(alloc, seed, language);
    for at in 0..tree.len() {
        insert_at(tree, at, &mut texts)?;
    }
    Ok(texts)
}

/// Inserts the expanded file at a place of the tree, if there is one.
fn insert_at(tree: &ExpandedTree, at: usize, texts: &mut Texts) -> Result<(), AllocError>
    ensures { OnOk result (texts.new ≡ with_file_at (slice_get tree.now at) texts.old) }
{
    match tree.get(at) {
        Some(file) => insert(file.key, file.text, texts),
        None => Ok(()),
    }
}

/// Inserts a text under its key, if that is UTF-8.
fn insert(key: &[u8], text: &Rc<Vec<u8>>, texts: &mut Texts) -> Result<(), AllocError>
    ensures { OnOk result (texts.new ≡ (if is_utf8 key.now then with_file texts.old key.now text.now.value.items else texts.old)) }
{
    match utf8_or_none(key) {
        Some(key) => texts.insert_shared(key, text.clone()?),
        None => Ok(()),
    }
}

/// Reports the notices of an expansion.
fn report_macro_notices<E: Messages>(notices: &[MacroNotice], err: &mut E)
    ensures { TakesLines (E.taken err.old) (E.failures err.old) (map (λ notice. macro_notice_line (notice_of notice)) notices.now) (E.taken err.new) (E.failures err.new) }
{
    for notice in notices {
        err.write_report(Message::MacroNotice(notice));
    }
}
