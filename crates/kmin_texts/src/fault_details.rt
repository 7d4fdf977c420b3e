//! The details of faults, by the files and the tree that they are of.
ghost use Rattle.std.specs.Prelude.{◌≡◌, ◌==◌, ℕ, true, List, Some, IfOk, IfSome, option_map};
ghost use Rattle.std.specs.Global.{Vec};
ghost use Rattle.std.specs.List.{list_any};
ghost use Rattle.kc_dotconfig_model.specs.between.Prefixes.{prefix_bytes};
ghost use Rattle.kc_macros.specs.Runs.{fault_of};
ghost use Rattle.kc_macros_model.specs.declared.fault.MacroKind.TheVariants.{TooMany};
ghost use Rattle.kmin_report.specs.between.ReportLines.{report_line};
ghost use Rattle.kmin_texts.specs.KnownLines.{IsReread, KnownFile};
ghost use Rattle.kmin_texts.specs.LineDetails.{is_detail_of, is_given, is_of_macro_fault, is_of_missing, is_one_of, never, no_detail, on_answers_line, on_expanded_line, on_file_line, on_tree_line, path_details, sourced, sourced_on, unread, unread_answers, unread_file};
ghost use Rattle.kmin_texts.specs.NumberedLines.{line_at};
ghost use Rattle.kmin_texts.specs.declared.line_files.Reread.TheVariants.{Hidden};
ghost use Rattle.kmin_texts.specs.between.KeptDetails.{HasMacroAt, MayBe, hidden_kept, kept_detail};

use crate::form_messages::Wording;
use crate::kept_details::{KeptDetail, hidden, limit_detail, path_detail};
use crate::line_files::{LineFiles, Reread};
use crate::numbered_lines::utf8_or_none;
use crate::text_details::{TreeTexts, first_detail, passed_limit};
use kc_dotconfig_model::LoadKind;
use kc_macros::MacroFault;
use kc_macros_model::{AnswersKind, MacroKind};
use kc_tokens::Language;
use kc_tree_model::TreeKind;
use kmin_details::{file_line_text, first_run, first_word, tree_line_text};
use kmin_faults::{Limit, expansion_limit, is_open, sourced_path};
use kmin_report::Message;
use std::alloc::{AllocError, Global};

/// The detail of a fault: what the line at fault has, the limit that it passes, the place of a first definition, or why a file can't be
/// read; `Nothing` for another report. An `Err` means out of memory.
pub(crate) fn fault_detail<L: LineFiles>(
    alloc: Global,
    wording: &Wording<'_>,
    report: &Message<'_>,
    files: &mut L,
) -> Result<KeptDetail, AllocError>
    ensures { IfOk result (λ detail. MayBe (is_detail_of wording.now.root.now wording.now.language (prefix_bytes wording.now.prefix.now) L.known (report_line report.now)) (kept_detail detail)) }
{
    match report {
        Message::TreeFault {
            path,
            line,
            kind,
            file,
            texts,
            first,
            expanded,
        } => {
            let tree = TreeTexts {
                texts,
                first,
                expanded: *expanded,
            };
            match kind {
                TreeKind::TooMany => passed_limit(alloc, &tree, *file, *line),
                TreeKind::TypeConflict => {
                    first_detail(alloc, wording.root, &tree, true, *file, *line)
                }
                TreeKind::ChoiceMember => {
                    first_detail(alloc, wording.root, &tree, false, *file, *line)
                }
                TreeKind::MissingFile => { missing_at(alloc, wording, path, *line, files) }
                _ => tree_detail(alloc, wording, path, *line, *kind, files),
            }
        }
        Message::FileFault { path, line, kind } => {
            let reread = files.named_line(alloc, path, *line)?;
            file_detail(alloc, *kind, &reread)
        }
        Message::AnswersFault { path, line, kind } => {
            let reread = files.named_line(alloc, path, *line)?;
            answers_detail(alloc, *kind, &reread)
        }
        Message::MacroFault { fault, missing } => {
            macro_detail(alloc, wording, fault, *missing, files)
        }
        _ => Ok(KeptDetail::Nothing),
    }
}

/// The detail of a fault of a tree, by the line at fault.
fn tree_detail<L: LineFiles>(
    alloc: Global,
    wording: &Wording<'_>,
    path: &[u8],
    line: u32,
    kind: TreeKind,
    files: &mut L,
) -> Result<KeptDetail, AllocError>
    ensures { IfOk result (λ detail. MayBe (is_given (L.known.tree wording.now.root.now path.now) (λ bytes. on_tree_line wording.now.language kind (line_at bytes line)) never) (kept_detail detail)) }
{
    let reread = files.tree_line(alloc, wording.root, path, line)?;
    tree_line_detail(alloc, wording.language, kind, &reread)
}

/// The detail of a fault of a tree, by the line at fault as it was read once more.
fn tree_line_detail(
    alloc: Global,
    language: Language,
    kind: TreeKind,
    reread: &Reread,
) -> Result<KeptDetail, AllocError>
    ensures given { (known : KnownFile) (number : ℕ) → IsReread known number reread.now
        → IfOk result (λ detail. MayBe (is_given known (λ bytes. on_tree_line language kind (line_at bytes number)) never) (kept_detail detail)) }
    ensures hidden { (line : Vec ℕ) → reread.now ≡ Hidden line → IfOk result (λ detail. kept_detail detail ≡ no_detail) }
{
    match reread {
        Reread::Shown(line) => shown_detail(alloc, language, kind, line),
        _ => Ok(KeptDetail::Nothing),
    }
}

/// The detail of a fault of a tree, by the line at fault, whose words may be shown; none where it isn't UTF-8.
fn shown_detail(
    alloc: Global,
    language: Language,
    kind: TreeKind,
    line: &[u8],
) -> Result<KeptDetail, AllocError>
    ensures { IfOk result (λ detail. MayBe (is_one_of (on_tree_line language kind (Some line.now))) (kept_detail detail)) }
{
    match utf8_or_none(line) {
        Some(line) => {
            let text = tree_line_text(alloc, language, kind, line)?;
            Ok(KeptDetail::Words(text))
        }
        None => Ok(KeptDetail::Nothing),
    }
}

/// The detail of a fault of a configuration file.
fn file_detail(alloc: Global, kind: LoadKind, reread: &Reread) -> Result<KeptDetail, AllocError>
    ensures given { (known : KnownFile) (number : ℕ) → IsReread known number reread.now
        → IfOk result (λ detail. MayBe (is_given known (λ bytes. on_file_line kind (line_at bytes number)) (unread_file kind)) (kept_detail detail)) }
    ensures hidden { (line : Vec ℕ) → reread.now ≡ Hidden line → IfOk result (λ detail. kept_detail detail ≡ no_detail) }
{
    match reread {
        Reread::Shown(line) => {
            let text = file_line_text(alloc, kind, line)?;
            Ok(KeptDetail::Words(text))
        }
        Reread::Unread(why) => match kind {
            LoadKind::Read => Ok(KeptDetail::Unread(*why)),
            _ => Ok(KeptDetail::Nothing),
        },
        _ => Ok(KeptDetail::Nothing),
    }
}

/// The detail of a fault of a file of answers.
fn answers_detail(
    alloc: Global,
    kind: AnswersKind,
    reread: &Reread,
) -> Result<KeptDetail, AllocError>
    ensures given { (known : KnownFile) (number : ℕ) → IsReread known number reread.now
        → IfOk result (λ detail. MayBe (is_given known (λ bytes. on_answers_line kind (line_at bytes number)) (unread_answers kind)) (kept_detail detail)) }
    ensures hidden { (line : Vec ℕ) → reread.now ≡ Hidden line → IfOk result (λ detail. kept_detail detail ≡ no_detail) }
{
    match reread {
        Reread::Shown(line) => match kind {
            AnswersKind::Malformed => {
                let text = first_run(alloc, line)?;
                Ok(KeptDetail::Words(text))
            }
            _ => Ok(KeptDetail::Nothing),
        },
        Reread::Unread(why) => match kind {
            AnswersKind::Read => Ok(KeptDetail::Unread(*why)),
            _ => Ok(KeptDetail::Nothing),
        },
        _ => Ok(KeptDetail::Nothing),
    }
}

/// The detail of a fault of an expansion, in which the file at the path `missing` couldn't be opened last.
fn macro_detail<L: LineFiles>(
    alloc: Global,
    wording: &Wording<'_>,
    fault: &MacroFault,
    missing: Option<&[u8]>,
    files: &mut L,
) -> Result<KeptDetail, AllocError>
    ensures { IfOk result (λ detail. MayBe (is_of_macro_fault wording.now.language (L.known.tree wording.now.root.now) (fault_of fault.now) fault.now.kind) (kept_detail detail)) }
{
    match fault.kind {
        MacroKind::MissingFile => macro_missing(alloc, wording, fault, missing, files),
        MacroKind::TooMany => macro_limit(alloc, wording, fault, files),
        _ => {
            let text = String::from_utf8_lossy(alloc, fault.text.as_slice())?;
            Ok(KeptDetail::Words(text))
        }
    }
}

/// The detail of an expansion that passes a limit.
fn macro_limit<L: LineFiles>(
    alloc: Global,
    wording: &Wording<'_>,
    fault: &MacroFault,
    files: &mut L,
) -> Result<KeptDetail, AllocError>
    ensures { IfOk result (λ detail. MayBe (is_of_macro_fault wording.now.language (L.known.tree wording.now.root.now) (fault_of fault.now) TooMany) (kept_detail detail)) }
{
    if fault.line == 0 {
        return Ok(KeptDetail::Limit(Limit::TreeBytes));
    }
    let reread = files.tree_line(alloc, wording.root, fault.file.as_slice(), fault.line)?;
    Ok(expansion_detail(&reread))
}

/// The limit that a line passes in the expansion of its tree, if that is known.
fn expansion_detail(reread: &Reread) -> KeptDetail
    ensures { (known : KnownFile) (number : ℕ) → IsReread known number reread.now
        → MayBe (is_given known (λ bytes. on_expanded_line (line_at bytes number)) never) (kept_detail result) }
{
    match reread {
        Reread::Shown(line) | Reread::Hidden(line) => expanded_line_detail(line),
        _ => KeptDetail::Nothing,
    }
}

/// The limit that a line passes in the expansion of its tree, if that is known, by its first word.
fn expanded_line_detail(line: &[u8]) -> KeptDetail
    ensures { MayBe (is_one_of (on_expanded_line (Some line.now))) (kept_detail result) }
{
    limit_detail(expansion_limit(first_word(line)))
}

/// The detail of a line of an expansion that sources a file that can't be read.
fn macro_missing<L: LineFiles>(
    alloc: Global,
    wording: &Wording<'_>,
    fault: &MacroFault,
    missing: Option<&[u8]>,
    files: &mut L,
) -> Result<KeptDetail, AllocError>
    ensures { IfOk result (λ detail. MayBe (is_of_missing wording.now.language (L.known.tree wording.now.root.now) (L.known.tree wording.now.root.now (fault_of fault.now).at.file) (fault_of fault.now).at.file (fault_of fault.now).at.line) (kept_detail detail)) }
{
    let file = fault.file.as_slice();
    let reread = files.tree_line(alloc, wording.root, file, fault.line)?;
    match macro_path(&reread, missing) {
        Some(path) => why_detail(alloc, wording, path, files),
        None => missing_detail(alloc, wording, file, &reread, files),
    }
}

/// The path `missing`, where it is that of a line with a macro, whose words may be shown.
fn macro_path<'a>(reread: &Reread, missing: Option<&'a [u8]>) -> Option<&'a [u8]>
    ensures has_macro { (known : KnownFile) (number : ℕ) → IsReread known number reread.now → IfSome result (λ _. HasMacroAt known number) }
    ensures shown { (line : Vec ℕ) → reread.now ≡ Hidden line → IfSome result (λ _. ⊥) }
{
    match reread {
        Reread::Shown(line) if has_macro(line) => missing,
        _ => None,
    }
}

/// Whether a line has a `$`.
fn has_macro(line: &[u8]) -> bool
    ensures { result ≡ list_any (λ b. b == 36) line.now }
{
    line.iter().any(|byte| *byte == b'$')
}

/// The detail of a line of the file at the path `file` that sources a file that can't be read, or of a first file that can't be read.
fn missing_at<L: LineFiles>(
    alloc: Global,
    wording: &Wording<'_>,
    file: &[u8],
    line: u32,
    files: &mut L,
) -> Result<KeptDetail, AllocError>
    ensures { IfOk result (λ detail. MayBe (is_given (L.known.tree wording.now.root.now file.now) (λ bytes. sourced_on (L.known.tree wording.now.root.now) wording.now.language file.now (line_at bytes line)) unread) (kept_detail detail)) }
{
    let reread = files.tree_line(alloc, wording.root, file, line)?;
    missing_detail(alloc, wording, file, &reread, files)
}

/// The same of the line as it was read once more.
fn missing_detail<L: LineFiles>(
    alloc: Global,
    wording: &Wording<'_>,
    file: &[u8],
    reread: &Reread,
    files: &mut L,
) -> Result<KeptDetail, AllocError>
    ensures { (known : KnownFile) (number : ℕ) → IsReread known number reread.now
        → IfOk result (λ detail. MayBe (is_given known (λ bytes. sourced_on (L.known.tree wording.now.root.now) wording.now.language file.now (line_at bytes number)) unread) (kept_detail detail)) }
{
    match reread {
        Reread::Shown(line) => source_detail(alloc, wording, file, line, files),
        Reread::Hidden(line) => {
            let detail = source_detail(alloc, wording, file, line, files)?;
            Ok(hidden(detail))
        }
        Reread::Unread(why) => Ok(KeptDetail::Unread(*why)),
        Reread::NoLine => Ok(KeptDetail::Nothing),
    }
}

/// The path that a line sources, and why that can't be read. Just the path, where it is a pattern or can be read now.
fn source_detail<L: LineFiles>(
    alloc: Global,
    wording: &Wording<'_>,
    file: &[u8],
    line: &[u8],
    files: &mut L,
) -> Result<KeptDetail, AllocError>
    ensures shown { IfOk result (λ detail. MayBe (is_one_of (sourced_on (L.known.tree wording.now.root.now) wording.now.language file.now (Some line.now))) (kept_detail detail)) }
    ensures hidden { IfOk result (λ detail. MayBe (is_one_of (sourced_on (L.known.tree wording.now.root.now) wording.now.language file.now (Some line.now))) (hidden_kept detail)) }
{
    let Some(line) = utf8_or_none(line) else {
        return Ok(KeptDetail::Nothing);
    };
    let path = sourced_path(alloc, wording.language, file, line)?;
    sourced_detail(alloc, wording, &path, files)
}

/// A path that a line sources, if it does, and why that can't be read.
fn sourced_detail<L: LineFiles>(
    alloc: Global,
    wording: &Wording<'_>,
    path: &Option<Vec<u8>>,
    files: &mut L,
) -> Result<KeptDetail, AllocError>
    ensures shown { IfOk result (λ detail. MayBe (is_one_of (sourced (L.known.tree wording.now.root.now) (option_map (λ (bytes : Vec ℕ). bytes.items) path.now))) (kept_detail detail)) }
    ensures hidden { IfOk result (λ detail. MayBe (is_one_of (sourced (L.known.tree wording.now.root.now) (option_map (λ (bytes : Vec ℕ). bytes.items) path.now))) (hidden_kept detail)) }
{
    let Some(path) = path else {
        return Ok(KeptDetail::Nothing);
    };
    if is_open(path) {
        return path_detail(alloc, path);
    }
    why_detail(alloc, wording, path, files)
}

/// A path below the root, and why it can't be read; just the path, where it can be read now.
fn why_detail<L: LineFiles>(
    alloc: Global,
    wording: &Wording<'_>,
    path: &[u8],
    files: &mut L,
) -> Result<KeptDetail, AllocError>
    ensures shown { IfOk result (λ detail. is_one_of (path_details (L.known.tree wording.now.root.now path.now) path.now) (kept_detail detail) ≡ true) }
    ensures hidden { IfOk result (λ detail. MayBe (is_one_of (path_details (L.known.tree wording.now.root.now path.now) path.now)) (hidden_kept detail)) }
{
    match files.why_unread(alloc, wording.root, path)? {
        Some(why) => Ok(KeptDetail::Missing {
            path: Vec::from_slice(alloc, path)?,
            why,
        }),
        None => path_detail(alloc, path),
    }
}
