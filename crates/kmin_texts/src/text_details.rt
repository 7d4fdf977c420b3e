//! The details of faults of a tree, by its texts: the limit that a line passes, or the place of a first definition.
ghost use Rattle.std.specs.Prelude.{◌≡◌, ◌∷◌, ◌++◌, ℕ, List, IfOk, Some, option_and_then, option_map};
ghost use Rattle.std.specs.Borrow.{Bor};
ghost use Rattle.kc_tree_model.specs.TreeFiles.{file_at, path_at};
ghost use Rattle.kmin_faults.specs.between.StoredDefinitions.{position_of};
ghost use Rattle.kmin_report.specs.between.ReportLines.{names_among};
ghost use Rattle.kmin_texts.specs.LineDetails.{first_place, is_one_of, limit_passed, line_of_texts, of_limit, of_place};
ghost use Rattle.kmin_texts.specs.NumberedLines.{line_at};
ghost use Rattle.kmin_texts.specs.between.KeptDetails.{MayBe, kept_detail};

use crate::kept_details::{KeptDetail, limit_detail};
use crate::numbered_lines::{line_at, utf8_line};
use kc_files::ExpandedTree;
use kc_tree::Texts;
use kmin_faults::{Limit, TextPlace, first_type, limit_of, other_definition};
use kmin_report::file_name;
use std::alloc::{AllocError, Global};

/// The texts of a tree that were read from the path `first` on; of an expanded tree also the expanded files.
#[derive(Clone, Copy)]
pub(crate) struct TreeTexts<'a> {
    pub texts: &'a Texts,
    pub first: &'a str,
    pub expanded: Option<&'a ExpandedTree>,
}

/// The limit that a tree passes at a line of the file with a number among its texts, if one is at fault.
pub(crate) fn passed_limit(
    alloc: Global,
    tree: &TreeTexts<'_>,
    file: Option<u32>,
    line: u32,
) -> Result<KeptDetail, AllocError>
    ensures { IfOk result (λ detail. MayBe (is_one_of (of_limit (limit_passed tree.now.texts.now tree.now.first.now file line))) (kept_detail detail)) }
{
    let limit = limit_at(alloc, tree, file, line)?;
    Ok(limit_detail(limit))
}

/// The limit that a tree passes at a line, if that is known.
fn limit_at(
    alloc: Global,
    tree: &TreeTexts<'_>,
    file: Option<u32>,
    line: u32,
) -> Result<Option<Limit>, AllocError>
    ensures { IfOk result (λ limit. limit ≡ limit_passed tree.now.texts.now tree.now.first.now file line) }
{
    let Some(file) = file else {
        return Ok(None);
    };
    if line == 0 {
        return Ok(Some(Limit::TreeBytes));
    }
    match line_of_texts(tree.texts, file, line) {
        Some(line) => limit_of(alloc, tree.texts, tree.first, line),
        None => Ok(None),
    }
}

/// The line with a number of the file with a number among texts, if it is there and UTF-8.
fn line_of_texts(texts: &Texts, file: u32, number: u32) -> Option<&str>
    ensures { option_map (λ (line : Bor (List ℕ)). line.now) result ≡ line_of_texts texts.now file number }
{
    utf8_line(bytes_of_line(texts, file, number))
}

/// The bytes of that line, if it is there.
fn bytes_of_line(texts: &Texts, file: u32, number: u32) -> Option<&[u8]>
    ensures { option_map (λ (line : Bor (List ℕ)). line.now) result ≡ option_and_then (λ bytes. line_at bytes number) (option_and_then (file_at texts.now) (path_at texts.now file)) }
{
    match bytes_of_file(texts, file) {
        Some(bytes) => line_at(bytes, number),
        None => None,
    }
}

/// The bytes of the file with a number among texts, if there is one.
fn bytes_of_file(texts: &Texts, file: u32) -> Option<&[u8]>
    ensures { option_map (λ (bytes : Bor (List ℕ)). bytes.now) result ≡ option_and_then (file_at texts.now) (path_at texts.now file) }
{
    match texts.path_at(file) {
        Some(path) => texts.get(path),
        None => None,
    }
}

/// The place of a first definition for a fault at a line, as `first_place` finds it, if there is one.
pub(crate) fn first_detail(
    alloc: Global,
    root: &str,
    tree: &TreeTexts<'_>,
    is_typed: bool,
    file: Option<u32>,
    line: u32,
) -> Result<KeptDetail, AllocError>
    ensures { IfOk result (λ detail. MayBe (is_one_of (of_place root.now (names_among tree.now.texts.now tree.now.expanded) (first_place is_typed tree.now.texts.now tree.now.first.now file line))) (kept_detail detail)) }
{
    match first_place(alloc, tree, is_typed, file, line)? {
        Some(place) => place_detail(alloc, root, tree, place),
        None => Ok(KeptDetail::Nothing),
    }
}

/// The place of the first definition with a type of the symbol at a line, or of another definition of it; `None` where none is found,
/// or no file is at fault.
fn first_place(
    alloc: Global,
    tree: &TreeTexts<'_>,
    is_typed: bool,
    file: Option<u32>,
    line: u32,
) -> Result<Option<TextPlace>, AllocError>
    ensures { IfOk result (λ place. option_map position_of place ≡ first_place is_typed tree.now.texts.now tree.now.first.now file line) }
{
    let Some(file) = file else {
        return Ok(None);
    };
    let at = TextPlace { file, line };
    if is_typed {
        first_type(alloc, tree.texts, tree.first, at)
    } else {
        other_definition(alloc, tree.texts, tree.first, at)
    }
}

/// A place among the texts of a tree as a detail, with the root in front of the path that was read.
fn place_detail(
    alloc: Global,
    root: &str,
    tree: &TreeTexts<'_>,
    place: TextPlace,
) -> Result<KeptDetail, AllocError>
    ensures { IfOk result (λ detail. MayBe (is_one_of (of_place root.now (names_among tree.now.texts.now tree.now.expanded) (Some (position_of place)))) (kept_detail detail)) }
{
    match file_name(tree.texts, tree.expanded, place.file) {
        Some(name) => Ok(KeptDetail::First {
            path: path_below(alloc, root, name)?,
            line: place.line,
        }),
        None => Ok(KeptDetail::Nothing),
    }
}

/// A path below a folder.
fn path_below(alloc: Global, root: &str, path: &[u8]) -> Result<Vec<u8>, AllocError>
    ensures { IfOk result (λ whole. whole.items ≡ root.now ++ 47 ∷ path.now) }
{
    let mut whole = Vec::from_slice(alloc, root.as_bytes())?;
    whole.push(b'/')?;
    whole.extend_from_slice(path)?;
    Ok(whole)
}
