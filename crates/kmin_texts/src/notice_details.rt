//! The details of notices of configuration files.
ghost use Rattle.std.specs.Prelude.{◌≡◌, ℕ, List, Some, IfOk, map, option_map};
ghost use Rattle.std.specs.Borrow.{Bor};
ghost use Rattle.kc_dotconfig_model.specs.between.Prefixes.{prefix_bytes};
ghost use Rattle.kc_tree_model.specs.Trees.{Symbol};
ghost use Rattle.kmin_report.specs.Reports.{near_names};
ghost use Rattle.kmin_texts.specs.KnownLines.{IsReread, KnownFile};
ghost use Rattle.kmin_texts.specs.LineDetails.{is_of_notice};
ghost use Rattle.kmin_texts.specs.NumberedLines.{utf8_line};
ghost use Rattle.kmin_details.specs.between.Details.{line_detail};
ghost use Rattle.kmin_texts.specs.between.KeptDetails.{MayBe};
ghost use Rattle.kmin_texts.specs.between.NoticeDetails.{hidden_detail, is_noticed_on, nearest_detail};

use crate::line_files::Reread;
use crate::numbered_lines::utf8_or_none;
use kc_dotconfig_model::{NoticeKind, Prefix};
use kc_tree::Tree;
use kmin_details::{Detail, named_on, nearest_symbol, notice_detail, without_words};
use std::alloc::{AllocError, Global};

/// For how many unknown symbols of a run the nearest name of the tree is looked for.
const MAX_NEAREST: u32 = 16;

/// The detail of a notice of a configuration file, by its line as it was read once more. `unknown` counts the unknown symbols of which
/// a name was looked for. An `Err` means out of memory.
pub(crate) fn notice_at<'a>(
    alloc: Global,
    prefix: &Prefix,
    kind: NoticeKind,
    tree: &'a Tree,
    reread: &'a Reread,
    unknown: &mut u32,
) -> Result<Detail<'a>, AllocError>
    ensures { (known : KnownFile) (number : ℕ) → IsReread known number reread.now
        → IfOk result (λ detail. MayBe (is_of_notice kind (prefix_bytes prefix.now) (near_names tree.now.tree kind) known number) (line_detail detail)) }
{
    match reread {
        Reread::Shown(line) => shown_notice(alloc, prefix, kind, tree, line, unknown),
        Reread::Hidden(line) => Ok(hidden_notice(prefix, kind, line)),
        _ => Ok(Detail::Nothing),
    }
}

/// The detail of a notice at a line whose words may be shown; none where it isn't UTF-8. For the first unknown symbols of a run it has
/// the nearest name of the tree.
fn shown_notice<'a>(
    alloc: Global,
    prefix: &Prefix,
    kind: NoticeKind,
    tree: &'a Tree,
    line: &'a [u8],
    unknown: &mut u32,
) -> Result<Detail<'a>, AllocError>
    ensures { IfOk result (λ detail. MayBe (is_noticed_on kind (prefix_bytes prefix.now) (near_names tree.now.tree kind) (Some line.now)) (line_detail detail)) }
{
    let Some(line) = utf8_or_none(line) else {
        return Ok(Detail::Nothing);
    };
    match kind {
        NoticeKind::UnknownSymbol if *unknown < MAX_NEAREST => {
            *unknown += 1;
            with_nearest(alloc, named_on(prefix, line), tree)
        }
        _ => Ok(notice_detail(kind, prefix, line)),
    }
}

/// The detail of a notice at a line whose words may not be shown; none where it isn't UTF-8.
fn hidden_notice<'a>(prefix: &Prefix, kind: NoticeKind, line: &'a [u8]) -> Detail<'a>
    ensures { line_detail result ≡ hidden_detail kind (prefix_bytes prefix.now) (utf8_line (Some line.now)) }
{
    match utf8_or_none(line) {
        Some(line) => without_words(notice_detail(kind, prefix, line)),
        None => Detail::Nothing,
    }
}

/// The detail of an unknown symbol of this name, with the name of the tree nearest to it.
fn with_nearest<'a>(
    alloc: Global,
    name: Option<&'a str>,
    tree: &'a Tree,
) -> Result<Detail<'a>, AllocError>
    ensures { IfOk result (λ detail. line_detail detail ≡ nearest_detail (option_map (λ (text : Bor (List ℕ)). text.now) name.entry) (map (λ (symbol : Symbol). symbol.name) tree.now.tree.symbols)) }
{
    match name {
        Some(name) => {
            let near = nearest_symbol(alloc, name, tree)?;
            Ok(Detail::Unknown { name, near })
        }
        None => Ok(Detail::Nothing),
    }
}
