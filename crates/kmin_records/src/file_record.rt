//! The record of a file whose minimal file differs.
ghost use Rattle.std.specs.Prelude.{◌≡◌, ◌++◌, ◌∷◌, [], codes, IfOk, OnOk, IsUtf8};
ghost use Rattle.json.specs.Token.{begin_array, end_array, key};
ghost use Rattle.kmin_messages.specs.between.MessageViews.{AppendsTokens};
ghost use Rattle.kmin_records.specs.Records.{tidy_record, status_name};
ghost use Rattle.kmin_lines.specs.between.Texts.{texts_of};
ghost use Rattle.kmin_records.specs.between.RecordTokens.{text_tokens};

use crate::members::{write_lines, write_text};
use crate::record::{begin_record, end_record};
use json::Writer;
use kc_value::Seed;
use kmin_lines::{have_same_lines, lacking_lines};
use std::alloc::{AllocError, Global};

/// The record of a file of these bytes, which aren't those of its minimal file `least`, for `tidy`: how they differ, the lines that go
/// and those that come, in their order, with U+FFFD in place of what isn't UTF-8. Lines are hashed by `seed`.
///
/// # Errors
///
/// `AllocError` if memory runs out.
pub fn tidy_record(
    alloc: Global,
    seed: Seed,
    path: &str,
    bytes: &[u8],
    least: &[u8],
) -> Result<Vec<u8>, AllocError>
    ensures line { IfOk result (λ line. line.items ≡ tidy_record path.now bytes.now least.now) }
    ensures utf8 { IfOk result (λ line. IsUtf8 line.items) }
{
    let out = lacking_lines(alloc, seed, bytes, least)?;
    let in_ = lacking_lines(alloc, seed, least, bytes)?;
    let mut writer = begin_record(alloc, "file", path)?;
    let status = status_name(have_same_lines(bytes, least), &out, &in_);
    write_text(&mut writer, "status", status)?;
    write_changes(alloc, &mut writer, &out, &in_)?;
    end_record(writer)
}

/// How a file differs from its minimal file, by whether they have the same lines in the same order, the lines that go and those that
/// come.
fn status_name(same: bool, out: &[&[u8]], in_: &[&[u8]]) -> &'static str
    ensures { result.now ≡ status_name same (texts_of out.now) (texts_of in_.now) }
{
    if same {
        "line ends"
    } else if out.is_empty() && in_.is_empty() {
        "order"
    } else {
        "lines"
    }
}

/// Writes the members `out` and `in`.
fn write_changes(
    alloc: Global,
    writer: &mut Writer,
    out: &[&[u8]],
    in_: &[&[u8]],
) -> Result<(), AllocError>
    ensures { OnOk result (AppendsTokens writer.old writer.new
        ((key (codes "out") ∷ begin_array ∷ (text_tokens (texts_of out.now) ++ end_array ∷ []))
        ++ (key (codes "in") ∷ begin_array ∷ (text_tokens (texts_of in_.now) ++ end_array ∷ [])))) }
{
    write_lines(alloc, writer, "out", out)?;
    write_lines(alloc, writer, "in", in_)
}
