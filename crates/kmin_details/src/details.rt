//! The detail of a message: its text, and the names of symbols in that.
ghost use Rattle.std.specs.Prelude.{◌≡◌, ◌≤◌, ℕ, List, true, map, IfOk, string_bytes, string_len};
ghost use Rattle.std.specs.Borrow.{Bor};
ghost use Rattle.kmin_messages.specs.ShownTexts.{shown, has_no_control_byte};
ghost use Rattle.kmin_messages.specs.declared.shown_text.TheConstants.{MAX_SHOWN_BYTES};
ghost use Rattle.kmin_details.specs.between.Details.{detail_text, detail_names, without_words};

use crate::cycle_steps::cycle_text;
use crate::limits::limit_text;
use crate::names::{unknown_text, value_text};
use crate::places::{Unreadable, first_place_text, missing_text};
use kmin_faults::{Limit, Step};
use kmin_messages::shown;
use std::alloc::{AllocError, Global};

/// The detail of a message, beside its kind.
#[derive(Clone, Copy)]
pub enum Detail<'a> {
    Nothing,
    /// Of `UnknownSymbol`: the name, and the nearest one of the tree, if one is near.
    Unknown {
        name: &'a str,
        near: Option<&'a str>,
    },
    /// Of `NotOfType`: the name and the value.
    Value {
        name: &'a str,
        value: &'a str,
    },
    /// Of `MissingFile`: the path, as expanded, and why it can't be read.
    Missing {
        path: &'a [u8],
        why: Unreadable,
    },
    /// Of `Read`: why the file can't be read.
    Unread(Unreadable),
    /// Words of the line at fault, or of its form.
    Words(&'a str),
    /// Of an expansion: the text of its message.
    Expansion(&'a [u8]),
    /// Of a second definition or another type: the place of the first.
    First {
        path: &'a [u8],
        line: u32,
    },
    /// Of `TooMany`: the limit.
    Limit(Limit),
    /// Of `Cycle`: its steps.
    Cycle(&'a [Step<'a>]),
}

/// The text of a message, as it is shown.
pub fn shown_detail(alloc: Global, detail: &Detail<'_>) -> Result<String, AllocError>
    ensures value { IfOk result (λ text. string_bytes text ≡ shown (detail_text detail.now)) }
    ensures short { IfOk result (λ text. string_len text ≤ MAX_SHOWN_BYTES) }
    ensures plain { IfOk result (λ text. has_no_control_byte (string_bytes text) ≡ true) }
{
    let text = whole_text(alloc, detail)?;
    shown(alloc, text.as_str())
}

/// The text of a message, as long as it is.
fn whole_text(alloc: Global, detail: &Detail<'_>) -> Result<String, AllocError>
    ensures { IfOk result (λ text. string_bytes text ≡ detail_text detail.now) }
{
    match detail {
        Detail::Nothing => Ok(String::new(alloc)),
        Detail::Unknown { name, near } => unknown_text(alloc, name, *near),
        Detail::Value { name, value } => value_text(alloc, name, value),
        Detail::Missing { path, why } => missing_text(alloc, path, *why),
        Detail::Unread(why) => String::from_str(alloc, why.text()),
        Detail::Words(words) => String::from_str(alloc, words),
        Detail::Expansion(text) => String::from_utf8_lossy(alloc, text),
        Detail::First { path, line } => first_place_text(alloc, path, *line),
        Detail::Limit(limit) => limit_text(alloc, *limit),
        Detail::Cycle(steps) => cycle_text(alloc, steps),
    }
}

/// The names of symbols and choices that the text has, in its order.
pub fn detail_names<'a>(alloc: Global, detail: &Detail<'a>) -> Result<Vec<&'a str>, AllocError>
    ensures { IfOk result (λ names. map (λ (name : Bor (List ℕ)). name.now) names.items ≡ detail_names detail.now) }
{
    match detail {
        Detail::Unknown { name, near: None } => Vec::from_slice(alloc, &[*name]),
        Detail::Unknown {
            name,
            near: Some(near),
        } => Vec::from_slice(alloc, &[*name, *near]),
        Detail::Value { name, .. } => Vec::from_slice(alloc, &[*name]),
        Detail::Cycle(steps) => step_names(alloc, steps),
        _ => Ok(Vec::new(alloc)),
    }
}

/// The first name of each step.
fn step_names<'a>(alloc: Global, steps: &[Step<'a>]) -> Result<Vec<&'a str>, AllocError>
    ensures { IfOk result (λ names. map (λ (name : Bor (List ℕ)). name.now) names.items ≡ map (λ step. step.name.now) steps.now) }
{
    let mut names = Vec::new(alloc);
    for step in steps {
        names.push(step.name)?;
    }
    Ok(names)
}

/// The detail where no words of the file may be shown: of its words the name of a symbol alone, and of a path only why it can't be
/// read.
pub fn without_words(detail: Detail<'_>) -> Detail<'_>
    ensures { result ≡ without_words detail.entry }
{
    match detail {
        Detail::Unknown { name, .. } | Detail::Value { name, .. } => {
            Detail::Unknown { name, near: None }
        }
        Detail::Missing { why, .. } => Detail::Unread(why),
        Detail::Words(_) | Detail::Expansion(_) => Detail::Nothing,
        other => other,
    }
}
