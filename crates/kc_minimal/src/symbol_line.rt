//! The line of a symbol's value.
ghost use Rattle.std.specs.Prelude.{◌≡◌, ◌<◌, ◌++◌, ◌∷◌, ◌&&◌, [], length, OnOk};
ghost use Rattle.kc_expr.specs.Lookup.{symbol_value_of};
ghost use Rattle.kc_rules.specs.between.SettledViews.{tree_of_settled};
ghost use Rattle.kc_dotconfig_model.specs.Formats.{between_quotes, string_spelling};
ghost use Rattle.kc_dotconfig_model.specs.between.Formats.{file_format};
ghost use Rattle.kc_dotconfig_model.specs.between.Prefixes.{prefix_bytes};
ghost use Rattle.kc_minimal_model.specs.SymbolLine.{spelled, value_line, unset_line, line_with, ended_line};

use kc_dotconfig_model::{Format, Prefix, Strings};
use kc_expr::Looked;
use kc_rules::{Settled, UnitValue};
use kc_tree::{Sym, is_tri_kind};
use kc_value::{Kind, push_escaped};
use std::alloc::AllocError;

/// Appends a prefix and a name.
fn push_name(out: &mut Vec<u8>, prefix: &Prefix, name: &str) -> Result<(), AllocError>
    ensures { OnOk result (out.new.items ≡ out.old.items ++ (prefix_bytes prefix.now ++ name.now)) }
{
    out.extend_from_slice(prefix.as_bytes())?;
    out.extend_from_slice(name.as_bytes())?;
    Ok(())
}

/// Appends the line, with its newline, that says that a symbol is not set.
fn push_unset(out: &mut Vec<u8>, prefix: &Prefix, name: &str) -> Result<(), AllocError>
    ensures { OnOk result (out.new.items ≡ out.old.items ++ (unset_line (prefix_bytes prefix.now) name.now ++ 10 ∷ [])) }
{
    out.extend_from_slice(b"# ")?;
    push_name(out, prefix, name)?;
    out.extend_from_slice(b" is not set\n")?;
    Ok(())
}

/// Appends a text, which is one letter most often.
fn push_plain(out: &mut Vec<u8>, text: &str) -> Result<(), AllocError>
    ensures { OnOk result (out.new.items ≡ out.old.items ++ text.now) }
{
    match text.as_bytes() {
        [letter] => {
            out.push(*letter)?;
            Ok(())
        }
        bytes => out.extend_from_slice(bytes),
    }
}

/// Appends a text after some bytes and before others.
pub(crate) fn push_between(
    out: &mut Vec<u8>,
    before: &[u8],
    text: &str,
    after: &[u8],
) -> Result<(), AllocError>
    ensures { OnOk result (out.new.items ≡ out.old.items ++ (before.now ++ (text.now ++ after.now))) }
{
    out.extend_from_slice(before)?;
    out.extend_from_slice(text.as_bytes())?;
    out.extend_from_slice(after)
}

/// Appends a text as it is between two `"`.
fn push_raw(out: &mut Vec<u8>, text: &str) -> Result<(), AllocError>
    ensures { OnOk result (out.new.items ≡ out.old.items ++ between_quotes text.now) }
{
    push_between(out, b"\"", text, b"\"")
}

/// Appends a string between quotes, escaped or raw as `strings` says.
fn push_string(out: &mut Vec<u8>, strings: Strings, text: &str) -> Result<(), AllocError>
    ensures { OnOk result (out.new.items ≡ out.old.items ++ string_spelling strings text.now) }
{
    match strings {
        Strings::Escaped => push_escaped(out, text),
        Strings::Raw => push_raw(out, text),
    }
}

/// Appends a value as it is spelled after `=` in a configuration file: a string in quotes, escaped or raw as `strings` says, and
/// any other value as it is. An `Err` means out of memory, and may leave a part of the value appended.
pub fn push_spelled(
    out: &mut Vec<u8>,
    strings: Strings,
    kind: Kind,
    text: &str,
) -> Result<(), AllocError>
    ensures { OnOk result (out.new.items ≡ out.old.items ++ spelled strings kind text.now) }
{
    match kind {
        Kind::Text => push_string(out, strings, text),
        Kind::Bool | Kind::Tristate | Kind::Int | Kind::Hex => push_plain(out, text),
    }
}

/// Appends a line, with its newline, that assigns a value to a name.
fn push_set(
    out: &mut Vec<u8>,
    format: &Format,
    name: &str,
    kind: Kind,
    text: &str,
) -> Result<(), AllocError>
    ensures { OnOk result (out.new.items ≡ out.old.items ++ (value_line (file_format format.now).prefix name.now (spelled format.now.strings kind text.now) ++ 10 ∷ [])) }
{
    push_name(out, &format.prefix, name)?;
    out.push(b'=')?;
    push_spelled(out, format.strings, kind, text)?;
    out.push(b'\n')?;
    Ok(())
}

/// Appends the line of a name with a value: `is not set` for a bool or tristate of value `n`, otherwise an assignment.
fn push_line(
    out: &mut Vec<u8>,
    format: &Format,
    name: &str,
    value: &Looked<'_>,
) -> Result<(), AllocError>
    ensures { OnOk result (out.new.items ≡ out.old.items ++ (line_with (file_format format.now) name.now (symbol_value_of value.now) ++ 10 ∷ [])) }
{
    if is_tri_kind(value.kind) && value.tri.is_n() {
        push_unset(out, &format.prefix, name)
    } else {
        push_set(out, format, name, value.kind, value.text)
    }
}

/// What a file is written of: a settled tree with values of its units, and the file's format.
#[derive(Clone, Copy)]
pub(crate) struct Written<'a> {
    pub settled: &'a Settled,
    pub format: &'a Format,
    pub values: &'a [UnitValue],
}

/// Appends the line of a symbol's value, with its newline: `is not set` for a bool or tristate of value `n`, otherwise an
/// assignment. An `Err` means out of memory.
pub(crate) fn push_symbol(
    out: &mut Vec<u8>,
    written: &Written<'_>,
    s: Sym,
) -> Result<(), AllocError>
    requires there { s < length (tree_of_settled written.now.settled.now).symbols }
    ensures ok { OnOk result (out.new.items ≡ out.old.items ++ ended_line (file_format written.now.format.now) (tree_of_settled written.now.settled.now) written.now.values.now s) }
{
    let settled = written.settled;
    let value = settled.value_of_symbol(s, written.values);
    push_line(out, written.format, settled.tree().name(s), &value)
}
