//! The parts of a line of a configuration file.
ghost use Rattle.std.specs.Prelude.{◌≡◌, ◌≢◌, ◌<◌, ℕ, List, false, not, Some, None, IfSome, IfNone, IsAscii};
ghost use Rattle.std.specs.List.{find};
ghost use Rattle.kc_tokens.specs.Token.{is_white_byte};
ghost use Rattle.kc_tree_model.specs.LogicalLines.{without_white_end};
ghost use Rattle.kc_dotconfig_model.specs.ConfigLines.{is_unset_text};
ghost use Rattle.kc_dotconfig_model.specs.Formats.{between_quotes, has_other_escape};
ghost use Rattle.kc_dotconfig_model.specs.between.Prefixes.{prefix_bytes};
ghost use Rattle.kc_dotconfig_model.specs.between.LineMeanings.{after_front, named_before, value_parts, unset_name, begins_with_hash};

use super::prefix::Prefix;
use kc_tokens::{is_white, white_end};

/// A line without the white-space bytes at its end.
pub fn trimmed(line: &str) -> &str
    ensures { result.now ≡ without_white_end line.now }
{
    &line[..white_end(line.as_bytes())]
}

/// The text after the ASCII prefix `front`; `None` if the text doesn't begin with it.
fn after_front<'a>(front: &[u8], line: &'a str) -> Option<&'a str>
    requires ascii { IsAscii front.now }
    ensures some { IfSome result (λ rest. after_front front.now line.now ≡ Some rest.now) }
    ensures none { IfNone result (after_front front.now line.now ≡ None) }
{
    if !line.as_bytes().starts_with(front) {
        return None;
    }
    Some(&line[front.len()..])
}

/// The text before the first ASCII character `end` and the text after it; `None` without one, or if nothing is before it.
fn named_before(end: char, text: &str) -> Option<(&str, &str)>
    requires ascii { end < 128 }
    ensures some { IfSome result (λ parts. named_before end text.now ≡ Some (parts.0.now, parts.1.now)) }
    ensures none { IfNone result (named_before end text.now ≡ None) }
{
    let (name, rest) = text.split_once(end)?;
    if name.is_empty() {
        return None;
    }
    Some((name, rest))
}

/// The symbol name before the first `=` of a line, without the prefix, and the text after it; `None` if the line has another
/// form, or is a comment.
pub fn value_parts<'a>(prefix: &Prefix, line: &'a str) -> Option<(&'a str, &'a str)>
    ensures some { IfSome result (λ parts. value_parts (prefix_bytes prefix.now) line.now ≡ Some (parts.0.now, parts.1.now)) }
    ensures none { IfNone result (value_parts (prefix_bytes prefix.now) line.now ≡ None) }
{
    if is_comment(line.as_bytes()) {
        return None;
    }
    let rest = after_front(prefix.as_bytes(), line)?;
    named_before('=', rest)
}

/// The symbol name of a line `# CONFIG_X is not set`, without the prefix; `None` if the line has another form.
pub fn unset_name<'a>(prefix: &Prefix, line: &'a str) -> Option<&'a str>
    ensures some { IfSome result (λ name. unset_name (prefix_bytes prefix.now) line.now ≡ Some name.now) }
    ensures none { IfNone result (unset_name (prefix_bytes prefix.now) line.now ≡ None) }
{
    let rest = after_front(b"# ", line)?;
    let rest = after_front(prefix.as_bytes(), rest)?;
    let (name, rest) = named_before(' ', rest)?;
    if rest == "is not set" {
        Some(name)
    } else {
        None
    }
}

/// Whether `# ` and a text are an unset line where names have no prefix. White bytes at the text's end don't count.
pub fn is_unset_text(text: &str) -> bool
    ensures { result ≡ is_unset_text (without_white_end text.now) }
{
    match trimmed(text).as_bytes().strip_suffix(b" is not set") {
        Some(name) => !name.is_empty() && !name.contains(&b' '),
        None => false,
    }
}

/// The text between a `"` at the beginning and a `"` at the end of a text; `None` if it hasn't both.
pub fn between_quotes(text: &str) -> Option<&str>
    ensures some { IfSome result (λ inner. text.now ≡ between_quotes inner.now) }
    ensures none { IfNone result ((inner : List ℕ) → text.now ≢ between_quotes inner) }
{
    text.strip_prefix('"')?.strip_suffix('"')
}

/// Whether a `\` in the spelling of a string is before another byte than `"` and `\`.
pub fn has_other_escape(spelling: &[u8]) -> bool
    ensures { result ≡ has_other_escape false spelling.now }
{
    let mut escaped = false;
    for byte in spelling {
        if escaped {
            if *byte != b'"' && *byte != b'\\' {
                return true;
            }
            escaped = false;
        } else {
            escaped = *byte == b'\\';
        }
    }
    false
}

/// Whether the first byte of a line that isn't white space is `#`.
pub fn is_comment(line: &[u8]) -> bool
    ensures { result ≡ begins_with_hash line.now }
{
    for byte in line {
        if !is_white(*byte) {
            return *byte == b'#';
        }
    }
    false
}
