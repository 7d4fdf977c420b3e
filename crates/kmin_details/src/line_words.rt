//! Words of a line of a configuration file or of a file of answers.
ghost use Rattle.std.specs.Prelude.{◌≡◌, ◌<◌, Some, None, not, length, position, IfOk, IfSome, IfNone, string_bytes};
ghost use Rattle.kc_tokens.specs.Token.{is_white_byte};
ghost use Rattle.kc_dotconfig_model.specs.between.Prefixes.{prefix_bytes};
ghost use Rattle.kmin_details.specs.LineTexts.{after_white, up_to_white, first_run};
ghost use Rattle.kmin_details.specs.between.NamedSymbols.{named_on};

use kc_dotconfig_model::{Prefix, trimmed, unset_name, value_parts};
use kc_tokens::is_white;
use std::alloc::{AllocError, Global};

/// The name of the symbol on a line of a configuration file, without the prefix; `None` if the line names none.
pub fn named_on<'a>(prefix: &Prefix, line: &'a str) -> Option<&'a str>
    ensures some { IfSome result (λ name. named_on (prefix_bytes prefix.now) line.now ≡ Some name.now) }
    ensures none { IfNone result (named_on (prefix_bytes prefix.now) line.now ≡ None) }
{
    let line = trimmed(line);
    match value_parts(prefix, line) {
        Some((name, _)) => Some(name),
        None => unset_name(prefix, line),
    }
}

/// The place of the first byte that is white.
fn first_white(bytes: &[u8]) -> Option<usize>
    ensures place { result ≡ position is_white_byte bytes.now }
    ensures within { IfSome result (λ k. k < length bytes.now) }
{
    bytes.iter().position(|byte| is_white(*byte))
}

/// The place of the first byte that isn't white.
fn first_other(bytes: &[u8]) -> Option<usize>
    ensures place { result ≡ position (λ b. not (is_white_byte b)) bytes.now }
    ensures within { IfSome result (λ k. k < length bytes.now) }
{
    bytes.iter().position(|byte| !is_white(*byte))
}

/// The bytes from the first that isn't white on.
fn after_white(bytes: &[u8]) -> &[u8]
    ensures { result.now ≡ after_white bytes.now }
{
    match first_other(bytes) {
        None => &[],
        Some(count) => &bytes[count..],
    }
}

/// The bytes up to the first that is white.
fn up_to_white(bytes: &[u8]) -> &[u8]
    ensures { result.now ≡ up_to_white bytes.now }
{
    match first_white(bytes) {
        None => bytes,
        Some(count) => &bytes[..count],
    }
}

/// The first word of a line, up to white space.
pub fn first_word(line: &[u8]) -> &[u8]
    ensures { result.now ≡ up_to_white (after_white line.now) }
{
    up_to_white(after_white(line))
}

/// The text for a line without a meaning: its first word, up to white space, or that it begins with a byte order mark.
pub fn first_run(alloc: Global, line: &[u8]) -> Result<String, AllocError>
    ensures { IfOk result (λ text. string_bytes text ≡ first_run line.now) }
{
    if line.starts_with(b"\xEF\xBB\xBF") {
        return String::from_str(alloc, "a byte order mark");
    }
    String::from_utf8_lossy(alloc, first_word(line))
}
