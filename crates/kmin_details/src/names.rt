//! Names and values of symbols.
ghost use Rattle.std.specs.Prelude.{◌≡◌, ℕ, List, option_map, IfOk, string_bytes};
ghost use Rattle.std.specs.Borrow.{Bor};
ghost use Rattle.kmin_details.specs.Texts.{name_word, unknown_text, value_text};

use kc_tokens::are_name_bytes;
use std::alloc::{AllocError, Global};

/// A name as a text shows it: in quotes where it has a byte that names of symbols don't have, as the space of `CONFIG_A = y`, which
/// can't be seen at the end of a line.
fn name_word(alloc: Global, name: &str) -> Result<String, AllocError>
    ensures { IfOk result (λ text. string_bytes text ≡ name_word name.now) }
{
    if are_name_bytes(name.as_bytes()) {
        return String::from_str(alloc, name);
    }
    ["\"", name, "\""].concat(alloc)
}

/// The text for a symbol that the tree lacks: its name, and the nearest one of the tree, if one is near.
pub fn unknown_text(alloc: Global, name: &str, near: Option<&str>) -> Result<String, AllocError>
    ensures { IfOk result (λ text. string_bytes text ≡ unknown_text name.now (option_map (λ (other : Bor (List ℕ)). other.now) near.entry)) }
{
    let word = name_word(alloc, name)?;
    match near {
        None => Ok(word),
        Some(other) => [word.as_str(), ", perhaps ", other].concat(alloc),
    }
}

/// The text for a value that isn't of its symbol's type.
pub fn value_text(alloc: Global, name: &str, value: &str) -> Result<String, AllocError>
    ensures { IfOk result (λ text. string_bytes text ≡ value_text name.now value.now) }
{
    [name, "=", value].concat(alloc)
}
