//! Texts that values are printed as.
ghost use Rattle.std.specs.Prelude.{◌≡◌, ◌↔◌, IfOk, IfSome, IsTrue};

use std::alloc::{AllocError, Global};
use std::fmt::Display;

/// Whether a value is printed as this text.
pub fn is_printed<T: Display>(alloc: Global, value: &T, text: &str) -> Result<bool, AllocError>
    ensures { IfOk result (λ is_text. IfSome (T.output value.now) (λ bytes. IsTrue is_text ↔ (bytes ≡ text.now))) }
{
    let printed = format!(in alloc; "{value}")?;
    Ok(printed.as_str() == text)
}
