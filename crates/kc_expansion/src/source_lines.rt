//! The `source` lines that the expansion writes.
ghost use Rattle.std.specs.Prelude.{◌≡◌, ◌++◌, ◌∷◌, [], OnOk, codes};
ghost use Rattle.kc_macros_model.specs.WrittenTokens.{in_quotes_of};

use kc_macro_forms::push_escaped;
use std::alloc::AllocError;

/// Appends a `source` line, with its newline, that names an expanded file by its key.
pub(crate) fn push_source_line(bytes: &mut Vec<u8>, key: &[u8]) -> Result<(), AllocError>
    ensures { OnOk result (bytes.new.items ≡ bytes.old.items ++ (codes "source " ++ (in_quotes_of 34 key.now ++ 10 ∷ []))) }
{
    bytes.extend_from_slice(b"source \"")?;
    push_escaped(bytes, b'"', key)?;
    bytes.extend_from_slice(b"\"\n")?;
    Ok(())
}
