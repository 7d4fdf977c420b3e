//! Names in one text.
ghost use Rattle.std.specs.Prelude.{◌≡◌, ◌++◌, map, IfOk, OnOk, string_bytes};
ghost use Rattle.kmin_texts.specs.LineDetails.{spaced};

use std::alloc::{AllocError, Global};

/// Names with a space between them.
pub(crate) fn spaced(alloc: Global, names: &[String]) -> Result<String, AllocError>
    ensures { IfOk result (λ words. string_bytes words ≡ spaced (map string_bytes names.now)) }
{
    let mut words = String::new(alloc);
    let mut between = "";
    for name in names {
        push_name(&mut words, between, name.as_str())?;
        between = " ";
    }
    Ok(words)
}

/// Appends a name, after what comes between it and the one before.
fn push_name(words: &mut String, between: &str, name: &str) -> Result<(), AllocError>
    ensures { OnOk result (string_bytes words.new ≡ string_bytes words.old ++ (between.now ++ name.now)) }
{
    words.push_str(between)?;
    words.push_str(name)
}
