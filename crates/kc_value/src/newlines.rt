//! Newlines in texts.
ghost use Rattle.std.specs.Prelude.{◌≡◌};
ghost use Rattle.std.specs.List.{list_any};
ghost use Rattle.kc_value.specs.Lines.{has_newline};

/// Whether a text has a newline.
pub fn has_newline(text: &[u8]) -> bool
    ensures { result ≡ has_newline text.now }
{
    text.iter().any(|byte| *byte == b'\n')
}
