//! Names of environment variables.
ghost use Rattle.std.specs.Prelude.{◌≡◌};
ghost use Rattle.kc_macros_model.specs.Variables.{is_environment_name};

use kc_tokens::are_name_bytes;

/// Whether an environment variable may have this name: letters, digits and `_`, of which the first is no digit.
pub fn is_environment_name(text: &[u8]) -> bool
    ensures { result ≡ is_environment_name text.now }
{
    let Some(first) = text.first() else {
        return false;
    };
    !first.is_ascii_digit() && are_name_bytes(text)
}
