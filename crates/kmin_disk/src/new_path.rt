//! Paths of new files.
ghost use Rattle.std.specs.Prelude.{◌≡◌, ◌<◌, ◌++◌, string_bytes, IfOk, OnOk};
ghost use Rattle.kmin_disk.specs.NewFiles.{IsNewPath, new_name, hex_digits, hex_digit};

use kc_value::Seed;
use std::alloc::{AllocError, Global};
use std::hash::{BuildHasher, Hasher};
use std::path::Path;

/// The path of a new file in the folder of another path: `.kmin-` and 16 hex digits, by the seed, that path and the
/// number of the attempt.
pub(crate) fn new_path(
    alloc: Global,
    seed: Seed,
    path: &str,
    attempt: u8,
) -> Result<String, AllocError>
    ensures { IfOk result (λ new_path. IsNewPath path.now (string_bytes new_path)) }
{
    let name = new_name(alloc, number_of(seed, path, attempt))?;
    let new_path = Path::new(path).with_file_name(alloc, &name)?;
    Ok(new_path.into_string())
}

/// The number in the name of a new file.
fn number_of(seed: Seed, path: &str, attempt: u8) -> u64 {
    let mut hasher = seed.build_hasher();
    hasher.write(path.as_bytes());
    hasher.write_u8(attempt);
    hasher.finish()
}

/// The name of a new file.
fn new_name(alloc: Global, number: u64) -> Result<String, AllocError>
    ensures { IfOk result (λ name. string_bytes name ≡ new_name number) }
{
    let mut name = String::from_str(alloc, ".kmin-")?;
    push_hex(&mut name, 16, number)?;
    Ok(name)
}

/// Pushes the last digits of a number in base 16, as many as `count`.
fn push_hex(text: &mut String, count: u8, number: u64) -> Result<(), AllocError>
    ensures { OnOk result (string_bytes text.new ≡ string_bytes text.old ++ hex_digits count number) }
{
    if count == 0 {
        return Ok(());
    }
    push_hex(text, count - 1, number / 16)?;
    text.push(hex_digit((number % 16) as u8))
}

/// The character of a digit in base 16.
fn hex_digit(digit: u8) -> char
    requires in_base { digit < 16 }
    ensures value { result ≡ hex_digit digit }
{
    if digit < 10 {
        (b'0' + digit) as char
    } else {
        (b'a' - 10 + digit) as char
    }
}
