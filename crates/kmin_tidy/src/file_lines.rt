//! The lines of standard output, in each form.
ghost use Rattle.std.specs.Prelude.{◌≡◌, ◌++◌, OnOk};
ghost use Rattle.kmin_tidy.specs.Reports.{file_line};

use crate::differences::push_difference_line;
use kc_value::Seed;
use kmin_records::{OutputForm, tidy_record};
use std::alloc::{AllocError, Global};

/// Appends to `text` the line of standard output, in this form, for a file of these bytes, which aren't those of its minimal file
/// `minimal_bytes`. Lines are hashed by `seed`.
pub(crate) fn push_file_line(
    alloc: Global,
    seed: Seed,
    form: OutputForm,
    path: &str,
    bytes: &[u8],
    minimal_bytes: &[u8],
    text: &mut Vec<u8>,
) -> Result<(), AllocError>
    ensures { OnOk result (text.new.items ≡ text.old.items ++ file_line form path.now bytes.now minimal_bytes.now) }
{
    match form {
        OutputForm::Plain => push_difference_line(alloc, seed, path, bytes, minimal_bytes, text),
        OutputForm::Json => {
            let line = tidy_record(alloc, seed, path, bytes, minimal_bytes)?;
            text.extend_from_slice(&line)
        }
    }
}
