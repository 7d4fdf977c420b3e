//! A law of minimal files.
ghost use Rattle.kmin_tidy.specs.Promises.{MinimalFilesAreEqual};

/// Accepted files give every symbol the same value exactly if their minimal files have the same bytes. So files with the
/// same values have the same bytes after a run that replaced them.
pub fn files_with_the_same_values_get_the_same_bytes()
    ensures { MinimalFilesAreEqual }
{}
