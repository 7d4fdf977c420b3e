//! Laws of the files.
ghost use Rattle.kc_minimal_model.specs.CanonicalText.{FilesAssignTheLines, MinimalTextsAreCanonical};
ghost use Rattle.kc_minimal_model.specs.FileLimits.{MinimalFileLines, MinimalFilesAreAccepted, ReadFilesAreAccepted};
ghost use Rattle.kc_minimal_model.specs.FullFileLaws.{FullFilesLeadBack};
ghost use Rattle.kc_minimal_model.specs.Headline.{DifferencesDecideMinimalFiles, Headline, MinimalFilesAreCanonical};
ghost use Rattle.kc_minimal_model.specs.MinimalFileLaws.{DifferencesAreExact, MinimalLinesAreRead, MinimalLinesDiffer, StringsAreReadBack};

/// Each line of a minimal file is read as the assignment that it represents.
pub fn minimal_lines_are_read()
    ensures { MinimalLinesAreRead }
{}

/// Each text without a newline is read back: in each format, the line that is written for a string
/// symbol with this text assigns it this text again.
pub fn strings_are_read_back()
    ensures { StringsAreReadBack }
{}

/// No two lines of a minimal file assign to the same unit.
pub fn minimal_lines_differ()
    ensures { MinimalLinesDiffer }
{}

/// The lines of a minimal file are its symbols' lines, in order.
pub fn minimal_file_has_its_lines()
    ensures { MinimalFileLines }
{}

/// Every file that gives the values of a minimal file assigns to the unit of each of its lines, with the same member
/// for choices and the same text for strings and numbers, by at least as many lines. The prefix may be any bytes, and
/// strings may be in each form.
pub fn files_assign_the_lines()
    ensures { FilesAssignTheLines }
{}

/// The minimal file of the values that an assignment of fitting user values gives is canonical (`IsCanonicalText`). A file gives
/// every symbol the same value exactly if that file's minimal file is this one byte for byte. Reading the minimal file gives the
/// values back, and minimising it changes nothing. Without any one of its lines it gives other values. No assignment and no file
/// with these values assigns less. Within the limits of bytes the minimal file is accepted.
pub fn minimal_texts_are_canonical()
    ensures { MinimalTextsAreCanonical }
{}

/// A configuration file whose lines are UTF-8 and not malformed is accepted if it is within the limits of bytes, lines
/// and line lengths.
pub fn read_files_are_accepted()
    ensures { ReadFilesAreAccepted }
{}

/// The minimal file of an accepted file is accepted and gives the same values, if it is within the limit of bytes.
pub fn minimal_files_are_accepted()
    ensures { MinimalFilesAreAccepted }
{}

/// Reading the full file of a configuration's values gives these values back, unless some visible tristate would get another
/// value if its value were also its user value.
pub fn full_files_lead_back()
    ensures { FullFilesLeadBack }
{}

/// Each accepted file over a consistent tree without a cycle of dependencies gives every unit one value and no other, and the
/// minimal file of these values is canonical (`IsCanonicalText`).
pub fn minimal_files_are_canonical()
    ensures { MinimalFilesAreCanonical }
{}

/// The headline: for Kconfig files that are read without a fault and whose units have no cycle,
/// two accepted configuration files give every symbol the same value exactly if their minimal
/// files are equal byte for byte, and each minimal file is canonical.
pub fn headline()
    ensures { Headline }
{}

/// Two valuations whose values fit their units differ at no symbol exactly if they are equal.
pub fn differences_are_exact()
    ensures { DifferencesAreExact }
{}

/// The values that two assignments of fitting user values give differ at no symbol exactly if their minimal files are equal byte
/// for byte.
pub fn differences_decide_minimal_files()
    ensures { DifferencesDecideMinimalFiles }
{}
