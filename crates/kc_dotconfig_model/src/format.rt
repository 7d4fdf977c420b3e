//! How a configuration file is spelled.
ghost use Rattle.std.specs.Prelude.{◌≡◌};

use super::prefix::Prefix;

/// The form of strings in configuration files.
#[derive(Clone, Copy, Debug, PartialEq, Eq)]
pub enum Strings {
    /// The text between two `"`, with a `\` before each `"` and each `\` of the text, as Linux's tools write it.
    Escaped,
    /// The text as it is between two `"`, as U-Boot's tools write it. The first byte after `=` and the last
    /// byte of the line are these two; another `"` or a `\` between them is part of the text.
    Raw,
}

/// How configuration files are spelled: the prefix of names and the form of strings.
#[derive(Clone, Copy)]
pub struct Format {
    pub prefix: Prefix,
    pub strings: Strings,
}

impl Format {
    ghost use Rattle.kc_dotconfig_model.specs.Formats.{plain_format};
    ghost use Rattle.kc_dotconfig_model.specs.between.Formats.{file_format};

    /// The format of Linux's configuration files: the prefix `CONFIG_`, and escaped strings.
    pub fn plain() -> Format
        ensures { file_format result ≡ plain_format }
    {
        Format {
            prefix: Prefix::plain(),
            strings: Strings::Escaped,
        }
    }
}
