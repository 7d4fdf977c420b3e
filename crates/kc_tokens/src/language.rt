//! The languages in which the files of a tree may be written.
ghost use Rattle.std.specs.Prelude.{◌≡◌};
ghost use Rattle.kc_tokens.specs.Languages.{is_linux_6_12};

/// The rules of Linux that a tree has. The forms of its files are the same for all versions.
#[derive(Clone, Copy, Debug, PartialEq, Eq)]
pub enum LinuxVersion {
    /// The tree doesn't say its version: the rules of Linux before 6.10, which u-boot, coreboot, xen, BusyBox, toybox, SeaBIOS and
    /// OpenSBI have too.
    Unknown,
    /// The rules of Linux before 6.10, for whoever knows that the tree has them.
    V6_1,
    /// The rules of Linux from 6.10 on.
    V6_12,
}

/// The language in which the files of a Kconfig tree are written, and the rules that the tree has.
#[derive(Clone, Copy, Debug, PartialEq, Eq)]
pub enum Language {
    /// The strict language, in which each `$` outside comments is a fault.
    Strict,
    /// The language of Linux: in quotes a pair of a `\` and a `$` represents a `$`, any other `$` outside comments is a fault.
    Linux(LinuxVersion),
}

impl Language {
    /// Whether a tree in this language has the rules of Linux 6.12: a choice keeps a list of what was assigned to its members.
    pub fn is_linux_6_12(self) -> bool
        ensures { result ≡ is_linux_6_12 self }
    {
        match self {
            Language::Linux(LinuxVersion::V6_12) => true,
            _ => false,
        }
    }
}
