//! Other places, and files that can't be read.
ghost use Rattle.std.specs.Prelude.{◌≡◌, IfOk, string_bytes};
ghost use Rattle.kmin_details.specs.Texts.{unreadable_text, missing_text, first_place_text};

use itoa::Buffer;
use std::alloc::{AllocError, Global};

/// Why a file can't be read.
#[derive(Clone, Copy, Debug, PartialEq, Eq)]
pub enum Unreadable {
    NotThere,
    NoPermission,
    Folder,
    FailedRead,
}

impl Unreadable {
    /// The words for it in a message.
    pub fn text(self) -> &'static str
        ensures { result.now ≡ unreadable_text self }
    {
        match self {
            Unreadable::NotThere => "not there",
            Unreadable::NoPermission => "no permission",
            Unreadable::Folder => "a folder",
            Unreadable::FailedRead => "a failed read",
        }
    }
}

/// The text for a sourced file that can't be read: its path, as expanded, and why.
pub fn missing_text(alloc: Global, path: &[u8], why: Unreadable) -> Result<String, AllocError>
    ensures { IfOk result (λ text. string_bytes text ≡ missing_text path.now why) }
{
    let path = String::from_utf8_lossy(alloc, path)?;
    [path.as_str(), ": ", why.text()].concat(alloc)
}

/// The text for a second definition, or for another type: the place of the first.
pub fn first_place_text(alloc: Global, path: &[u8], line: u32) -> Result<String, AllocError>
    ensures { IfOk result (λ text. string_bytes text ≡ first_place_text path.now line) }
{
    let path = String::from_utf8_lossy(alloc, path)?;
    let mut digits = Buffer::new();
    ["first at ", path.as_str(), ":", digits.format(line)].concat(alloc)
}
