//! The limits of a tree.
ghost use Rattle.std.specs.Prelude.{◌≡◌, IfOk, string_bytes};
ghost use Rattle.kmin_details.specs.Texts.{limit_count, limit_unit, limit_text};

use itoa::Buffer;
use kc_value::{
    MAX_CHOICES, MAX_FILES, MAX_LISTED_NAMES, MAX_NAME_BYTES, MAX_SYMBOLS, MAX_TREE_BYTES, MAX_WORK,
};
use kmin_faults::Limit;
use std::alloc::{AllocError, Global};

/// The most of it that there may be.
fn count_of(limit: Limit) -> usize
    ensures { result ≡ limit_count limit }
{
    match limit {
        Limit::Symbols => MAX_SYMBOLS,
        Limit::Choices => MAX_CHOICES,
        Limit::Files => MAX_FILES,
        Limit::TreeBytes => MAX_TREE_BYTES,
        Limit::NameBytes => MAX_NAME_BYTES,
        Limit::ListedNames => MAX_LISTED_NAMES,
        Limit::Work => MAX_WORK,
    }
}

/// What is counted.
fn unit_of(limit: Limit) -> &'static str
    ensures { result.now ≡ limit_unit limit }
{
    match limit {
        Limit::Symbols => "symbols",
        Limit::Choices => "choices",
        Limit::Files => "files",
        Limit::TreeBytes => "bytes of all files",
        Limit::NameBytes => "bytes of a name",
        Limit::ListedNames => "names in folders",
        Limit::Work => "steps of work",
    }
}

/// The text for a limit that a tree exceeds.
pub fn limit_text(alloc: Global, limit: Limit) -> Result<String, AllocError>
    ensures { IfOk result (λ text. string_bytes text ≡ limit_text limit) }
{
    let mut digits = Buffer::new();
    [
        "more than ",
        digits.format(count_of(limit)),
        " ",
        unit_of(limit),
    ]
    .concat(alloc)
}
