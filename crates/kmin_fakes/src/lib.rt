//! What the tests of several crates are made with, and no other code uses: readers, writers and a disk in memory that fail where a
//! test wants it, a call made a second time, and whether a value is printed as a text.
#![tactic(auto)]

mod memory_disk;
mod printed_texts;
mod test_streams;

pub use memory_disk::{MemoryDisk, MemoryFile, MemoryNewFile, MemoryRename};
pub use printed_texts::is_printed;
pub use test_streams::{Bounded, Script, Then};

/// Makes a call again where it was refused at its first try.
#[macro_export]
macro_rules! twice {
    ($call:expr) => {
        match $call {
            Ok(made) => made,
            Err(_) => $call?,
        }
    };
}

/// Makes a call again where it was refused at its first try, which has to leave the state as it was; else it stays refused.
#[macro_export]
macro_rules! twice_on {
    ($state:expr, $call:expr) => {{
        let before = $state;
        match $call {
            Ok(made) => made,
            Err(fault) => {
                if $state != before {
                    return Err(fault);
                }
                $call?
            }
        }
    }};
}

/// The result of an expression about a value, which is dropped first.
#[macro_export]
macro_rules! and_drop {
    (mut $value:ident = $made:expr; $result:expr) => {{
        let mut $value = $made;
        let result = $result;
        drop($value);
        result
    }};
    ($value:ident = $made:expr; $result:expr) => {{
        let $value = $made;
        let result = $result;
        drop($value);
        result
    }};
}
