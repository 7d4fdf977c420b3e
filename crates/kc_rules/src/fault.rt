//! Why a tree isn't settled.
use thiserror::Error;

/// Why a tree isn't settled. The displayed text of each kind is its name.
#[derive(Debug, Drop, Error)]
pub enum SettleFault {
    /// Units depend on each other in a cycle: the numbers of its units, each depending on the next and the last on the first.
    #[error("Cycle")]
    Cycle(Vec<u32>),

    /// Memory ran out.
    #[error("OutOfMemory")]
    OutOfMemory,
}
