//! What is kept of the bytes of a configuration file while they are read.
ghost use Rattle.std.specs.Prelude.{◌≡◌, ◌++◌, ℕ, List, OnOk};

use std::alloc::AllocError;

/// What is kept of the bytes of a configuration file while they are read: all of them, in a `Vec<u8>`, or none, in a `()`.
pub trait KeptBytes {
    /// That these bytes are kept, or none need be.
    ghost has: { Self → List ℕ → Type 0 };

    /// Keeps bytes after those that are kept. An `Err` means out of memory.
    fn keep(&mut self, bytes: &[u8]) -> Result<(), AllocError>
        ensures { OnOk result ((before : List ℕ) → has self.old before → has self.new (before ++ bytes.now)) };
}

/// No bytes are kept.
impl KeptBytes for () {
    ghost has = { λ kept bytes. Unit {0} };

    fn keep(&mut self, _bytes: &[u8]) -> Result<(), AllocError> {
        Ok(())
    }
}

/// All bytes are kept.
impl KeptBytes for Vec<u8> {
    ghost has = { λ kept bytes. kept.items ≡ bytes };

    fn keep(&mut self, bytes: &[u8]) -> Result<(), AllocError> {
        self.extend_from_slice(bytes)
    }
}
