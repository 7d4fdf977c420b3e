//! The incomplete line of a file that is read in pieces.
ghost use Rattle.std.specs.Prelude.{◌≡◌, ℕ, ◌+◌, ◌<◌, ◌≤◌, [], ◌++◌, length, IfErr, OnOk, ◌⊎◌, OnErr};

use kc_dotconfig_model::LoadKind;
use kc_value::MAX_LINE_BYTES;
use std::alloc::Global;
use std::marker::Model;

/// The bytes so far of an incomplete line, at most `MAX_LINE_BYTES`.
#[derive(Drop)]
pub(crate) struct LineBuffer {
    line: Vec<u8>,
}

impl Model for LineBuffer {
    ghost use Rattle.std.specs.Prelude.{ℕ, ◌≤◌, List, length};
    ghost use Rattle.kc_value.specs.declared.limits.TheConstants.{MAX_LINE_BYTES};

    ghost Value = { List ℕ };

    ghost view = { λ c. c.line.items };

    ghost invariant = { λ c. length c.line.items ≤ MAX_LINE_BYTES };
}

impl LineBuffer {
    /// An empty line buffer.
    pub(crate) fn new(alloc: Global) -> LineBuffer
        ensures { result ≡ [] }
    {
        LineBuffer {
            line: Vec::new(alloc),
        }
    }

    /// The bytes so far of the incomplete line.
    pub(crate) fn line(&self) -> &[u8]
        ensures line { result.now ≡ self.now }
        ensures short { length self.now ≤ MAX_LINE_BYTES }
    {
        self.line.as_slice()
    }

    /// Appends a piece to the incomplete line, unless the line gets too long. An `Err` leaves the line unchanged.
    pub(crate) fn push(&mut self, piece: &[u8]) -> Result<(), LoadKind>
        ensures ok { OnOk result (self.new ≡ self.old ++ piece.now) }
        ensures short { OnOk result (length self.old + length piece.now ≤ MAX_LINE_BYTES) }
        ensures long { result ≡ Err LoadKind.LineTooLong → MAX_LINE_BYTES < length self.old + length piece.now }
        ensures kinds { IfErr result (λ kind. (kind ≡ LoadKind.LineTooLong) ⊎ (kind ≡ LoadKind.OutOfMemory)) }
        ensures err { OnErr result (self.new ≡ self.old) }
    {
        if piece.len() > MAX_LINE_BYTES - self.line.len() {
            return Err(LoadKind::LineTooLong);
        }
        self.line
            .extend_from_slice(piece)
            .map_err(|_| LoadKind::OutOfMemory)
    }

    /// Empties the buffer for the next line.
    pub(crate) fn clear(&mut self)
        ensures { self.new ≡ [] }
    {
        self.line.clear();
    }
}
