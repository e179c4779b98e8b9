//! Where bytes go.
ghost use Rattle.std.specs.Prelude.{◌≡◌, ℕ, ◌<◌, ◌≤◌, List, OnErr, OnOk, Option, length, take};
ghost use Rattle.air_io.specs.Flow.{Adds, FaultsRose};
ghost use Rattle.air_io.specs.Puts.{IfPut, OnWriteFailed, UnlessWriteFailed};

use crate::WriteFailed;

/// What one write answers (profile).
#[derive(Clone, Copy, Debug, PartialEq, Eq)]
pub enum Put {
    /// So many bytes of the piece, at least one, were added: the first ones.
    Took(usize),
    /// The sink failed. Nothing was added.
    Failed,
}

/// Bytes that are written in turn (profile).
pub trait Sink {
    /// The bytes written so far, or `None` where the sink doesn't tell them.
    ghost written: { Self → Option (List ℕ) };

    /// How many writes failed so far. It never falls, and rises at a write that fails alone.
    ghost faults: { Self → ℕ };

    /// Adds bytes from the front of the piece, which is not empty.
    fn write(&mut self, piece: &[u8]) -> Put
        requires { 0 < length piece.now }
        ensures took { IfPut result (λ count. (0 < count) × (count ≤ length piece.now)
            × Adds (written self.old) (written self.new) (take count piece.now)) }
        ensures failed { OnWriteFailed result (FaultsRose (faults self.old) (faults self.new)
            × (written self.new ≡ written self.old)) }
        ensures steady { UnlessWriteFailed result (faults self.new ≡ faults self.old) }
        ensures count { faults self.old ≤ faults self.new };

    /// Hands on the bytes that the sink took and holds back, where it does.
    ///
    /// # Errors
    ///
    /// The sink failed.
    fn flush(&mut self) -> Result<(), WriteFailed>
        ensures same { written self.new ≡ written self.old }
        ensures failed { OnErr result (FaultsRose (faults self.old) (faults self.new)) }
        ensures steady { OnOk result (faults self.new ≡ faults self.old) }
    {
        Ok(())
    }
}
