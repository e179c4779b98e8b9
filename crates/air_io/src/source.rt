//! Where bytes come from.
ghost use Rattle.std.specs.Prelude.{◌≡◌, ℕ, ◌<◌, ◌≤◌, List, Option, length, take};
ghost use Rattle.air_io.specs.Flow.{TakesBytes, AtEnd, FaultsRose};
ghost use Rattle.air_io.specs.Takes.{IfTook, OnEnd, OnReadFailed, UnlessReadFailed};

/// What one read answers (profile).
#[derive(Clone, Copy, Debug, PartialEq, Eq)]
pub enum Take {
    /// So many bytes, at least one, stand at the front of the buffer.
    Took(usize),
    /// Nothing is left.
    End,
    /// The source failed. Nothing was taken.
    Failed,
}

/// Bytes that are read in turn (profile).
pub trait Source {
    /// The bytes not yet read, or `None` where the source doesn't tell them.
    ghost left: { Self → Option (List ℕ) };

    /// How many reads failed so far. It never falls, and rises at a read that fails alone.
    ghost faults: { Self → ℕ };

    /// Takes the next bytes, at most as many as the buffer holds, which is not empty.
    fn read(&mut self, buf: &mut [u8]) -> Take
        requires { 0 < length buf.old }
        ensures took { IfTook result (λ count. (0 < count) × (count ≤ length buf.new)
            × TakesBytes (left self.old) (left self.new) (take count buf.new)) }
        ensures end { OnEnd result (AtEnd (left self.old) × (left self.new ≡ left self.old)) }
        ensures failed { OnReadFailed result (FaultsRose (faults self.old) (faults self.new)
            × (left self.new ≡ left self.old)) }
        ensures steady { UnlessReadFailed result (faults self.new ≡ faults self.old) }
        ensures count { faults self.old ≤ faults self.new };
}
