//! The plain text of a word, kept as it is written.
ghost use Rattle.std.specs.Prelude.{◌≡◌, ◌<◌, ◌≤◌, [], ◌++◌, length, Some};
ghost use Rattle.air_io.specs.Flow.{FaultsRose};
ghost use Rattle.air_io.specs.Puts.{IfPut, OnWriteFailed, UnlessWriteFailed};

use air_io::{Put, Sink};
use std::alloc::Global;
use std::marker::Model;

/// A sink that keeps all that is written. A write fails where there is no memory.
#[derive(Drop)]
pub struct PlainText {
    bytes: Vec<u8>,
    faults: u64,
}

impl Model for PlainText {
    ghost use Rattle.line_objects.specs.PlainText.{PlainValue};

    ghost Value = { PlainValue };

    ghost view = { λ s. record { written = s.bytes.items; faults = s.faults } };
}

impl PlainText {
    /// Nothing is written yet. Memory is taken as bytes come.
    pub fn new(alloc: Global) -> PlainText
        ensures { result ≡ record { written = []; faults = 0 } }
    {
        PlainText {
            bytes: Vec::new(alloc),
            faults: 0,
        }
    }

    /// The plain text that was written to this sink.
    pub fn as_slice(&self) -> &[u8]
        ensures { result.now ≡ self.now.written }
    {
        &self.bytes
    }
}

impl Sink for PlainText {
    ghost written = { λ s. Some s.written };

    ghost faults = { λ s. s.faults };

    fn write(&mut self, piece: &[u8]) -> Put
        requires { 0 < length piece.now }
        // What every sink ensures, of whole pieces.
        ensures took { IfPut result (λ count. (count ≡ length piece.now)
            × (self.new.written ≡ self.old.written ++ piece.now)) }
        ensures failed { OnWriteFailed result (FaultsRose self.old.faults self.new.faults
            × (self.new.written ≡ self.old.written)) }
        ensures steady { UnlessWriteFailed result (self.new.faults ≡ self.old.faults) }
        ensures count { self.old.faults ≤ self.new.faults }
    {
        if self.bytes.extend_from_slice(piece).is_err() {
            self.faults = self.faults.saturating_add(1);
            return Put::Failed;
        }
        Put::Took(piece.len())
    }
}
