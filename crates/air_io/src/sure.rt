//! A source and a sink that never fail.
ghost use Rattle.std.specs.Prelude.{◌≡◌, ◌<◌, ◌≤◌, [], ◌++◌, length, take, min, Some, None, false};
ghost use Rattle.air_io.specs.Takes.{IfTook, OnEnd, is_failed_read};

use crate::{Put, Sink, Source, Take};
use std::marker::Model;

/// Bytes in memory. A read never fails (profile).
#[derive(Drop)]
pub struct SureSource {
    bytes: Vec<u8>,
    // how many of them were read
    read: usize,
}

impl Model for SureSource {
    ghost use Rattle.std.specs.Prelude.{ℕ, List, ◌≤◌, drop, vec_len};

    ghost Value = { List ℕ };

    ghost view = { λ s. drop s.read s.bytes.items };

    ghost invariant = { λ s. s.read ≤ vec_len s.bytes };
}

impl SureSource {
    /// A source that has these bytes left.
    pub fn new(bytes: Vec<u8>) -> SureSource
        ensures { result ≡ bytes.items }
    {
        SureSource { bytes, read: 0 }
    }
}

impl Source for SureSource {
    ghost left = { λ s. Some s };

    ghost faults = { λ _. 0 };

    fn read(&mut self, buf: &mut [u8]) -> Take
        requires { 0 < length buf.old }
        ensures took { IfTook result (λ count. (0 < count)
            × (self.old ≡ take count buf.new ++ self.new)) }
        ensures end { OnEnd result ((self.old ≡ []) × (self.new ≡ [])) }
        ensures most { IfTook result (λ count. count ≡ min (length buf.new) (length self.old)) }
        ensures never_fails { is_failed_read result ≡ false }
    {
        let rest = &self.bytes[self.read..];
        let count = rest.len().min(buf.len());
        if count == 0 {
            return Take::End;
        }
        buf[..count].copy_from_slice(&rest[..count]);
        self.read += count;
        Take::Took(count)
    }
}

/// Takes every piece whole and keeps none of it. A write never fails (profile).
#[derive(Clone, Copy, Debug, PartialEq, Eq)]
pub struct SureSink;

impl SureSink {
    /// A sink that keeps nothing.
    pub fn new() -> SureSink {
        SureSink
    }
}

impl Sink for SureSink {
    ghost written = { λ _. None };

    ghost faults = { λ _. 0 };

    fn write(&mut self, piece: &[u8]) -> Put
        requires { 0 < length piece.now }
        ensures { result ≡ Put.Took (length piece.now) }
    {
        Put::Took(piece.len())
    }
}
