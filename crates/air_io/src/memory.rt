//! A source and a sink over memory, whose calls fail where they are told to.
ghost use Rattle.std.specs.Prelude.{◌≡◌, ◌⊎◌, ◌+◌, ◌<◌, ◌≤◌, ◌↔◌, [], ◌++◌, length, min, take, Some, IfOk, IsTrue, Contains, if◌then◌else◌};
ghost use Rattle.air_io.specs.Flow.{FaultsRose, one_more};
ghost use Rattle.air_io.specs.Takes.{IfTook, OnEnd, OnReadFailed, is_failed_read};
ghost use Rattle.air_io.specs.Puts.{IfPut, OnWriteFailed, is_failed_write};

use crate::{OutOfMemory, Put, Sink, Source, SureSource, Take};
use std::alloc::Global;
use std::marker::Model;

/// Bytes in memory, read by calls of which some fail (profile).
#[derive(Drop)]
pub struct MemSource {
    source: SureSource,
    failing: Vec<u64>,
    calls: u64,
    faults: u64,
}

impl Model for MemSource {
    ghost use Rattle.air_io.specs.Memory.{SourceMemory};

    ghost Value = { SourceMemory };

    ghost view = { λ s. record {
      left = s.source;
      failing = s.failing.items;
      calls = s.calls;
      faults = s.faults;
    } };
}

impl MemSource {
    /// A source that has these bytes left. Its reads are numbered from 1, and those with a number in `failing` fail.
    pub fn new(bytes: Vec<u8>, failing: Vec<u64>) -> MemSource
        ensures { result ≡ record {
          left = bytes.items;
          failing = failing.items;
          calls = 0;
          faults = 0;
        } }
    {
        MemSource {
            source: SureSource::new(bytes),
            failing,
            calls: 0,
            faults: 0,
        }
    }
}

impl Source for MemSource {
    ghost left = { λ s. Some s.left };

    ghost faults = { λ s. s.faults };

    fn read(&mut self, buf: &mut [u8]) -> Take
        requires { 0 < length buf.old }
        // What every source ensures.
        ensures took { IfTook result (λ count. (0 < count)
            × (self.old.left ≡ take count buf.new ++ self.new.left)) }
        ensures end { OnEnd result ((self.old.left ≡ []) × (self.new.left ≡ [])) }
        ensures failed { OnReadFailed result (FaultsRose self.old.faults self.new.faults
            × (self.new.left ≡ self.old.left)) }
        ensures count { self.old.faults ≤ self.new.faults }

        // What this one ensures besides.
        ensures most { IfTook result
            (λ count. count ≡ min (length buf.new) (length self.old.left)) }
        ensures fails { IsTrue (is_failed_read result)
            ↔ Contains self.old.failing (one_more self.old.calls) }
        ensures faults { self.new.faults
            ≡ (if is_failed_read result then one_more self.old.faults else self.old.faults) }
        ensures calls { self.new.calls ≡ one_more self.old.calls }
        ensures same { self.new.failing ≡ self.old.failing }
    {
        self.calls = self.calls.saturating_add(1);
        if self.failing.contains(&self.calls) {
            self.faults = self.faults.saturating_add(1);
            return Take::Failed;
        }
        self.source.read(buf)
    }
}

/// Bytes in memory, written by calls of which some fail (profile).
#[derive(Drop)]
pub struct MemSink {
    bytes: Vec<u8>,
    room: usize,
    failing: Vec<u64>,
    calls: u64,
    faults: u64,
}

impl Model for MemSink {
    ghost use Rattle.std.specs.Prelude.{◌≤◌, vec_len, vec_capacity};
    ghost use Rattle.air_io.specs.Memory.{SinkMemory};

    ghost Value = { SinkMemory };

    ghost view = { λ s. record {
      written = s.bytes.items;
      room = s.room;
      failing = s.failing.items;
      calls = s.calls;
      faults = s.faults;
    } };

    ghost invariant = { λ s. (vec_len s.bytes ≤ s.room) × (s.room ≤ vec_capacity s.bytes) };
}

impl MemSink {
    /// A sink with room for so many bytes, of which none is written. Its writes are numbered from 1, and those with a
    /// number in `failing` fail.
    ///
    /// # Errors
    ///
    /// There is no memory for the room.
    pub fn new(alloc: Global, room: u32, failing: Vec<u64>) -> Result<MemSink, OutOfMemory>
        ensures { IfOk result (λ sink. sink
            ≡ record {
              written = [];
              room = room;
              failing = failing.items;
              calls = 0;
              faults = 0;
            }) }
    {
        let bytes = Vec::with_capacity(alloc, room as usize)?;
        Ok(MemSink {
            bytes,
            room: room as usize,
            failing,
            calls: 0,
            faults: 0,
        })
    }

    /// The bytes written so far.
    pub fn as_slice(&self) -> &[u8]
        ensures { result.now ≡ self.now.written }
    {
        &self.bytes
    }
}

impl Sink for MemSink {
    ghost written = { λ s. Some s.written };

    ghost faults = { λ s. s.faults };

    fn write(&mut self, piece: &[u8]) -> Put
        requires { 0 < length piece.now }
        // What every sink ensures, of whole pieces.
        ensures took { IfPut result (λ count. (count ≡ length piece.now)
            × (self.new.written ≡ self.old.written ++ piece.now)) }
        ensures failed { OnWriteFailed result (FaultsRose self.old.faults self.new.faults
            × (self.new.written ≡ self.old.written)) }
        ensures count { self.old.faults ≤ self.new.faults }

        // What this one ensures besides.
        ensures fails { IsTrue (is_failed_write result)
            ↔ (Contains self.old.failing (one_more self.old.calls)
            ⊎ (self.old.room < length self.old.written + length piece.now)) }
        ensures faults { self.new.faults
            ≡ (if is_failed_write result then one_more self.old.faults else self.old.faults) }
        ensures calls { self.new.calls ≡ one_more self.old.calls }
        ensures same { (self.new.failing ≡ self.old.failing) × (self.new.room ≡ self.old.room) }
    {
        self.calls = self.calls.saturating_add(1);
        if self.failing.contains(&self.calls) || piece.len() > self.room - self.bytes.len() {
            self.faults = self.faults.saturating_add(1);
            return Put::Failed;
        }
        self.bytes.extend_from_slice(piece).unwrap();
        Put::Took(piece.len())
    }
}
