//! A sink for a caller that lends room for some bytes: it keeps these and one byte more.
ghost use Rattle.std.specs.Prelude.{◌≡◌, ◌≢◌, ◌+◌, ◌-◌, ◌<◌, ◌≤◌, [], ◌++◌, length, min, take, drop, Some};
ghost use Rattle.air_io.specs.Flow.{FaultsRose};
ghost use Rattle.air_io.specs.Puts.{IfPut, OnWriteFailed, UnlessWriteFailed};
ghost use Rattle.top_call.specs.declared.status.Status.{Status};

use air_io::{Put, Sink};
use std::alloc::Global;
use std::marker::Model;
use top_call::Status;

/// Bytes that are written. Where one more came than there is room for, the text is longer than the room.
#[derive(Drop)]
pub struct Room {
    bytes: Vec<u8>,
    /// For how many bytes there is room. It takes one more.
    room: usize,
    faults: u64,
}

impl Model for Room {
    ghost use Rattle.std.specs.Prelude.{◌+◌, ◌≤◌, vec_len};
    ghost use Rattle.gen2_library.specs.LentRoom.{RoomValue};

    ghost Value = { RoomValue };

    ghost view = { λ s. record { written = s.bytes.items; room = s.room; faults = s.faults } };

    ghost invariant = { λ s. vec_len s.bytes ≤ s.room + 1 };
}

impl Room {
    /// Room for so many bytes and one more, of which none is written. Memory for them is taken as they come.
    pub fn new(alloc: Global, room: usize) -> Room
        ensures { result ≡ record { written = []; room = room; faults = 0 } }
    {
        Room {
            bytes: Vec::new(alloc),
            room,
            faults: 0,
        }
    }

    /// How many bytes more it takes of so many.
    fn takes(&self, count: usize) -> usize
        ensures { result ≡ min count (self.now.room + 1 - length self.now.written) }
    {
        if self.bytes.len() > self.room {
            return 0;
        }
        count.min((self.room - self.bytes.len()).saturating_add(1))
    }

    /// Copies the bytes to the front of the output, as far as they have room there, and answers how many these are.
    pub fn copy_to(&self, output: &mut [u8]) -> usize
        ensures count { result ≡ min (length self.now.written) (length output.old) }
        ensures bytes { output.new ≡ take result self.now.written ++ drop result output.old }
    {
        let count = self.bytes.len().min(output.len());
        output[..count].copy_from_slice(&self.bytes[..count]);
        count
    }

    /// The status of a call with so much room behind that of the program over this sink: where more bytes came than there is room for
    /// there was no room, and where a write failed and none came too many there was no memory.
    pub fn status_behind(&self, room: usize, status: Status) -> Status
        ensures longer { room < length self.now.written → result ≡ Status.WriteFault }
        ensures no_memory { length self.now.written ≤ room → status ≡ Status.WriteFault
            → result ≡ Status.OutOfMemory }
        ensures same { length self.now.written ≤ room → status ≢ Status.WriteFault
            → result ≡ status }
    {
        if self.bytes.len() > room {
            Status::WriteFault
        } else if status == Status::WriteFault {
            Status::OutOfMemory
        } else {
            status
        }
    }
}

impl Sink for Room {
    ghost written = { λ s. Some s.written };

    ghost faults = { λ s. s.faults };

    fn write(&mut self, piece: &[u8]) -> Put
        requires { 0 < length piece.now }
        // What every sink ensures, of as many bytes as there is room for, and one more.
        ensures took { IfPut result (λ count. (0 < count)
            × (count ≡ min (length piece.now) (self.old.room + 1 - length self.old.written))
            × (self.new.written ≡ self.old.written ++ take count piece.now)) }
        ensures failed { OnWriteFailed result (FaultsRose self.old.faults self.new.faults
            × (self.new.written ≡ self.old.written)) }
        ensures count { self.old.faults ≤ self.new.faults }
        ensures steady { UnlessWriteFailed result (self.new.faults ≡ self.old.faults) }

        // What this one ensures besides.
        ensures room { self.new.room ≡ self.old.room }
    {
        let count = self.takes(piece.len());
        if count == 0 || self.bytes.extend_from_slice(&piece[..count]).is_err() {
            self.faults = self.faults.saturating_add(1);
            return Put::Failed;
        }
        Put::Took(count)
    }
}
