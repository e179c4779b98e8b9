//! A page of output: bytes that wait until they are written together.
ghost use Rattle.std.specs.Prelude.{◌≡◌, ◌+◌, ◌≤◌, [], ◌++◌, length, OnOk, OnErr};
ghost use Rattle.air_io.specs.Flow.{FaultsRose};
ghost use Rattle.top_call.specs.UnwrittenBytes.{WritesWaiting, Loses};

use air_io::{Sink, WriteFailed, write_all};
use arrayvec::ArrayVec;
use std::marker::Model;

/// How many bytes a page has room for.
const PAGE_BYTES: usize = 4096;

/// Bytes that wait until they are written together, at most 4,096, in a room of their own. A contract sees it as the
/// list of these bytes.
#[derive(Drop)]
pub struct Page {
    bytes: ArrayVec<u8, 4096>,
}

impl Model for Page {
    ghost use Rattle.std.specs.Prelude.{ℕ, List, ◌≤◌, length};

    ghost Value = { List ℕ };

    ghost view = { λ a. a.bytes.items };

    ghost invariant = { λ a. length a.bytes.items ≤ 4096 };
}

impl Page {
    /// A page of output that has no byte yet.
    pub fn new() -> Page
        ensures { result ≡ [] }
    {
        Page {
            bytes: ArrayVec::new(),
        }
    }

    /// How many more bytes the page has room for.
    fn room(&self) -> usize
        ensures { result + length self.now ≡ 4096 }
    {
        self.bytes.remaining_capacity()
    }

    /// Adds bytes for which the page has room.
    fn add(&mut self, piece: &[u8])
        requires { length self.old + length piece.now ≤ 4096 }
        ensures { self.new ≡ self.old ++ piece.now }
    {
        // There is room.
        let _ = self.bytes.try_extend_from_slice(piece);
    }

    /// Writes the bytes that wait.
    ///
    /// # Errors
    ///
    /// A write failed. A front of the bytes was written.
    pub fn flush<O: Sink>(&mut self, output: &mut O) -> Result<(), WriteFailed>
        ensures sent { OnOk result
            (WritesWaiting self.old [] (O.written output.old) (O.written output.new)) }
        ensures empty { OnOk result (self.new ≡ []) }
        ensures failed { OnErr result (FaultsRose (O.faults output.old) (O.faults output.new)) }
        ensures lost { OnErr result (Loses self.old (O.written output.old) (O.written output.new)) }
        ensures steady { OnOk result (O.faults output.new ≡ O.faults output.old) }
    {
        write_all(output, self.bytes.as_slice())?;
        self.bytes.clear();
        Ok(())
    }

    /// Lets a piece wait behind the bytes that wait. Those are written where there is no room for it.
    ///
    /// # Errors
    ///
    /// A write failed. A front of the bytes that waited and of the piece was written.
    pub fn put<O: Sink>(&mut self, piece: &[u8], output: &mut O) -> Result<(), WriteFailed>
        ensures sent { OnOk result
            (WritesWaiting (self.old ++ piece.now) self.new (O.written output.old)
            (O.written output.new)) }
        ensures failed { OnErr result (FaultsRose (O.faults output.old) (O.faults output.new)) }
        ensures lost { OnErr result
            (Loses (self.old ++ piece.now) (O.written output.old) (O.written output.new)) }
        ensures steady { OnOk result (O.faults output.new ≡ O.faults output.old) }
    {
        if piece.len() <= self.room() {
            self.add(piece);
            return Ok(());
        }
        self.flush(output)?;
        if piece.len() <= PAGE_BYTES {
            self.add(piece);
            return Ok(());
        }
        write_all(output, piece)
    }

    /// Lets two pieces wait behind the bytes that wait, one behind the other.
    ///
    /// # Errors
    ///
    /// A write failed. A front of the bytes that waited and of the pieces was written.
    pub fn put_both<O: Sink>(
        &mut self,
        first: &[u8],
        second: &[u8],
        output: &mut O,
    ) -> Result<(), WriteFailed>
        ensures sent { OnOk result
            (WritesWaiting (self.old ++ (first.now ++ second.now)) self.new (O.written output.old)
            (O.written output.new)) }
        ensures failed { OnErr result (FaultsRose (O.faults output.old) (O.faults output.new)) }
        ensures lost { OnErr result
            (Loses (self.old ++ (first.now ++ second.now)) (O.written output.old)
            (O.written output.new)) }
        ensures steady { OnOk result (O.faults output.new ≡ O.faults output.old) }
    {
        self.put(first, output)?;
        self.put(second, output)
    }
}
