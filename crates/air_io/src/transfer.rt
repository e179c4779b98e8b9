//! Reading all of a source, and writing all of a piece.
ghost use Rattle.std.specs.Prelude.{◌≡◌, ℕ, ◌+◌, ◌≤◌, List, length, take, IfOk, OnOk, OnErr, vec_len, IfErr, IsErrOf};
ghost use Rattle.air_io.specs.Flow.{TakesBytes, Adds, AtEnd, FaultsRose};
ghost use Rattle.air_io.specs.ReadEnds.{UnlessFault, most_read};
ghost use Rattle.air_io.specs.declared.transfer.ReadEnd.TheVariants.{OutOfMemory};

use crate::{Put, Sink, Source, Take};
use std::alloc::{AllocError, Global};
use std::marker::Model;
use thiserror::Error;

/// A list of bytes (profile).
#[derive(Drop)]
pub struct Bytes {
    items: Vec<u8>,
}

impl Model for Bytes {
    ghost use Rattle.std.specs.Prelude.{ℕ, List};

    ghost Value = { List ℕ };

    ghost view = { λ b. b.items.items };
}

impl Bytes {
    /// The list of these bytes.
    pub fn new(items: Vec<u8>) -> Bytes
        ensures { result ≡ items.items }
    {
        Bytes { items }
    }

    /// The bytes, in order.
    pub fn as_slice(&self) -> &[u8]
        ensures { result.now ≡ self.now }
    {
        &self.items
    }
}

/// Why a source was not read to its end (profile).
#[derive(Clone, Copy, Debug, PartialEq, Eq)]
pub enum ReadEnd {
    /// A read failed.
    Fault,
    /// There are more bytes than the limit.
    TooLong,
    /// There is no memory for the bytes.
    OutOfMemory,
}

impl From<AllocError> for ReadEnd {
    ghost from_gives = { λ _ end. end ≡ OutOfMemory };

    fn from(_: AllocError) -> ReadEnd {
        ReadEnd::OutOfMemory
    }
}

/// A write failed, so the piece was not written whole (profile).
#[derive(Clone, Copy, Debug, PartialEq, Eq, Error)]
#[error("a write failed, and the piece was not written whole")]
pub struct WriteFailed;

/// How many bytes one read of `read_to_end` may take.
const BUFFER_BYTES: usize = 65536;

// What each read of `read_to_end` is lent a part of.
fn empty_buffer(alloc: Global) -> Result<Vec<u8>, AllocError>
    ensures { IfOk result (λ buffer. vec_len buffer ≡ BUFFER_BYTES) }
{
    vec![in alloc; 0u8; BUFFER_BYTES]
}

/// Reads the source to its end, and gives all its bytes. It reads at most one byte more than the limit.
///
/// # Errors
///
/// - `Fault`: a read failed.
/// - `TooLong`: more than `limit` bytes were read.
/// - `OutOfMemory`: there is no memory for the bytes.
pub fn read_to_end<I: Source>(alloc: Global, src: &mut I, limit: u32) -> Result<Bytes, ReadEnd>
    ensures ok { IfOk result (λ bytes. TakesBytes (I.left src.old) (I.left src.new) bytes
        × (length bytes ≤ limit) × AtEnd (I.left src.new)) }
    ensures too_long { IsErrOf result ReadEnd.TooLong
        → ((bytes : List ℕ) × TakesBytes (I.left src.old) (I.left src.new) bytes
        × (length bytes ≡ limit + 1)) }
    ensures fault { IsErrOf result ReadEnd.Fault
        → FaultsRose (I.faults src.old) (I.faults src.new) }
    // No read failed where no failure is told.
    ensures steady { OnOk result (I.faults src.new ≡ I.faults src.old) }
    ensures unfailing { IfErr result
        (λ end. UnlessFault end (I.faults src.new ≡ I.faults src.old)) }
    ensures part { IfErr result (λ end. (bytes : List ℕ)
        × TakesBytes (I.left src.old) (I.left src.new) bytes
        × (length bytes ≤ most_read end limit)) }
    ensures count { I.faults src.old ≤ I.faults src.new }
{
    let mut buffer = empty_buffer(alloc)?;
    let most = limit as usize;
    let mut bytes = Vec::new(alloc);
    'reads: loop {
        let room = BUFFER_BYTES.min(most + 1 - bytes.len());
        let lent = &mut buffer[..room];
        match src.read(lent) {
            Take::Took(count) => {
                if count > most - bytes.len() {
                    return Err(ReadEnd::TooLong);
                }
                bytes.extend_from_slice(&lent[..count])?;
            }
            Take::End => return Ok(Bytes::new(bytes)),
            Take::Failed => return Err(ReadEnd::Fault),
        }
    }
}

/// Writes the whole piece.
///
/// # Errors
///
/// A write failed. The bytes before it were added: a front of the piece, maybe none.
pub fn write_all<O: Sink>(out: &mut O, piece: &[u8]) -> Result<(), WriteFailed>
    ensures ok { OnOk result (Adds (O.written out.old) (O.written out.new) piece.now) }
    ensures failed { OnErr result (FaultsRose (O.faults out.old) (O.faults out.new)) }
    ensures steady { OnOk result (O.faults out.new ≡ O.faults out.old) }
    ensures part { OnErr result
        ((count : ℕ) × (count ≤ length piece.now)
        × Adds (O.written out.old) (O.written out.new) (take count piece.now)) }
    ensures count { O.faults out.old ≤ O.faults out.new }
{
    let mut done = 0;
    while done < piece.len() {
        match out.write(&piece[done..]) {
            Put::Took(count) => done += count,
            Put::Failed => return Err(WriteFailed),
        }
    }
    Ok(())
}
