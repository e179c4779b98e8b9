//! The answers to the lines of a source.
ghost use Rattle.std.specs.Prelude.{◌≡◌, ◌<◌, ◌≤◌, ◌+◌, ◌^◌, ℕ, List, length, IfOk, IfErr, OnOk, IsErrOf, vec_len};
ghost use Rattle.air_io.specs.Flow.{AtEnd, FaultsRose, TakesBytes};
ghost use Rattle.air_io.specs.ReadEnds.{UnlessFault, most_read};
ghost use Rattle.decode_lines.specs.DecodeLines.{Decodes, IsFirstDecodeFault};
ghost use Rattle.std.specs.String.{string_bytes};

use crate::lines::Answering;
use air_io::{ReadEnd, Source, Take};
use checked_lines::FaultyLine;
use std::alloc::{AllocError, Global};

/// How many bytes one read may take.
const BUFFER_BYTES: usize = 65536;

/// The bytes that each read is lent a part of.
fn empty_buffer(alloc: Global) -> Result<Vec<u8>, AllocError>
    ensures { IfOk result (λ buffer. vec_len buffer ≡ BUFFER_BYTES) }
{
    vec![in alloc; 0u8; BUFFER_BYTES]
}

/// Reads the source to its end, and gives the answers to its lines, each on a line of its own, in order; or the
/// first faulty line, with the first reason that applies to it. Of the input no more is kept than a line. It
/// reads at most one byte more than the limit.
///
/// # Errors
///
/// - `Fault`: a read failed.
/// - `TooLong`: more than `limit` bytes were read.
/// - `OutOfMemory`: there is no memory for a line or for the answers.
pub fn answer_source<I: Source>(
    alloc: Global,
    source: &mut I,
    limit: u32,
) -> Result<Result<String, FaultyLine>, ReadEnd>
    requires { limit + 1 < 2 ^ 32 }
    ensures ok { IfOk result
        (λ answered. (input : List ℕ) × TakesBytes (I.left source.old) (I.left source.new) input
        × (length input ≤ limit) × AtEnd (I.left source.new)
        × IfOk answered (λ text. Decodes input (string_bytes text))
        × IfErr answered (IsFirstDecodeFault input)) }
    ensures too_long { IsErrOf result ReadEnd.TooLong
        → ((bytes : List ℕ) × TakesBytes (I.left source.old) (I.left source.new) bytes
        × (length bytes ≡ limit + 1)) }
    ensures fault { IsErrOf result ReadEnd.Fault
        → FaultsRose (I.faults source.old) (I.faults source.new) }
    // No read failed where no failure is told.
    ensures steady { OnOk result (I.faults source.new ≡ I.faults source.old) }
    ensures unfailing { IfErr result
        (λ end. UnlessFault end (I.faults source.new ≡ I.faults source.old)) }
    ensures part { IfErr result (λ end. (bytes : List ℕ)
        × TakesBytes (I.left source.old) (I.left source.new) bytes
        × (length bytes ≤ most_read end limit)) }
    ensures count { I.faults source.old ≤ I.faults source.new }
{
    let mut buffer = empty_buffer(alloc)?;
    let mut answering = Answering::new(alloc)?;
    let most = limit as usize;
    let mut read = 0;
    'reads: loop {
        let room = BUFFER_BYTES.min(most + 1 - read);
        let lent = &mut buffer[..room];
        match source.read(lent) {
            Take::Took(count) => {
                if count > most - read {
                    return Err(ReadEnd::TooLong);
                }
                answering.take(&lent[..count])?;
                read += count;
            }
            Take::End => return Ok(answering.end()),
            Take::Failed => return Err(ReadEnd::Fault),
        }
    }
}
