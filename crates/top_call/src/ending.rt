//! How the reading of an input and the writing of a word's text ended, and the status of that.
ghost use Rattle.std.specs.Prelude.{◌≡◌, Result};
ghost use Rattle.top_call.specs.StatusMeanings.{WritesAs, sink_change, status_of, unread_status};

use crate::status::Status;
use air_io::{ReadEnd, Sink, WriteFailed, write_all};
use air_world::PlayFault;
use std::alloc::AllocError;

/// How many bytes the program reads of its input at most.
pub const MOST_INPUT_BYTES: u32 = 16_777_216;

/// What was written whole.
#[derive(Clone, Copy)]
pub enum Wrote {
    /// The text of an input that the grammar allows.
    Text,
    /// The one line that reports the first faulty line of the input.
    FaultLine,
}

/// Why the defined text was not written whole.
#[derive(Clone, Copy)]
pub enum WriteEnd {
    /// A write failed.
    Fault,
    /// There was no memory.
    OutOfMemory,
}

impl From<WriteFailed> for WriteEnd {
    ghost use Rattle.std.specs.Prelude.{◌≡◌};
    ghost use Rattle.top_call.specs.declared.ending.WriteEnd.TheVariants.{Fault};

    ghost from_gives = { λ _ end. end ≡ Fault };

    fn from(_error: WriteFailed) -> WriteEnd {
        WriteEnd::Fault
    }
}

impl From<AllocError> for WriteEnd {
    ghost use Rattle.std.specs.Prelude.{◌≡◌};
    ghost use Rattle.top_call.specs.declared.ending.WriteEnd.TheVariants.{OutOfMemory};

    ghost from_gives = { λ _ end. end ≡ OutOfMemory };

    fn from(_error: AllocError) -> WriteEnd {
        WriteEnd::OutOfMemory
    }
}

impl From<PlayFault> for WriteEnd {
    ghost use Rattle.std.specs.Prelude.{◌≡◌};
    ghost use Rattle.top_call.specs.Ending.{end_of_play};

    ghost from_gives = { λ fault end. end ≡ end_of_play fault };

    fn from(fault: PlayFault) -> WriteEnd {
        match fault {
            PlayFault::Write => WriteEnd::Fault,
            PlayFault::OutOfMemory => WriteEnd::OutOfMemory,
        }
    }
}

/// Writes a text whole, and gives what it was: the text of a word, or a fault line.
pub(crate) fn write_text<O: Sink>(
    wrote: Wrote,
    text: &[u8],
    output: &mut O,
) -> Result<Wrote, WriteEnd>
    ensures { WritesAs result wrote text.now
        (sink_change O.written O.faults output.old output.new) }
{
    write_all(output, text)?;
    Ok(wrote)
}

/// The status of the program by how the writing of its text ended.
pub(crate) fn status_of(end: Result<Wrote, WriteEnd>) -> Status
    ensures { result ≡ status_of end }
{
    match end {
        Ok(Wrote::Text) => Status::Done,
        Ok(Wrote::FaultLine) => Status::BadInput,
        Err(WriteEnd::Fault) => Status::WriteFault,
        Err(WriteEnd::OutOfMemory) => Status::OutOfMemory,
    }
}

/// The status of the program where its source was not read to its end.
pub(crate) fn unread_status(end: ReadEnd) -> Status
    ensures { result ≡ unread_status end }
{
    match end {
        ReadEnd::Fault => Status::ReadFault,
        ReadEnd::TooLong => Status::TooLong,
        ReadEnd::OutOfMemory => Status::OutOfMemory,
    }
}
