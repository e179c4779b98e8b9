//! The word `decode`: captures and bit strings, explained line by line.
ghost use Rattle.std.specs.Prelude.{◌≡◌, ℕ, List, IfOk, IfErr};
ghost use Rattle.std.specs.String.{string_bytes};
ghost use Rattle.decode_lines.specs.DecodeLines.{Decodes, IsFirstDecodeFault};
ghost use Rattle.top_call.specs.Job.{IsLawful};
ghost use Rattle.top_call.specs.StatusMeanings.{EndsSo, Tells, source_change, sink_change};
ghost use Rattle.top_call.specs.words.Decode.{decode_job};

use crate::ending::{MOST_INPUT_BYTES, WriteEnd, Wrote, status_of, unread_status, write_text};
use crate::status::Status;
use air_io::{Sink, Source};
use decode_lines::{
    FaultyLine, answer_source, decode_lines_are_not_faulty, decode_lines_have_one_text, fault_text,
};
use std::alloc::Global;

/// Decodes the lines of the input as they come, and then writes the answers to them, or a fault line. Nothing is
/// written before the input is read to its end.
pub fn answer<I: Source, O: Sink>(alloc: Global, input: &mut I, output: &mut O) -> Status
    ensures { Tells decode_job (source_change I.left I.faults input.old input.new)
        (sink_change O.written O.faults output.old output.new) (output.new ≡ output.old) result }
{
    match answer_source(alloc, input, MOST_INPUT_BYTES) {
        Ok(answered) => status_of(write_answered(&answered, output)),
        Err(end) => unread_status(end),
    }
}

/// Writes the answers to the lines of an input, or the one line that reports its first faulty line.
fn write_answered<O: Sink>(
    answered: &Result<String, FaultyLine>,
    output: &mut O,
) -> Result<Wrote, WriteEnd>
    ensures { (input : List ℕ) → IfOk answered.now (λ text. Decodes input (string_bytes text))
        → IfErr answered.now (IsFirstDecodeFault input)
        → EndsSo decode_job input (sink_change O.written O.faults output.old output.new) result }
{
    match answered {
        Ok(text) => write_text(Wrote::Text, text.as_bytes(), output),
        Err(fault) => {
            let line = fault_text(*fault);
            write_text(Wrote::FaultLine, line.as_slice(), output)
        }
    }
}

/// An input has one text of answers or one fault line at most, and never both.
pub fn decode_is_lawful()
    ensures { IsLawful decode_job }
{
    decode_lines_have_one_text();
    decode_lines_are_not_faulty();
}
