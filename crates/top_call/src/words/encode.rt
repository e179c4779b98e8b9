//! The word `encode`: for each line the one that `decode` reads.
ghost use Rattle.std.specs.Prelude.{◌≡◌, ◌≤◌, ℕ, List, [], ◌++◌, length, OnOk, OnErr, IsErrOf};
ghost use Rattle.air_io.specs.Flow.{FaultsRose};
ghost use Rattle.encode_lines.specs.EncodeLines.{EncodesLine, AskForEncoding};
ghost use Rattle.encode_lines.specs.Request.{AsksToEncode};
ghost use Rattle.encode_lines.specs.declared.request.Request.{Request};
ghost use Rattle.top_call.specs.Job.{IsLawful};
ghost use Rattle.top_call.specs.StatusMeanings.{input_limit, EndsSo, sink_change};
ghost use Rattle.top_call.specs.UnwrittenBytes.{WritesWaiting, Loses};
ghost use Rattle.top_call.specs.words.Encode.{encode_job};

use crate::ending::{WriteEnd, Wrote, write_text};
use crate::words::page::Page;
use air_io::Sink;
use encode_lines::{
    Encoder, check_lines, encode_lines_are_not_faulty, encode_lines_have_a_text,
    encode_lines_have_one_text, fault_text, requests_have_a_line,
};
use round_trip::written_lines_are_read_back;
use std::alloc::Global;
use text_fields::split_line;

/// Writes what is defined for the bytes of an input: a line for each of its lines, or the one line that reports the first
/// faulty line.
pub fn write_encoded<O: Sink>(
    alloc: Global,
    input: &[u8],
    output: &mut O,
) -> Result<Wrote, WriteEnd>
    requires { length input.now ≤ input_limit }
    ensures { EndsSo encode_job input.now
        (sink_change O.written O.faults output.old output.new) result }
{
    match check_lines(input) {
        Ok(()) => write_lines(alloc, input, output),
        Err(fault) => {
            let line = fault_text(fault);
            write_text(Wrote::FaultLine, line.as_slice(), output)
        }
    }
}

/// Writes a line for each line of an input.
fn write_lines<O: Sink>(alloc: Global, input: &[u8], output: &mut O) -> Result<Wrote, WriteEnd>
    requires { AskForEncoding input.now }
    ensures { EndsSo encode_job input.now
        (sink_change O.written O.faults output.old output.new) result }
{
    // By this law a line is written for each line that is left, so that there is a whole text.
    requests_have_a_line();
    let mut encoder = Encoder::new(alloc)?;
    let mut text = String::new(alloc);
    let mut page = Page::new();
    let mut rest = input;
    while let Some((line, behind)) = split_line(rest) {
        put_encoded(&mut encoder, line, &mut text, &mut page, output)?;
        rest = behind;
    }
    page.flush(output)?;
    Ok(Wrote::Text)
}

/// Lets the line that is written for a line wait on the page. It is made in the text, in place of what that holds.
fn put_encoded<O: Sink>(
    encoder: &mut Encoder,
    line: &[u8],
    text: &mut String,
    page: &mut Page,
    output: &mut O,
) -> Result<(), WriteEnd>
    requires { (request : Request) × AsksToEncode line.now request }
    ensures sent { OnOk result ((written : List ℕ) × EncodesLine line.now [] written
        × WritesWaiting (page.old ++ written) page.new (O.written output.old)
        (O.written output.new)) }
    ensures failed { IsErrOf result WriteEnd.Fault
        → FaultsRose (O.faults output.old) (O.faults output.new) }
    ensures memory { IsErrOf result WriteEnd.OutOfMemory
        → O.faults output.new ≡ O.faults output.old }
    ensures steady { OnOk result (O.faults output.new ≡ O.faults output.old) }
    ensures lost { OnErr result ((written : List ℕ) × EncodesLine line.now [] written
        × Loses (page.old ++ written) (O.written output.old) (O.written output.new)) }
{
    requests_have_a_line();
    text.clear();
    encoder.encode_line(line, text)?;
    page.put(text.as_bytes(), output)?;
    Ok(())
}

/// An input has one text or one fault line at most, and never both, and `decode` reads back what is written for it.
pub fn encode_is_lawful()
    ensures { IsLawful encode_job }
{
    encode_lines_have_one_text();
    encode_lines_are_not_faulty();
    written_lines_are_read_back();
}
