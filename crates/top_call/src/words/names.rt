//! The word `names`: lines, each with its name behind it.
ghost use Rattle.std.specs.Prelude.{◌≡◌, ◌≢◌, Err, ℕ, ◌+◌, ◌≤◌, List, [], ◌∷◌, ◌++◌, length, OnOk, OnErr, IfSome, IfNone};
ghost use Rattle.air_io.specs.Flow.{FaultsRose};
ghost use Rattle.text_fields.specs.Lines.{line_feed, text_with};
ghost use Rattle.report_lines.specs.Names.{BecomesLines};
ghost use Rattle.epc_sgtin.specs.SgtinText.{name_line};
ghost use Rattle.top_call.specs.Job.{Defines, IsLawful};
ghost use Rattle.top_call.specs.words.Names.{IsOfLines, IsCutAt, names_job};
ghost use Rattle.top_call.specs.StatusMeanings.{input_limit, EndsSo, sink_change};
ghost use Rattle.top_call.specs.UnwrittenBytes.{WritesWaiting, Loses};

use crate::ending::{WriteEnd, Wrote, write_text};
use crate::words::page::Page;
use air_io::{Sink, WriteFailed};
use arrayvec::ArrayVec;
use epc_sgtin::{Sgtin, Uri};
use report_lines::{lines_have_names, listed_sgtin};
use text_fields::{fault_line, push_bytes, split_line};

/// Writes what is defined for the bytes of an input: its lines, each with its name behind it, or the one line that
/// reports that the last line has no line feed. It takes no memory.
pub fn write_with_names<O: Sink>(input: &[u8], output: &mut O) -> Result<Wrote, WriteEnd>
    requires { length input.now ≤ input_limit }
    ensures ends { EndsSo names_job input.now
        (sink_change O.written O.faults output.old output.new) result }
    ensures memory { result ≢ Err WriteEnd.OutOfMemory }
{
    match cut_line(input) {
        None => write_named(input, output),
        Some(number) => {
            let line = fault_line(number, "end");
            write_text(Wrote::FaultLine, line.as_slice(), output)
        }
    }
}

/// The number of the last line, counted from 1, where it has no line feed; none exactly where each line has one.
fn cut_line(input: &[u8]) -> Option<u32>
    requires { length input.now ≤ input_limit }
    ensures some { IfSome result (IsCutAt input.now) }
    ensures none { IfNone result (IsOfLines input.now) }
{
    let mut rest = input;
    let mut number = 1;
    while let Some((_, behind)) = split_line(rest) {
        rest = behind;
        number += 1;
    }
    if rest.is_empty() { None } else { Some(number) }
}

/// Writes the lines of an input, each with its name behind it.
fn write_named<O: Sink>(input: &[u8], output: &mut O) -> Result<Wrote, WriteEnd>
    requires { IsOfLines input.now }
    ensures ends { EndsSo names_job input.now
        (sink_change O.written O.faults output.old output.new) result }
    ensures memory { result ≢ Err WriteEnd.OutOfMemory }
{
    // By this law each line that is left has a name or has none, so that there is a whole text.
    lines_have_names();
    let mut page = Page::new();
    let mut rest = input;
    while let Some((line, behind)) = split_line(rest) {
        put_named(line, &mut page, output)?;
        rest = behind;
    }
    page.flush(output)?;
    Ok(Wrote::Text)
}

/// Lets a line wait on the page, and its name behind it.
fn put_named<O: Sink>(line: &[u8], page: &mut Page, output: &mut O) -> Result<(), WriteFailed>
    ensures sent { OnOk result ((lines : List (List ℕ)) × BecomesLines line.now lines
        × WritesWaiting (page.old ++ text_with lines) page.new (O.written output.old)
        (O.written output.new)) }
    ensures failed { OnErr result (FaultsRose (O.faults output.old) (O.faults output.new)) }
    ensures lost { OnErr result ((lines : List (List ℕ)) × BecomesLines line.now lines
        × Loses (page.old ++ text_with lines) (O.written output.old) (O.written output.new)) }
    ensures steady { OnOk result (O.faults output.new ≡ O.faults output.old) }
{
    match listed_sgtin(line) {
        Some(sgtin) => {
            let name = text_behind(&sgtin);
            page.put_both(line, name.as_slice(), output)
        }
        None => page.put_both(line, b"\n", output),
    }
}

/// What stands behind a line that has this name: its line feed, and the line of the name.
fn text_behind(sgtin: &Sgtin) -> ArrayVec<u8, 67>
    ensures { result.items ≡ line_feed ∷ name_line sgtin.now ++ line_feed ∷ [] }
{
    let mut uri = Uri::new();
    sgtin.write_uri(&mut uri);
    let mut text = ArrayVec::new();
    push_bytes(&mut text, b"\nname ");
    push_bytes(&mut text, uri.as_slice());
    push_bytes(&mut text, b"\n");
    text
}

/// An input has one text with its names or one fault line at most, and never both.
pub fn names_are_lawful()
    ensures { IsLawful names_job }
{
    lines_have_names();
}

/// Each list of bytes has a defined text under `names`: its lines with their names, or its fault line.
pub fn names_inputs_have_a_text()
    ensures { (bytes : List ℕ) → (text : List ℕ) × Defines names_job bytes text }
{
    lines_have_names();
}
