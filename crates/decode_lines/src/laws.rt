//! The laws of decode lines and their texts.
ghost use Rattle.std.specs.Prelude.{◌≡◌, ◌⊎◌, ℕ, List};
ghost use Rattle.decode_lines.specs.declared.request.Request.{Request};
ghost use Rattle.checked_lines.specs.declared.fault.FaultyLine.{FaultyLine};
ghost use Rattle.checked_lines.specs.declared.fault.FaultReason.{FaultReason};
ghost use Rattle.text_fields.specs.Lines.{fields_of};
ghost use Rattle.decode_lines.specs.Request.{AsksToDecode, IsFaultyToDecode, IsWithinDecodeLimits};
ghost use Rattle.decode_lines.specs.Answer.{Answer, IsLineAnswer};
ghost use Rattle.decode_lines.specs.DecodeLines.{Decodes, IsDecodeFaultText, IsFirstDecodeFault, AskForDecoding};

use crate::request::{RequestKind, kind_of_line, request_of};
use pie_text::numbers_or_refused;
use text_fields::split_line;

/// Decode lines have at most one text of answers, and at most one fault line.
pub fn decode_lines_have_one_text()
    ensures answers { (bytes one other : List ℕ) → Decodes bytes one → Decodes bytes other
        → one ≡ other }
    ensures fault_line { (bytes one other : List ℕ) → IsDecodeFaultText bytes one
        → IsDecodeFaultText bytes other → one ≡ other }
{}

/// Where each decode line asks for something there is no faulty line.
pub fn decode_lines_are_not_faulty()
    ensures { (bytes : List ℕ) (fault : FaultyLine) → AskForDecoding bytes
        → IsFirstDecodeFault bytes fault → ⊥ }
{}

/// Each request within its limits has an answer.
pub fn requests_have_an_answer()
    ensures { (request : Request) → IsWithinDecodeLimits request → (answer : Answer)
        × IsLineAnswer request answer }
{}

/// A decode line asks for something, or is faulty.
fn lines_ask_or_are_faulty(line: &[u8])
    ensures { ((request : Request) × AsksToDecode line.now request)
        ⊎ ((reason : FaultReason) × IsFaultyToDecode (fields_of line.now) reason) }
{
    // The intervals of a frame are numbers, or are refused.
    numbers_or_refused();
    let Some((kind, others)) = kind_of_line(line) else {
        return;
    };
    if let RequestKind::Pie = kind {
        return;
    }
    let _ = request_of(kind, others);
}

/// An input has a defined text: the answers to its lines, or its fault line.
pub fn decode_lines_have_a_text(input: &[u8])
    ensures { (text : List ℕ) × (Decodes input.now text ⊎ IsDecodeFaultText input.now text) }
{
    requests_have_an_answer();
    if let Some((line, behind)) = split_line(input) {
        // The first line asks for something or is faulty, and what stands behind it has a text.
        lines_ask_or_are_faulty(line);
        decode_lines_have_a_text(behind);
    }
}
