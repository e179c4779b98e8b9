//! The laws of encode lines and their texts.
ghost use Rattle.std.specs.Prelude.{◌≡◌, ◌⊎◌, ℕ, List};
ghost use Rattle.checked_lines.specs.declared.fault.FaultyLine.{FaultyLine};
ghost use Rattle.checked_lines.specs.laws.OneLine.{AsksOrIsFaulty};
ghost use Rattle.encode_lines.specs.declared.request.Request.{Request};
ghost use Rattle.encode_lines.specs.EncodeLines.{Encodes, IsEncodeFaultText, IsFirstEncodeFault, AskForEncoding, encode_rules};
ghost use Rattle.encode_lines.specs.Written.{AreWritten};

use crate::request::request_of;
use text_fields::split_line;

/// Encode lines have at most one text, and at most one fault line.
pub fn encode_lines_have_one_text()
    ensures written { (bytes one other : List ℕ) → Encodes bytes one → Encodes bytes other
        → one ≡ other }
    ensures fault_line { (bytes one other : List ℕ) → IsEncodeFaultText bytes one
        → IsEncodeFaultText bytes other → one ≡ other }
{}

/// Where each encode line asks for something there is no faulty line.
pub fn encode_lines_are_not_faulty()
    ensures { (bytes : List ℕ) (fault : FaultyLine) → AskForEncoding bytes
        → IsFirstEncodeFault bytes fault → ⊥ }
{}

/// For each request a line is written.
pub fn requests_have_a_line()
    ensures { (request : Request) → (fields : List (List ℕ)) × AreWritten request fields }
{}

/// An encode line asks for something, or is faulty.
fn lines_ask_or_are_faulty(line: &[u8])
    ensures { AsksOrIsFaulty encode_rules line.now }
{
    let _ = request_of(line);
}

/// An input has a defined text: the lines for its lines, or its fault line.
pub fn encode_lines_have_a_text(input: &[u8])
    ensures { (text : List ℕ) × (Encodes input.now text ⊎ IsEncodeFaultText input.now text) }
{
    requests_have_a_line();
    if let Some((line, behind)) = split_line(input) {
        // The first line asks for something or is faulty, and what stands behind it has a text.
        lines_ask_or_are_faulty(line);
        encode_lines_have_a_text(behind);
    }
}
