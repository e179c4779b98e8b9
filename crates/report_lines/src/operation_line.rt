//! The line of an operation, written.
ghost use Rattle.std.specs.Prelude.{◌≡◌, ◌++◌, OnOk, ◌∷◌};
ghost use Rattle.std.specs.String.{string_bytes};
ghost use Rattle.text_fields.specs.Lines.{line_with, space};
ghost use Rattle.report_lines.specs.ReportLine.{OpLine, report_line_text, result_fields};

use crate::line_writing::end_line;
use access_ops::OpResult;
use bit_strings::OutOfMemory;
use text_fields::{push_byte_hex, push_next_name, push_next_number, push_next_words};

/// Writes how an operation ended as the next fields: a word, and behind it the words of a Read, where
/// there are any, or the error code as two digits (Annex I).
fn push_next_result(text: &mut String, ended: &OpResult) -> Result<(), OutOfMemory>
    ensures { OnOk result (string_bytes text.new ≡ string_bytes text.old
        ++ space ∷ line_with (result_fields ended.now)) }
{
    match ended {
        OpResult::Ok(words) => {
            push_next_name(text, "ok")?;
            let words = words.as_slice();
            if words.is_empty() {
                return Ok(());
            }
            push_next_words(text, words)
        }
        OpResult::TagError(code) => {
            push_next_name(text, "error")?;
            text.push(' ')?;
            push_byte_hex(text, *code)
        }
        OpResult::Silent => push_next_name(text, "silent"),
        OpResult::Broken => push_next_name(text, "broken"),
        OpResult::Denied => push_next_name(text, "denied"),
    }
}

/// Writes `op ROUND SLOT INDEX RESULT`: an operation with the tag that was listed in this slot has ended.
/// Operations are numbered from 1.
pub fn push_op_line(
    text: &mut String,
    round: u32,
    slot: u32,
    index: u32,
    ended: &OpResult,
) -> Result<(), OutOfMemory>
    ensures { OnOk result (string_bytes text.new ≡ string_bytes text.old
        ++ report_line_text (OpLine round slot index ended.now)) }
{
    text.push_str("op")?;
    push_next_number(text, round)?;
    push_next_number(text, slot)?;
    push_next_number(text, index)?;
    push_next_result(text, ended)?;
    end_line(text)
}
