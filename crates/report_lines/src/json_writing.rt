//! Lines of a plain report as JSON objects, written.
ghost use Rattle.std.specs.Prelude.{◌≡◌, ◌++◌, OnOk};
ghost use Rattle.std.specs.String.{string_bytes};
ghost use Rattle.report_lines.specs.JsonLines.{json_line_text, result_word};
ghost use Rattle.report_lines.specs.Line.{line_of};
ghost use Rattle.report_lines.specs.ReportLine.{ListLine, OpLine, RoundLine, SeenLine, TagLine};
ghost use Rattle.tag_machine.specs.Hearing.{tag_value_of};

use crate::json_shapes::{
    DoneObject, ListObject, OpObject, RoundObject, SeenObject, TagObject, push_object,
};
use crate::line::Line;
use crate::line_writing::end_name;
use crate::member_texts::{MemberTexts, set_flags, set_locks, set_result, set_word, set_words};
use crate::tag_line::state_text;
use access_ops::OpResult;
use bit_strings::OutOfMemory;
use q_round::RoundEnd;
use reply_grammar::EpcWords;
use tag_machine::AnyTag;

/// How an operation with a tag ended, as the word in the JSON object of its line.
fn result_name(ended: &OpResult) -> &'static str
    ensures { result.now ≡ result_word ended.now }
{
    match ended {
        OpResult::Ok(_) => "ok",
        OpResult::TagError(_) => "error",
        OpResult::Silent => "silent",
        OpResult::Broken => "broken",
        OpResult::Denied => "denied",
    }
}

/// Writes the object of a list line.
fn push_list_object(
    text: &mut String,
    texts: &mut MemberTexts,
    round: u32,
    slot: u32,
    pc: u16,
    epc: &EpcWords,
) -> Result<(), OutOfMemory>
    ensures { OnOk result (string_bytes text.new ≡ string_bytes text.old
        ++ json_line_text (ListLine round slot pc epc.now)) }
{
    set_words(&mut texts.epc, epc.as_slice())?;
    set_word(&mut texts.pc, pc)?;
    push_object(
        text,
        &ListObject {
            epc: texts.epc.as_str(),
            pc: texts.pc.as_str(),
            round,
            slot,
        },
    )
}

/// Writes the object of an op line.
fn push_op_object(
    text: &mut String,
    texts: &mut MemberTexts,
    round: u32,
    slot: u32,
    index: u32,
    ended: &OpResult,
) -> Result<(), OutOfMemory>
    ensures { OnOk result (string_bytes text.new ≡ string_bytes text.old
        ++ json_line_text (OpLine round slot index ended.now)) }
{
    set_result(&mut texts.value, ended)?;
    push_object(
        text,
        &OpObject {
            index,
            result: result_name(ended),
            round,
            slot,
            value: texts.value.as_str(),
        },
    )
}

/// Writes the object of a round line.
fn push_round_object(
    text: &mut String,
    round: u32,
    end: RoundEnd,
    slots: u32,
) -> Result<(), OutOfMemory>
    ensures { OnOk result (string_bytes text.new ≡ string_bytes text.old
        ++ json_line_text (RoundLine round end slots)) }
{
    push_object(
        text,
        &RoundObject {
            end: end_name(end),
            round,
            slots,
        },
    )
}

/// Writes the object of a seen line.
fn push_seen_object(
    text: &mut String,
    texts: &mut MemberTexts,
    times: u64,
    pc: u16,
    epc: &EpcWords,
) -> Result<(), OutOfMemory>
    ensures { OnOk result (string_bytes text.new ≡ string_bytes text.old
        ++ json_line_text (SeenLine times pc epc.now)) }
{
    set_words(&mut texts.epc, epc.as_slice())?;
    set_word(&mut texts.pc, pc)?;
    push_object(
        text,
        &SeenObject {
            count: times,
            epc: texts.epc.as_str(),
            pc: texts.pc.as_str(),
        },
    )
}

/// Writes what a tag is as an object.
fn push_tag_object(
    text: &mut String,
    texts: &mut MemberTexts,
    number: u32,
    tag: &AnyTag,
) -> Result<(), OutOfMemory>
    ensures { OnOk result (string_bytes text.new ≡ string_bytes text.old
        ++ json_line_text (TagLine number (tag_value_of tag.now))) }
{
    texts.set_banks(tag.memory())?;
    set_flags(&mut texts.flags, tag.flags())?;
    set_locks(&mut texts.locks, tag.locks())?;
    push_object(
        text,
        &TagObject {
            epc: texts.epc.as_str(),
            flags: texts.flags.as_str(),
            locks: texts.locks.as_str(),
            number,
            reserved: texts.reserved.as_str(),
            state: state_text(tag.state()),
            tid: texts.tid.as_str(),
            user: texts.user.as_str(),
        },
    )
}

/// Writes a line of a plain report as a JSON object in compact form, and nothing of another line. After an
/// error the text may hold a part of it.
pub fn push_json_line(
    text: &mut String,
    texts: &mut MemberTexts,
    line: &Line<'_>,
) -> Result<(), OutOfMemory>
    ensures { OnOk result (string_bytes text.new ≡ string_bytes text.old
        ++ json_line_text (line_of line.now)) }
{
    match *line {
        Line::List {
            round,
            slot,
            pc,
            epc,
        } => push_list_object(text, texts, round, slot, pc, epc),
        Line::Op {
            round,
            slot,
            index,
            ended,
        } => push_op_object(text, texts, round, slot, index, ended),
        Line::Round { round, end, slots } => push_round_object(text, round, end, slots),
        Line::Seen { count, pc, epc } => push_seen_object(text, texts, count, pc, epc),
        Line::Tag { number, tag } => push_tag_object(text, texts, number, tag),
        Line::Done => push_object(text, &DoneObject),
        Line::Blf { .. }
        | Line::Exchange { .. }
        | Line::Missed { .. }
        | Line::Answer { .. }
        | Line::Tx { .. }
        | Line::Rx { .. }
        | Line::Given(_) => Ok(()),
    }
}
