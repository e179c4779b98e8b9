//! An encode line, read.
ghost use Rattle.std.specs.Prelude.{◌≡◌, ◌≢◌, ◌↔◌, ℕ, List, [], ◌∷◌, IfOk, IfErr, IfSome, IfNone, IsTrue, Some};
ghost use Rattle.std.specs.Fmt.{decimal};
ghost use Rattle.text_fields.specs.Lines.{fields_of};
ghost use Rattle.pie_line.specs.declared.frame.Lead.{Lead};
ghost use Rattle.wire_text.specs.ReplyText.{IsReplyText};
ghost use Rattle.encode_lines.specs.Request.{all_encode_kinds, kind_found, lead_word, kind_word, AreDurations, AsksToEncodeBehind, AsksToEncode, AreFaultyToEncode, IsFaultyToEncode, IsFaultyReplyBehind};

use bit_strings::Code;
use checked_lines::{FaultReason, heard_as};
use command_grammar::Command;
use pie_line::Lead;
use reply_grammar::{Expect, Reply};
use text_fields::{Digits, Fields, FieldsFault, name_of, number, one_bit, six_fields, two_fields};
use wire_text::{Named, expect_of, read_command, read_reply, value_named};

/// The greatest number of bits of a stream: those of the longest reply.
pub(crate) const MOST_STREAM_BITS: u32 = 8_225;

/// The greatest number of bits of a frame.
pub(crate) const MOST_FRAME_BITS: u32 = 8_240;

/// The longest duration of a link in a line, in nanoseconds.
const MOST_NANOSECONDS: u32 = 999_999;

/// The kind of an encode line, which its first field says.
#[derive(Clone, Copy, Debug, PartialEq, Eq)]
pub enum LineKind {
    /// Bits of a tag's reply, for a stream in this code.
    Stream(Code),
    /// Bits of an interrogator's frame, and its link.
    Pie,
    /// A command.
    Command,
    /// A reply, for its bits.
    Reply,
    /// A reply, for its stream.
    Heard,
}

/// The durations of a link, in nanoseconds.
#[derive(Clone, Copy)]
pub struct Durations {
    /// Tari.
    pub tari: u32,
    /// RTcal.
    pub rtcal: u32,
    /// TRcal.
    pub trcal: u32,
    /// PW.
    pub pw: u32,
}

/// What a line asks to be encoded.
#[derive(Drop)]
pub enum Request<'a> {
    /// The stream of bits: `CODE TREXT BITS`.
    Stream {
        code: Code,
        trext: bool,
        bits: Digits<'a>,
    },
    /// The frame of bits over a link with these durations: `pie TARI RTCAL TRCAL PW LEAD BITS`.
    Pie {
        durations: Durations,
        lead: Lead,
        bits: Digits<'a>,
    },
    /// The bits of a command: `command COMMAND`.
    Command {
        command: Command,
    },
    /// The bits of a reply where one is expected: `reply EXPECT REPLY`.
    Reply {
        expect: Expect,
        reply: Reply,
    },
    /// The stream of a reply where one is expected: `heard CODE TREXT EXPECT REPLY`.
    Heard {
        code: Code,
        trext: bool,
        expect: Expect,
        reply: Reply,
    },
}

/// The header of this name; none exactly where no header has it.
fn lead_named(field: &[u8]) -> Option<Lead>
    ensures value { IfSome result (λ lead. field.now ≡ lead_word lead) }
    ensures only { (lead : Lead) → field.now ≡ lead_word lead → result ≡ Some lead }
{
    if field == b"sync".as_slice() {
        Some(Lead::FrameSync)
    } else if field == b"preamble".as_slice() {
        Some(Lead::Preamble)
    } else {
        None
    }
}

impl Named for LineKind {
    ghost word = { kind_word };

    ghost values = { all_encode_kinds };

    ghost finds = { kind_found };

    fn all() -> &'static [LineKind] {
        &[
            LineKind::Stream(Code::Fm0),
            LineKind::Stream(Code::M2),
            LineKind::Stream(Code::M4),
            LineKind::Stream(Code::M8),
            LineKind::Pie,
            LineKind::Command,
            LineKind::Reply,
            LineKind::Heard,
        ]
    }

    fn name(self) -> &'static str {
        match self {
            LineKind::Stream(code) => name_of(code),
            LineKind::Pie => "pie",
            LineKind::Command => "command",
            LineKind::Reply => "reply",
            LineKind::Heard => "heard",
        }
    }
}

/// What a line asks for, or the first reason for which it asks for nothing. The line is given without its line feed.
pub(crate) fn request_of(line: &[u8]) -> Result<Request<'_>, FaultReason>
    ensures ok { IfOk result (AsksToEncode line.now) }
    ensures refused { IfErr result (IsFaultyToEncode (fields_of line.now)) }
{
    let mut fields = Fields::new(line);
    let Some(word) = fields.next() else {
        return Err(FaultReason::Word);
    };
    match value_named(word) {
        Some(kind) => request_behind(kind, fields),
        None => Err(FaultReason::Word),
    }
}

/// What a line of this kind asks for, by its other fields, or the first reason for which it asks for nothing.
fn request_behind<'a>(kind: LineKind, others: Fields<'a>) -> Result<Request<'a>, FaultReason>
    ensures ok { IfOk result (AsksToEncodeBehind kind others.entry) }
    ensures refused { IfErr result (AreFaultyToEncode kind others.entry) }
{
    match kind {
        LineKind::Stream(code) => stream_of(code, others),
        LineKind::Pie => pie_of(others),
        LineKind::Command => command_of(others),
        LineKind::Reply => reply_of(others),
        LineKind::Heard => heard_of(others),
    }
}

/// The encode request of a line that begins with a code's name, by its other fields.
fn stream_of<'a>(code: Code, others: Fields<'a>) -> Result<Request<'a>, FaultReason>
    ensures ok { IfOk result (AsksToEncodeBehind (LineKind.Stream code) others.entry) }
    ensures refused { IfErr result (AreFaultyToEncode (LineKind.Stream code) others.entry) }
{
    let Some((trext, bits)) = two_fields(others) else {
        return Err(FaultReason::Shape);
    };
    let Some(trext) = one_bit(trext) else {
        return Err(FaultReason::Number);
    };
    let Some(bits) = Digits::new(bits, MOST_STREAM_BITS) else {
        return Err(FaultReason::Number);
    };
    Ok(Request::Stream { code, trext, bits })
}

/// The encode request of a line that begins with `pie`, by its other fields.
fn pie_of<'a>(others: Fields<'a>) -> Result<Request<'a>, FaultReason>
    ensures ok { IfOk result (AsksToEncodeBehind LineKind.Pie others.entry) }
    ensures refused { IfErr result (AreFaultyToEncode LineKind.Pie others.entry) }
{
    let Some((tari, rtcal, trcal, pw, lead, bits)) = six_fields(others) else {
        return Err(FaultReason::Shape);
    };
    let Some(durations) = durations_of(tari, rtcal, trcal, pw) else {
        return Err(FaultReason::Number);
    };
    let Some(lead) = lead_named(lead) else {
        return Err(FaultReason::Number);
    };
    let Some(bits) = Digits::new(bits, MOST_FRAME_BITS) else {
        return Err(FaultReason::Number);
    };
    Ok(Request::Pie {
        durations,
        lead,
        bits,
    })
}

/// The durations that four fields spell; none exactly where one of them spells none.
fn durations_of(tari: &[u8], rtcal: &[u8], trcal: &[u8], pw: &[u8]) -> Option<Durations>
    ensures value { IfSome result
        (λ it. (tari.now ≡ decimal it.tari) × (rtcal.now ≡ decimal it.rtcal)
        × (trcal.now ≡ decimal it.trcal) × (pw.now ≡ decimal it.pw) × AreDurations it) }
    ensures only { (durations : Durations) → AreDurations durations
        → tari.now ≡ decimal durations.tari → rtcal.now ≡ decimal durations.rtcal
        → trcal.now ≡ decimal durations.trcal → pw.now ≡ decimal durations.pw
        → result ≡ Some durations }
{
    let tari = number(tari, MOST_NANOSECONDS)?;
    let rtcal = number(rtcal, MOST_NANOSECONDS)?;
    let trcal = number(trcal, MOST_NANOSECONDS)?;
    let pw = number(pw, MOST_NANOSECONDS)?;
    Some(Durations {
        tari,
        rtcal,
        trcal,
        pw,
    })
}

/// The encode request of a line that begins with `command`, by its other fields.
fn command_of<'a>(others: Fields<'a>) -> Result<Request<'a>, FaultReason>
    ensures ok { IfOk result (AsksToEncodeBehind LineKind.Command others.entry) }
    ensures refused { IfErr result (AreFaultyToEncode LineKind.Command others.entry) }
{
    match read_command(others) {
        Ok(command) => Ok(Request::Command { command }),
        Err(FieldsFault::Word) => Err(FaultReason::Word),
        Err(FieldsFault::Shape) => Err(FaultReason::Shape),
        Err(FieldsFault::Number) => Err(FaultReason::Number),
    }
}

/// The reply that fields spell behind others, of which it is given whether none is empty; or the first reason for
/// which all these fields are faulty.
fn reply_behind(filled: bool, others: Fields) -> Result<Reply, FaultReason>
    ensures ok { IfOk result (λ reply. IsTrue filled × IsReplyText others.entry reply) }
    ensures refused { IfErr result (IsFaultyReplyBehind (IsTrue filled) others.entry) }
{
    match read_reply(others) {
        Ok(reply) if filled => Ok(reply),
        Ok(_) => Err(FaultReason::Shape),
        Err(FieldsFault::Word) => Err(FaultReason::Word),
        Err(FieldsFault::Shape) => Err(FaultReason::Shape),
        Err(FieldsFault::Number) if filled => Err(FaultReason::Number),
        Err(FieldsFault::Number) => Err(FaultReason::Shape),
    }
}

/// The encode request of a line that begins with `reply`, by its other fields.
fn reply_of<'a>(mut others: Fields<'a>) -> Result<Request<'a>, FaultReason>
    ensures ok { IfOk result (AsksToEncodeBehind LineKind.Reply others.entry) }
    ensures refused { IfErr result (AreFaultyToEncode LineKind.Reply others.entry) }
{
    let Some(expect) = others.next() else {
        return Err(FaultReason::Shape);
    };
    let reply = reply_behind(is_filled(expect), others)?;
    let Some(expect) = expect_of(expect) else {
        return Err(FaultReason::Number);
    };
    Ok(Request::Reply { expect, reply })
}

/// The encode request of a line that begins with `heard`, by its other fields.
fn heard_of<'a>(mut others: Fields<'a>) -> Result<Request<'a>, FaultReason>
    ensures ok { IfOk result (AsksToEncodeBehind LineKind.Heard others.entry) }
    ensures refused { IfErr result (AreFaultyToEncode LineKind.Heard others.entry) }
{
    let Some((code, trext, expect)) = next_three(&mut others) else {
        return Err(FaultReason::Shape);
    };
    let reply = reply_behind(are_filled(code, trext, expect), others)?;
    let Some((code, trext, expect)) = heard_as(code, trext, expect) else {
        return Err(FaultReason::Number);
    };
    Ok(Request::Heard {
        code,
        trext,
        expect,
        reply,
    })
}

/// The next three fields; none exactly where fewer are left.
fn next_three<'a>(fields: &mut Fields<'a>) -> Option<(&'a [u8], &'a [u8], &'a [u8])>
    ensures value { IfSome result (λ it. fields.old ≡ it.0.now ∷ it.1.now ∷ it.2.now ∷ fields.new) }
    ensures none { IfNone result
        ((a b c : List ℕ) (rest : List (List ℕ)) → fields.old ≢ a ∷ b ∷ c ∷ rest) }
{
    let first = fields.next()?;
    let second = fields.next()?;
    let third = fields.next()?;
    Some((first, second, third))
}

/// Whether a field of an encode line is not empty.
fn is_filled(field: &[u8]) -> bool
    ensures { IsTrue result ↔ (field.now ≢ []) }
{
    !field.is_empty()
}

/// Whether none of three fields is empty.
fn are_filled(first: &[u8], second: &[u8], third: &[u8]) -> bool
    ensures { IsTrue result ↔ ((first.now ≢ []) × (second.now ≢ []) × (third.now ≢ [])) }
{
    is_filled(first) && is_filled(second) && is_filled(third)
}
