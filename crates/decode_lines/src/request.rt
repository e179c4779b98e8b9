//! A decode line, read.
ghost use Rattle.std.specs.Prelude.{◌≡◌, ◌≢◌, ◌≤◌, ℕ, List, ◌∷◌, IfOk, IfErr, IfSome, IfNone, IsOk};
ghost use Rattle.text_fields.specs.Lines.{fields_of};
ghost use Rattle.decode_lines.specs.Request.{all_request_kinds, request_kind_found, request_word, AsksToDecodeBehind, AreFaultyToDecode, most_intervals};

use crate::raw_field::RawField;
use bit_strings::Code;
use checked_lines::FaultReason;
use pie_line::Intervals;
use pie_text::{NotNumbers, Numbers, read_numbers};
use reply_grammar::Expect;
use text_fields::{
    Digits, Fields, HexBytes, Words, code_named, four_fields, name_of, number, one_bit, one_field,
    three_fields, two_fields,
};
use wire_text::{Named, expect_of, value_named};

/// The greatest number of levels in a line.
pub const MOST_LEVELS: u32 = 132_000;

/// The greatest number of samples in a line.
pub const MOST_SAMPLES: u32 = 132_000;

/// The greatest number of samples to a level.
const MOST_PER_LEVEL: u32 = 64;

/// The greatest number of bits in a line.
pub const MOST_BITS: u32 = 8_240;

/// The greatest number of intervals in a line.
pub const MOST_INTERVALS: u32 = 20_000;

/// The greatest number of an EPC's words in a line.
pub const MOST_WORDS: u32 = 31;

/// The greatest interval in a line, in nanoseconds.
pub const MOST_NANOSECONDS: u32 = 999_999;

/// The kind of a decode line, which its first field says.
#[derive(Clone, Copy, Debug, PartialEq, Eq)]
pub enum RequestKind {
    /// Levels of a tag's reply in this code.
    Stream(Code),
    /// Samples of a captured wave.
    Samples,
    /// Bits of a tag's reply.
    Reply,
    /// Levels in which a tag's reply is expected.
    Heard,
    /// Intervals of an interrogator's frame.
    Pie,
    /// Bits of an interrogator's command.
    Command,
    /// Words of a trade item number's EPC.
    Sgtin,
    /// URI of a trade item number.
    Uri,
}

/// What a line asks for.
#[derive(Drop)]
pub enum Request<'a> {
    /// The bits of a stream of levels: `CODE TREXT LEVELS`.
    Stream {
        code: Code,
        trext: bool,
        levels: Digits<'a>,
    },
    /// The levels of samples: `samples THRESHOLD PER HEX`.
    Samples {
        threshold: u8,
        per_level: u32,
        samples: HexBytes<'a>,
    },
    /// The reply that bits are: `reply EXPECT BITS`.
    Reply {
        expect: Expect,
        bits: Digits<'a>,
    },
    /// The reply that is heard in levels: `heard CODE TREXT EXPECT LEVELS`.
    Heard {
        code: Code,
        trext: bool,
        expect: Expect,
        levels: Digits<'a>,
    },
    /// The frame that intervals are: `pie INTERVALS`.
    Pie {
        intervals: Numbers<'a>,
    },
    /// The command that bits are: `command BITS`.
    Command {
        bits: Digits<'a>,
    },
    /// The trade item number that an EPC carries: `sgtin WORDS`.
    Sgtin {
        words: Words<'a>,
    },
    /// The EPC that carries what a URI names: `uri TEXT`.
    Uri {
        text: RawField<'a>,
    },
}

impl Named for RequestKind {
    ghost word = { request_word };

    ghost values = { all_request_kinds };

    ghost finds = { request_kind_found };

    // Those of which a text has most lines come first.
    fn all() -> &'static [RequestKind] {
        &[
            RequestKind::Uri,
            RequestKind::Sgtin,
            RequestKind::Command,
            RequestKind::Pie,
            RequestKind::Reply,
            RequestKind::Heard,
            RequestKind::Samples,
            RequestKind::Stream(Code::Fm0),
            RequestKind::Stream(Code::M2),
            RequestKind::Stream(Code::M4),
            RequestKind::Stream(Code::M8),
        ]
    }

    fn name(self) -> &'static str {
        match self {
            RequestKind::Stream(code) => name_of(code),
            RequestKind::Samples => "samples",
            RequestKind::Reply => "reply",
            RequestKind::Heard => "heard",
            RequestKind::Pie => "pie",
            RequestKind::Command => "command",
            RequestKind::Sgtin => "sgtin",
            RequestKind::Uri => "uri",
        }
    }
}

/// What a line is by its first field, with its other fields; none exactly where no line begins so. The line is given
/// without its line feed.
pub fn kind_of_line(line: &[u8]) -> Option<(RequestKind, Fields<'_>)>
    ensures some { IfSome result (λ it. fields_of line.now ≡ request_word it.0 ∷ it.1) }
    ensures none { IfNone result
        ((kind : RequestKind) (others : List (List ℕ))
        → fields_of line.now ≢ request_word kind ∷ others) }
{
    let mut fields = Fields::new(line);
    let word = fields.next()?;
    Some((value_named::<RequestKind>(word)?, fields))
}

/// What a line of this kind asks for, by its other fields, or the first reason for which it asks for nothing. The
/// intervals of a line that begins with `pie` are read by [`read_intervals`], into a list.
pub fn request_of<'a>(kind: RequestKind, others: Fields<'a>) -> Result<Request<'a>, FaultReason>
    requires { kind ≢ RequestKind.Pie }
    ensures ok { IfOk result (AsksToDecodeBehind kind others.entry) }
    ensures refused { IfErr result (AreFaultyToDecode kind others.entry) }
{
    match kind {
        RequestKind::Stream(code) => stream_of(code, others),
        RequestKind::Samples => samples_of(others),
        RequestKind::Reply => reply_of(others),
        RequestKind::Heard => heard_of(others),
        RequestKind::Pie => unreachable!(),
        RequestKind::Command => command_of(others),
        RequestKind::Sgtin => sgtin_of(others),
        RequestKind::Uri => uri_of(others),
    }
}

/// Reads the intervals of a line that begins with `pie`, by its other fields, in place of what the list holds, or gives
/// the first reason for which the line asks for nothing.
pub fn read_intervals(others: Fields, out: &mut Intervals) -> Result<(), FaultReason>
    requires { most_intervals ≤ out.old.capacity }
    ensures ok { IsOk result → AsksToDecodeBehind RequestKind.Pie others.entry
        (Request.Pie out.new.items) }
    ensures refused { IfErr result (AreFaultyToDecode RequestKind.Pie others.entry) }
    ensures capacity { out.new.capacity ≡ out.old.capacity }
{
    match read_numbers(others, MOST_INTERVALS, MOST_NANOSECONDS, out) {
        Ok(()) => Ok(()),
        Err(NotNumbers::Shape) => Err(FaultReason::Shape),
        Err(NotNumbers::Number) => Err(FaultReason::Number),
    }
}

/// The decode request of a line that begins with a code's name, by its other fields.
fn stream_of<'a>(code: Code, others: Fields<'a>) -> Result<Request<'a>, FaultReason>
    ensures ok { IfOk result (AsksToDecodeBehind (RequestKind.Stream code) others.entry) }
    ensures refused { IfErr result (AreFaultyToDecode (RequestKind.Stream code) others.entry) }
{
    let Some((trext, levels)) = two_fields(others) else {
        return Err(FaultReason::Shape);
    };
    let Some(trext) = one_bit(trext) else {
        return Err(FaultReason::Number);
    };
    let Some(levels) = Digits::new(levels, MOST_LEVELS) else {
        return Err(FaultReason::Number);
    };
    Ok(Request::Stream {
        code,
        trext,
        levels,
    })
}

/// The decode request of a line that begins with `samples`, by its other fields.
fn samples_of<'a>(others: Fields<'a>) -> Result<Request<'a>, FaultReason>
    ensures ok { IfOk result (AsksToDecodeBehind RequestKind.Samples others.entry) }
    ensures refused { IfErr result (AreFaultyToDecode RequestKind.Samples others.entry) }
{
    let Some((threshold, per_level, samples)) = three_fields(others) else {
        return Err(FaultReason::Shape);
    };
    let Some(threshold) = number(threshold, 255) else {
        return Err(FaultReason::Number);
    };
    let Some(per_level) = number(per_level, MOST_PER_LEVEL) else {
        return Err(FaultReason::Number);
    };
    if per_level == 0 {
        return Err(FaultReason::Number);
    }
    let Some(samples) = HexBytes::new(samples, MOST_SAMPLES) else {
        return Err(FaultReason::Number);
    };
    Ok(Request::Samples {
        threshold: threshold as u8,
        per_level,
        samples,
    })
}

/// The decode request of a line that begins with `reply`, by its other fields.
fn reply_of<'a>(others: Fields<'a>) -> Result<Request<'a>, FaultReason>
    ensures ok { IfOk result (AsksToDecodeBehind RequestKind.Reply others.entry) }
    ensures refused { IfErr result (AreFaultyToDecode RequestKind.Reply others.entry) }
{
    let Some((expect, bits)) = two_fields(others) else {
        return Err(FaultReason::Shape);
    };
    let Some(expect) = expect_of(expect) else {
        return Err(FaultReason::Number);
    };
    let Some(bits) = Digits::new(bits, MOST_BITS) else {
        return Err(FaultReason::Number);
    };
    Ok(Request::Reply { expect, bits })
}

/// The decode request of a line that begins with `heard`, by its other fields.
fn heard_of<'a>(others: Fields<'a>) -> Result<Request<'a>, FaultReason>
    ensures ok { IfOk result (AsksToDecodeBehind RequestKind.Heard others.entry) }
    ensures refused { IfErr result (AreFaultyToDecode RequestKind.Heard others.entry) }
{
    let Some((code, trext, expect, levels)) = four_fields(others) else {
        return Err(FaultReason::Shape);
    };
    let Some(code) = code_named(code) else {
        return Err(FaultReason::Number);
    };
    let Some(trext) = one_bit(trext) else {
        return Err(FaultReason::Number);
    };
    let Some(expect) = expect_of(expect) else {
        return Err(FaultReason::Number);
    };
    let Some(levels) = Digits::new(levels, MOST_LEVELS) else {
        return Err(FaultReason::Number);
    };
    Ok(Request::Heard {
        code,
        trext,
        expect,
        levels,
    })
}

/// The decode request of a line that begins with `command`, by its other field.
fn command_of<'a>(others: Fields<'a>) -> Result<Request<'a>, FaultReason>
    ensures ok { IfOk result (AsksToDecodeBehind RequestKind.Command others.entry) }
    ensures refused { IfErr result (AreFaultyToDecode RequestKind.Command others.entry) }
{
    let Some(bits) = one_field(others) else {
        return Err(FaultReason::Shape);
    };
    let Some(bits) = Digits::new(bits, MOST_BITS) else {
        return Err(FaultReason::Number);
    };
    Ok(Request::Command { bits })
}

/// The decode request of a line that begins with `sgtin`, by its other field.
fn sgtin_of<'a>(others: Fields<'a>) -> Result<Request<'a>, FaultReason>
    ensures ok { IfOk result (AsksToDecodeBehind RequestKind.Sgtin others.entry) }
    ensures refused { IfErr result (AreFaultyToDecode RequestKind.Sgtin others.entry) }
{
    let Some(words) = one_field(others) else {
        return Err(FaultReason::Shape);
    };
    let Some(words) = Words::new(words, MOST_WORDS) else {
        return Err(FaultReason::Number);
    };
    if words.is_empty() {
        return Err(FaultReason::Number);
    }
    Ok(Request::Sgtin { words })
}

/// The decode request of a line that begins with `uri`, by its other field.
fn uri_of<'a>(others: Fields<'a>) -> Result<Request<'a>, FaultReason>
    ensures ok { IfOk result (AsksToDecodeBehind RequestKind.Uri others.entry) }
    ensures refused { IfErr result (AreFaultyToDecode RequestKind.Uri others.entry) }
{
    match one_field(others) {
        Some(text) => Ok(Request::Uri {
            text: RawField::new(text),
        }),
        None => Err(FaultReason::Shape),
    }
}
