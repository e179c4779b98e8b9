//! What is written for an encode line.
ghost use Rattle.std.specs.Prelude.{◌≡◌, ◌≤◌, ◌↔◌, ◌≢◌, [], ◌∷◌, ◌++◌, length, IsTrue, OnOk};
ghost use Rattle.std.specs.String.{string_bytes};
ghost use Rattle.line_code.specs.Stream.{stream_of};
ghost use Rattle.reply_wire.specs.Codes.{table_of};
ghost use Rattle.reply_grammar.specs.Replies.{handle_of, longest_reply};
ghost use Rattle.wire_text.specs.ReplyText.{IsReplyForm};
ghost use Rattle.encode_lines.specs.EncodeLines.{AddsWave, AddsWritten, EncodesLine};
ghost use Rattle.encode_lines.specs.Request.{AsksToEncode, IsWithinEncodeLimits, longest_levels, most_frame_bits, most_frame_intervals};
ghost use Rattle.encode_lines.specs.Written.{IsAllowedReply};
ghost use Rattle.encode_lines.specs.declared.request.Request.{Request};

use crate::output::{
    push_command_bits, push_heard, push_link_refusal, push_reply_bits, push_reply_refusal,
    push_stream, push_wave,
};
use crate::request::{Durations, MOST_FRAME_BITS, MOST_STREAM_BITS, Request, request_of};
use bit_strings::{Bits, Code, Levels, OutOfMemory};
use command_grammar::{Command, encode_command};
use pie_line::{Intervals, Lead, Link, LinkRefusal, encode_frame};
use pie_text::KeptIntervals;
use reply_grammar::{Expect, Reply, encode_reply};
use reply_wire::encode_bits;
use std::alloc::Global;
use text_fields::Digits;

/// How many levels the longest lead has: that of Miller 8 with the extended pilot.
const LONGEST_LEAD: u32 = 352;

/// How many levels the longest stream has: the longest lead, and 16 for each bit and for the dummy.
const LONGEST_LEVELS: u32 = LONGEST_LEAD + 16 * (MOST_STREAM_BITS + 1);

/// How many intervals the longest frame has: seven of its header, and two a bit.
const MOST_INTERVALS: u32 = 7 + 2 * MOST_FRAME_BITS;

/// Room for the bits, levels and intervals of the longest line, taken once for all lines, and the texts of intervals that were
/// written.
pub struct Encoder {
    bits: Bits,
    levels: Levels,
    intervals: Intervals,
    kept: KeptIntervals,
    ghost bits_room: { bits.capacity ≡ most_frame_bits },
    ghost levels_room: { levels.capacity ≡ longest_levels },
    ghost intervals_room: { intervals.capacity ≡ most_frame_intervals },
}

// Written out, so that a drop is one call in the proof of each function that owns an encoder, and not one for each part.
impl Drop for Encoder {
    fn drop(self) {
        let Encoder {
            bits: _,
            levels: _,
            intervals: _,
            kept: _,
        } = self;
    }
}

impl Encoder {
    /// Takes the room for the longest encode line; no texts of intervals are kept yet.
    pub fn new(alloc: Global) -> Result<Encoder, OutOfMemory> {
        let bits = Bits::new(alloc, MOST_FRAME_BITS)?;
        let levels = Levels::new(alloc, LONGEST_LEVELS)?;
        let intervals = Intervals::new(alloc, MOST_INTERVALS)?;
        Ok(Encoder {
            bits,
            levels,
            intervals,
            kept: KeptIntervals::new(),
        })
    }

    /// Adds what is written for a line at the end of the text, as a line. The line is given without its line feed, and asks
    /// for something.
    pub fn encode_line(&mut self, line: &[u8], text: &mut String) -> Result<(), OutOfMemory>
        requires { (request : Request) × AsksToEncode line.now request }
        ensures { OnOk result
            (EncodesLine line.now (string_bytes text.old) (string_bytes text.new)) }
    {
        match request_of(line) {
            Ok(request) => self.encode(&request, text),
            Err(_) => unreachable!(),
        }
    }

    /// Adds what is written for a request at the end of the text, as a line.
    fn encode(&mut self, request: &Request, text: &mut String) -> Result<(), OutOfMemory>
        requires { IsWithinEncodeLimits request.now }
        ensures { OnOk result
            (AddsWritten request.now (string_bytes text.old) (string_bytes text.new)) }
    {
        match request {
            Request::Stream { code, trext, bits } => self.encode_stream(*code, *trext, bits, text),
            Request::Pie {
                durations,
                lead,
                bits,
            } => self.encode_pie(*durations, *lead, bits, text),
            Request::Command { command } => self.encode_command_bits(command, text),
            Request::Reply { expect, reply } => self.encode_reply_bits(expect, reply, text),
            Request::Heard {
                code,
                trext,
                expect,
                reply,
            } => self.encode_heard(*code, *trext, expect, reply, text),
        }
    }

    /// Adds the levels of a stream.
    fn encode_stream(
        &mut self,
        code: Code,
        trext: bool,
        bits: &Digits,
        text: &mut String,
    ) -> Result<(), OutOfMemory>
        requires { length bits.now ≤ longest_reply }
        ensures { OnOk result
            (AddsWritten (Request.Stream code trext bits.now) (string_bytes text.old)
            (string_bytes text.new)) }
    {
        bits.copy_to(&mut self.bits);
        self.stream(code, trext);
        push_stream(text, code, trext, &self.levels)
    }

    /// Writes the stream of the bits that stand in their room, which are those of the longest reply at most.
    fn stream(&mut self, code: Code, trext: bool)
        requires { length self.old.bits.items ≤ longest_reply }
        ensures { self.new.levels.items ≡ stream_of (table_of code) trext self.old.bits.items }
    {
        encode_bits(code, trext, &self.bits, &mut self.levels);
    }

    /// Adds the intervals of a frame over the link with these durations, where that is one.
    fn encode_pie(
        &mut self,
        durations: Durations,
        lead: Lead,
        bits: &Digits,
        text: &mut String,
    ) -> Result<(), OutOfMemory>
        requires { length bits.now ≤ most_frame_bits }
        ensures { OnOk result
            (AddsWritten (Request.Pie durations lead bits.now) (string_bytes text.old)
            (string_bytes text.new)) }
    {
        let Durations {
            tari,
            rtcal,
            trcal,
            pw,
        } = durations;
        match Link::new(tari, rtcal, trcal, pw, false, Code::Fm0, false) {
            Ok(link) => self.encode_wave(&link, lead, bits, text),
            Err(refusal) => push_link_refusal(text, refusal),
        }
    }

    /// Adds the intervals of a frame over a link.
    fn encode_wave(
        &mut self,
        link: &Link,
        lead: Lead,
        bits: &Digits,
        text: &mut String,
    ) -> Result<(), OutOfMemory>
        requires { length bits.now ≤ most_frame_bits }
        ensures { OnOk result
            (AddsWave link.now lead bits.now (string_bytes text.old) (string_bytes text.new)) }
    {
        bits.copy_to(&mut self.bits);
        encode_frame(link, lead, &self.bits, &mut self.intervals);
        push_wave(text, &self.intervals, &mut self.kept)
    }

    /// Adds the bits of a command.
    fn encode_command_bits(
        &mut self,
        command: &Command,
        text: &mut String,
    ) -> Result<(), OutOfMemory>
        ensures { OnOk result
            (AddsWritten (Request.Command command.now) (string_bytes text.old)
            (string_bytes text.new)) }
    {
        encode_command(command, &mut self.bits);
        push_command_bits(text, &self.bits)
    }

    /// Adds the bits of a reply, where it is one that is allowed.
    fn encode_reply_bits(
        &mut self,
        expect: &Expect,
        reply: &Reply,
        text: &mut String,
    ) -> Result<(), OutOfMemory>
        requires { IsReplyForm reply.now }
        ensures { OnOk result
            (AddsWritten (Request.Reply expect.now reply.now) (string_bytes text.old)
            (string_bytes text.new)) }
    {
        if !is_allowed(expect, reply) {
            return push_reply_refusal(text);
        }
        encode_reply(reply, handle_of(expect), &mut self.bits);
        push_reply_bits(text, expect, &self.bits)
    }

    /// Adds the levels of a reply, where it is one that is allowed.
    fn encode_heard(
        &mut self,
        code: Code,
        trext: bool,
        expect: &Expect,
        reply: &Reply,
        text: &mut String,
    ) -> Result<(), OutOfMemory>
        requires { IsReplyForm reply.now }
        ensures { OnOk result
            (AddsWritten (Request.Heard code trext expect.now reply.now) (string_bytes text.old)
            (string_bytes text.new)) }
    {
        if !is_allowed(expect, reply) {
            return push_reply_refusal(text);
        }
        encode_reply(reply, handle_of(expect), &mut self.bits);
        self.stream(code, trext);
        push_heard(text, code, trext, expect, &self.levels)
    }
}

/// The handle that is expected, 0 where none is.
fn handle_of(expect: &Expect) -> u16
    ensures { result ≡ handle_of expect.now }
{
    match expect {
        Expect::Rn16 | Expect::Epc | Expect::Handle => 0,
        Expect::Same(handle)
        | Expect::Words(_, handle)
        | Expect::AnyWords(handle)
        | Expect::Header(handle) => *handle,
    }
}

/// Whether a reply is one that is allowed where this is expected: of its kind, with so many words, with this handle, and an EPC
/// with as many words as the first five bits of its PC say.
fn is_allowed(expect: &Expect, reply: &Reply) -> bool
    requires { IsReplyForm reply.now }
    ensures { IsTrue result ↔ IsAllowedReply expect.now reply.now }
{
    match (reply, expect) {
        (Reply::Rn16(_), Expect::Rn16) => true,
        (Reply::Epc { pc, epc }, Expect::Epc) => epc.len() == u32::from(*pc) / 2048,
        (Reply::Handle(_), Expect::Handle) => true,
        (Reply::Handle(rn), Expect::Same(handle)) => *rn == *handle,
        (Reply::Words(words), Expect::Words(count, _)) => words.len() == u32::from(count.get()),
        (Reply::Words(_), Expect::AnyWords(_)) => true,
        (Reply::Header, Expect::Header(_)) => true,
        (Reply::Error(_), Expect::Words(..) | Expect::AnyWords(_) | Expect::Header(_)) => true,
        _ => false,
    }
}
