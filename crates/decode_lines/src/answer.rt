//! The answer to a decode line: what the line asks for is computed in rooms that are taken once for all lines, and written as a line.
ghost use Rattle.std.specs.Prelude.{◌≡◌, ◌≢◌, ◌≤◌, length, IfOk, IfErr, OnOk};
ghost use Rattle.std.specs.String.{string_bytes};
ghost use Rattle.decode_lines.specs.Answer.{AddsAnswer, AnswersBehind, AnswersLine};
ghost use Rattle.text_fields.specs.Lines.{fields_of};
ghost use Rattle.decode_lines.specs.Request.{AreFaultyToDecode, IsFaultyToDecode, IsWithinDecodeLimits, most_intervals, most_levels};
ghost use Rattle.decode_lines.specs.declared.request.Request.{Request};
ghost use Rattle.decode_lines.specs.declared.request.RequestKind.{RequestKind};
ghost use Rattle.epc_sgtin.specs.SgtinValue.{SgtinValue};
ghost use Rattle.epc_sgtin.specs.Epc.{IsSgtin};
ghost use Rattle.epc_sgtin.specs.Uri.{IsUriOf};
ghost use Rattle.epc_sgtin.specs.UriFaults.{RefusesUri};

use crate::answer_lines::{
    push_commanded, push_framed, push_named, push_outcome, push_received, push_replied,
    push_slicing, push_worded,
};
use crate::raw_field::RawField;
use crate::request::{
    MOST_INTERVALS, MOST_LEVELS, MOST_SAMPLES, MOST_WORDS, Request, RequestKind, kind_of_line,
    read_intervals, request_of,
};
use bit_strings::{Bits, Code, Levels, OutOfMemory};
use checked_lines::FaultReason;
use command_grammar::{Command, CommandRefusal, Framer, decode_command_to};
use epc_sgtin::{Sgtin, UriFault};
use pie_line::{Intervals, decode_frame};
use pie_text::Numbers;
use reply_grammar::{Expect, Received, decode_reply};
use reply_wire::{decode_levels, receive};
use sample_slicer::slice_levels;
use std::alloc::Global;
use text_fields::{Digits, Fields, HexBytes, Words};

/// Room for the intervals, and for what an answer needs, of the longest line, taken once for all lines.
pub struct Workspace {
    intervals: Intervals,
    rooms: AnswerRooms,
    ghost intervals_room: { intervals.capacity ≡ most_intervals },
}

// Written out, so that a drop is one call in the proof of each function that owns a workspace, and not one for each part.
impl Drop for Workspace {
    fn drop(self) {
        let Workspace {
            intervals: _,
            rooms: _,
        } = self;
    }
}

impl Workspace {
    /// Takes the room for the longest decode line and for what its answer needs.
    pub fn new(alloc: Global) -> Result<Workspace, OutOfMemory> {
        let intervals = Intervals::new(alloc, MOST_INTERVALS)?;
        let rooms = AnswerRooms::new(alloc)?;
        Ok(Workspace { intervals, rooms })
    }

    /// Adds the answer to a line at the end of the text, as a line, or gives the first reason for which
    /// the line asks for nothing. The line is given without its line feed.
    pub fn answer_line(
        &mut self,
        line: &[u8],
        text: &mut String,
    ) -> Result<Result<(), FaultReason>, OutOfMemory>
        ensures ok { IfOk result
            (λ answered. OnOk answered
            (AnswersLine line.now (string_bytes text.old) (string_bytes text.new))) }
        ensures refused { IfOk result
            (λ answered. IfErr answered (IsFaultyToDecode (fields_of line.now))) }
    {
        match kind_of_line(line) {
            None => Ok(Err(FaultReason::Word)),
            Some((RequestKind::Pie, others)) => self.answer_pie(others, text),
            Some((kind, others)) => self.answer_other(kind, others, text),
        }
    }

    /// Adds the answer to a line that begins with `pie`, by its other fields.
    fn answer_pie(
        &mut self,
        others: Fields,
        text: &mut String,
    ) -> Result<Result<(), FaultReason>, OutOfMemory>
        ensures ok { IfOk result
            (λ answered. OnOk answered
            (AnswersBehind RequestKind.Pie others.entry (string_bytes text.old)
            (string_bytes text.new))) }
        ensures refused { IfOk result
            (λ answered. IfErr answered (AreFaultyToDecode RequestKind.Pie others.entry)) }
    {
        if let Err(reason) = read_intervals(others, &mut self.intervals) {
            return Ok(Err(reason));
        }
        let intervals = Numbers::new(&self.intervals);
        self.rooms.answer_frame(&intervals, text)?;
        Ok(Ok(()))
    }

    /// Adds the answer to a line of any kind but `pie`, by its other fields.
    fn answer_other(
        &mut self,
        kind: RequestKind,
        others: Fields,
        text: &mut String,
    ) -> Result<Result<(), FaultReason>, OutOfMemory>
        requires { kind ≢ RequestKind.Pie }
        ensures ok { IfOk result
            (λ answered. OnOk answered
            (AnswersBehind kind others.entry (string_bytes text.old) (string_bytes text.new))) }
        ensures refused { IfOk result (λ answered. IfErr answered
            (AreFaultyToDecode kind others.entry)) }
    {
        let request = match request_of(kind, others) {
            Ok(request) => request,
            Err(reason) => return Ok(Err(reason)),
        };
        self.rooms.answer(&request, text)?;
        Ok(Ok(()))
    }
}

/// What an answer is computed in: room for the levels, bits, samples and words of the longest line, a Framer, and the
/// command or what was received.
#[derive(Drop)]
struct AnswerRooms {
    levels: Levels,
    bits: Bits,
    samples: Vec<u8>,
    words: Vec<u16>,
    framer: Framer,
    command: Result<Command, CommandRefusal>,
    received: Received,
    ghost levels_room: { levels.capacity ≡ most_levels },
    ghost bits_room: { bits.capacity ≡ most_levels },
}

impl AnswerRooms {
    /// Takes the room for the levels, bits, samples and words of the longest decode line.
    fn new(alloc: Global) -> Result<AnswerRooms, OutOfMemory> {
        let levels = Levels::new(alloc, MOST_LEVELS)?;
        let bits = Bits::new(alloc, MOST_LEVELS)?;
        let samples = Vec::with_capacity(alloc, MOST_SAMPLES as usize)?;
        let words = Vec::with_capacity(alloc, MOST_WORDS as usize)?;
        Ok(AnswerRooms {
            levels,
            bits,
            samples,
            words,
            framer: Framer::new(),
            // What no bits are.
            command: Err(CommandRefusal::Short(0)),
            // What no levels are.
            received: Received::Refused(0),
        })
    }

    /// Adds the answer to a request at the end of the text, as a line.
    fn answer(&mut self, request: &Request, text: &mut String) -> Result<(), OutOfMemory>
        requires limits { IsWithinDecodeLimits request.now }
        ensures { OnOk result
            (AddsAnswer request.now (string_bytes text.old) (string_bytes text.new)) }
    {
        match request {
            Request::Stream {
                code,
                trext,
                levels,
            } => {
                levels.copy_to(&mut self.levels);
                self.answer_levels(*code, *trext, text)
            }
            Request::Samples {
                threshold,
                per_level,
                samples,
            } => self.answer_samples(*threshold, *per_level, samples, text),
            Request::Reply { expect, bits } => self.answer_reply(expect, bits, text),
            Request::Heard {
                code,
                trext,
                expect,
                levels,
            } => self.answer_heard(*code, *trext, expect, levels, text),
            Request::Pie { intervals } => self.answer_frame(intervals, text),
            Request::Command { bits } => self.answer_command(bits, text),
            Request::Sgtin { words } => self.answer_sgtin(words, text),
            Request::Uri { text: uri } => answer_uri(uri, text),
        }
    }

    /// Adds the bits of the levels in the room, or the place at which they are no stream.
    fn answer_levels(
        &mut self,
        code: Code,
        trext: bool,
        text: &mut String,
    ) -> Result<(), OutOfMemory>
        requires { length self.old.levels.items ≤ MOST_LEVELS }
        ensures { OnOk result
            (AddsAnswer (Request.Stream code trext self.old.levels.items) (string_bytes text.old)
            (string_bytes text.new)) }
    {
        let outcome = decode_levels(code, trext, &self.levels, &mut self.bits);
        push_outcome(text, outcome, &self.bits)
    }

    /// Adds the levels of samples, or the place at which they are none.
    fn answer_samples(
        &mut self,
        threshold: u8,
        per_level: u32,
        samples: &HexBytes,
        text: &mut String,
    ) -> Result<(), OutOfMemory>
        requires { IsWithinDecodeLimits (Request.Samples threshold per_level samples.now) }
        ensures { OnOk result
            (AddsAnswer (Request.Samples threshold per_level samples.now) (string_bytes text.old)
            (string_bytes text.new)) }
    {
        read_samples(samples, &mut self.samples)?;
        let outcome = slice_levels(&self.samples, threshold, per_level, &mut self.levels);
        push_slicing(text, outcome, &self.levels)
    }

    /// Adds the reply that bits are, or why they are none that is expected.
    fn answer_reply(
        &mut self,
        expect: &Expect,
        bits: &Digits,
        text: &mut String,
    ) -> Result<(), OutOfMemory>
        requires { IsWithinDecodeLimits (Request.Reply expect.now bits.now) }
        ensures { OnOk result
            (AddsAnswer (Request.Reply expect.now bits.now) (string_bytes text.old)
            (string_bytes text.new)) }
    {
        bits.copy_to(&mut self.bits);
        let outcome = decode_reply(&self.bits, expect);
        push_replied(text, &outcome)
    }

    /// Adds the reply that is heard in levels, or the place at which none can be.
    fn answer_heard(
        &mut self,
        code: Code,
        trext: bool,
        expect: &Expect,
        levels: &Digits,
        text: &mut String,
    ) -> Result<(), OutOfMemory>
        requires { IsWithinDecodeLimits (Request.Heard code trext expect.now levels.now) }
        ensures { OnOk result
            (AddsAnswer (Request.Heard code trext expect.now levels.now) (string_bytes text.old)
            (string_bytes text.new)) }
    {
        levels.copy_to(&mut self.levels);
        receive(
            &self.levels,
            code,
            trext,
            expect,
            &mut self.bits,
            &mut self.received,
        );
        push_received(text, &self.received)
    }

    /// Adds the frame that intervals are, or why they are none.
    fn answer_frame(&mut self, intervals: &Numbers, text: &mut String) -> Result<(), OutOfMemory>
        requires { IsWithinDecodeLimits (Request.Pie intervals.now) }
        ensures { OnOk result
            (AddsAnswer (Request.Pie intervals.now) (string_bytes text.old)
            (string_bytes text.new)) }
    {
        let outcome = decode_frame(intervals.list(), &mut self.bits);
        push_framed(text, &outcome, &self.bits)
    }

    /// Adds the command that bits are, or why they are none.
    fn answer_command(&mut self, bits: &Digits, text: &mut String) -> Result<(), OutOfMemory>
        requires { IsWithinDecodeLimits (Request.Command bits.now) }
        ensures { OnOk result
            (AddsAnswer (Request.Command bits.now) (string_bytes text.old)
            (string_bytes text.new)) }
    {
        bits.copy_to(&mut self.bits);
        decode_command_to(self.bits.as_slice(), &mut self.framer, &mut self.command);
        push_commanded(text, &self.command)
    }

    /// Adds the trade item number that words carry, or why they carry none.
    fn answer_sgtin(&mut self, words: &Words, text: &mut String) -> Result<(), OutOfMemory>
        ensures { OnOk result
            (AddsAnswer (Request.Sgtin words.now) (string_bytes text.old) (string_bytes text.new)) }
    {
        words.copy_to(&mut self.words)?;
        let outcome = Sgtin::decode(&self.words);
        push_named(text, &outcome)
    }
}

/// Writes samples into a list in place of what it holds.
fn read_samples(samples: &HexBytes, out: &mut Vec<u8>) -> Result<(), OutOfMemory>
    ensures { OnOk result (out.new.items ≡ samples.now) }
{
    out.resize(samples.len() as usize, 0)?;
    samples.write_to(out);
    Ok(())
}

/// Adds the words of the trade item number that a URI names, or why it names none.
fn answer_uri(uri: &RawField, text: &mut String) -> Result<(), OutOfMemory>
    ensures { OnOk result (AddsAnswer (Request.Uri uri.now) (string_bytes text.old)
        (string_bytes text.new)) }
{
    let outcome = words_of_uri(uri.as_slice());
    push_worded(text, &outcome)
}

/// The words of the trade item number that a URI names, or why it names none.
fn words_of_uri(uri: &[u8]) -> Result<[u16; 6], UriFault>
    ensures ok { IfOk result
        (λ words. (sgtin : SgtinValue) × IsUriOf sgtin uri.now × IsSgtin sgtin words) }
    ensures refused { IfErr result (λ fault. RefusesUri fault uri.now) }
{
    let sgtin = Sgtin::read_uri(uri)?;
    Ok(sgtin.encode())
}
