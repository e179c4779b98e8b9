//! A probe, played: what the tag answers and what it is behind each line, written as it is made.
ghost use Rattle.std.specs.Prelude.{◌≡◌, ◌<◌, ◌++◌, List, [], ◌∷◌, length, IfOk, IfErr, OnOk};
ghost use Rattle.std.specs.String.{string_bytes};
ghost use Rattle.air_io.specs.Flow.{Adds};
ghost use Rattle.text_fields.specs.Lines.{line_feed, text_with};
ghost use Rattle.scenario_lines.specs.TagForm.{IsTag};
ghost use Rattle.tag_machine.specs.Hearing.{tag_value_of};
ghost use Rattle.bench_lines.specs.Stimuli.{Does, Hears, Stimulus, effect_with, stimulus_with};
ghost use Rattle.bench_lines.specs.ProbeAnswers.{last_text, probe_lines_behind, outcome_of_effect, probed_tag};
ghost use Rattle.bench_lines.specs.StateLine.{state_line};
ghost use Rattle.bench_lines.specs.Played.{HasPlayed, WritesFrontOf, StopsIn, TellsNext};
ghost use Rattle.bench_lines.specs.ProbeLine.{IsProbeLine};
ghost use Rattle.bench_lines.specs.ProbeText.{AreStimuli};

use crate::bench_reading::FIRST_NUMBER;
use crate::effect::{SaidEffect, effect_of};
use crate::probe::Probe;
use crate::probe_laws::stimuli_have_one_effect;
use crate::probe_line::SaidStimulus;
use crate::probe_printing::{push_answer_line, push_silence, push_state_line};
use crate::stimuli::Stimuli;
use air_io::{Sink, write_all};
use bit_strings::{Bits, OutOfMemory};
use command_grammar::Command;
use reply_grammar::Reply;
use report_lines::{PlayFault, push_done_line, push_tag_line};
use scenario_lines::{TagSpec, TagText};
use std::alloc::Global;
use std::marker::Brand;
use std::sync::ledger::{Blank, Ledger};
use tag_machine::{AnyTag, Heard, Steps, answers_are_replies, expectation_of, has_half};

/// Room for the bits of a line and for those of a reply.
const ROOM: u32 = 8_240;

/// How many bytes of a probe's answers wait until they are written together.
const PAGE_BYTES: usize = 4_096;

/// Room for a page and for what comes behind it before it is written: the words of a Read of a whole bank, or the four banks of a tag.
const TEXT_ROOM: usize = 6_656;

/// The tag as the line gives it: ready, with new flags and no draw made.
fn new_tag(alloc: Global, tag: &TagText<'_>) -> Result<AnyTag, OutOfMemory>
    requires { IsTag tag.now }
    ensures { IfOk result (λ it. tag_value_of it ≡ probed_tag tag.now) }
{
    let TagSpec {
        image,
        locks,
        words,
    } = tag.to_spec(alloc)?;
    AnyTag::of_image(alloc, &image, locks, words)
}

/// Writes a text whole.
fn write_text<O: Sink>(out: &mut O, text: &str) -> Result<(), PlayFault>
    ensures ok { OnOk result (Adds (O.written out.old) (O.written out.new) text.now) }
    ensures failed { IfErr result
        (StopsIn text.now (O.written out.old) (O.written out.new) (O.faults out.old)
        (O.faults out.new)) }
    ensures steady { OnOk result (O.faults out.new ≡ O.faults out.old) }
{
    match write_all(out, text.as_bytes()) {
        Ok(()) => Ok(()),
        Err(_) => Err(PlayFault::Write),
    }
}

/// Room for a command, for bits, for a reply and for what waits to be written, taken once for all lines of a probe.
#[derive(Drop)]
struct PlayingRooms {
    command: Command,
    bits: Bits,
    reply: Reply,
    text: String,
    ghost bits_room: { bits.capacity ≡ 8240 },
}

impl PlayingRooms {
    /// Takes the room. Nothing waits.
    fn new(alloc: Global) -> Result<PlayingRooms, OutOfMemory>
        ensures { IfOk result (λ it. string_bytes it.text ≡ []) }
    {
        let bits = Bits::new(alloc, ROOM)?;
        let text = String::with_capacity(alloc, TEXT_ROOM)?;
        Ok(PlayingRooms {
            command: Command::Nak,
            bits,
            reply: Reply::Header,
            text,
        })
    }

    /// What the tag is waits to be written. The tag is handed on.
    fn tell_state(&mut self, number: u32, tag: AnyTag) -> Result<AnyTag, OutOfMemory>
        ensures tag { IfOk result (λ it. tag_value_of it ≡ tag_value_of tag) }
        ensures text { OnOk result (string_bytes self.new.text ≡ string_bytes self.old.text
            ++ (state_line number (tag_value_of tag) ++ line_feed ∷ [])) }
    {
        push_state_line(&mut self.text, number, &tag)?;
        Ok(tag)
    }

    /// Lets the tag hear the command. What it answered and what it is then waits to be written.
    fn hear<L: Ledger>(
        &mut self,
        number: u32,
        tag: AnyTag,
        steps: &mut Steps<L>,
    ) -> Result<AnyTag, OutOfMemory>
        ensures tag { IfOk result
            (λ it. tag_value_of it
            ≡ (outcome_of_effect (Hears self.old.command) (tag_value_of tag)).tag) }
        ensures text { OnOk result
            (string_bytes self.new.text ≡ string_bytes self.old.text
            ++ text_with (probe_lines_behind number (Hears self.old.command) (tag_value_of tag))) }
    {
        // By this law the bits of an answer are a reply that is expected.
        answers_are_replies();
        // In each state a tag is legal.
        let _ = tag.state();
        let expect = expectation_of(&self.command, has_half(tag.numbers()));
        let Heard { tag, answered } = tag.hear(&self.command, &mut self.bits, steps);
        push_answer_line(
            &mut self.text,
            number,
            answered,
            &self.bits,
            &expect,
            &mut self.reply,
        )?;
        push_state_line(&mut self.text, number, &tag)?;
        Ok(tag)
    }

    /// Does this to the tag. What it answered, where it may answer, and what it is then waits to be written.
    fn respond<L: Ledger>(
        &mut self,
        number: u32,
        tag: AnyTag,
        effect: SaidEffect,
        steps: &mut Steps<L>,
    ) -> Result<AnyTag, OutOfMemory>
        ensures tag { IfOk result
            (λ it. tag_value_of it
            ≡ (outcome_of_effect (effect_with effect self.old.command) (tag_value_of tag)).tag) }
        ensures text { OnOk result (string_bytes self.new.text
            ≡ string_bytes self.old.text
            ++ text_with (probe_lines_behind number (effect_with effect self.old.command)
            (tag_value_of tag))) }
    {
        match effect {
            SaidEffect::Hears => self.hear(number, tag, steps),
            SaidEffect::Befalls(event) => self.tell_state(number, tag.event(event)),
            SaidEffect::Nothing => {
                push_silence(&mut self.text, number)?;
                self.tell_state(number, tag)
            }
        }
    }

    /// Does to the tag what is said next, where a command has its room here. What comes of it waits to be written.
    ///
    /// # Errors
    ///
    /// There was no memory.
    fn play_next<L: Ledger>(
        &mut self,
        number: u32,
        tag: AnyTag,
        stimulus: SaidStimulus<'_>,
        steps: &mut Steps<L>,
    ) -> Result<AnyTag, OutOfMemory>
        requires legal { IsProbeLine (Does (stimulus_with stimulus self.old.command)) }
        ensures { IfOk result
            (λ it. TellsNext number (tag_value_of tag)
            (stimulus_with stimulus.entry self.old.command) (tag_value_of it)
            (string_bytes self.old.text) (string_bytes self.new.text)) }
    {
        let effect = effect_of(stimulus, &mut self.bits, &mut self.command);
        self.respond(number, tag, effect, steps)
    }

    /// What the tag is in the end waits to be written.
    ///
    /// # Errors
    ///
    /// There was no memory.
    fn tell_tag(&mut self, tag: &AnyTag) -> Result<(), OutOfMemory>
        ensures { OnOk result
            (string_bytes self.new.text ≡ string_bytes self.old.text
            ++ last_text (tag_value_of tag.now)) }
    {
        push_tag_line(&mut self.text, 0, tag)?;
        push_done_line(&mut self.text)
    }

    /// Writes what waits.
    ///
    /// # Errors
    ///
    /// A write failed. A front of it was written.
    fn flush<O: Sink>(&mut self, out: &mut O) -> Result<(), PlayFault>
        ensures sent { OnOk result
            (Adds (O.written out.old) (O.written out.new) (string_bytes self.old.text)) }
        ensures empty { OnOk result (string_bytes self.new.text ≡ []) }
        ensures failed { IfErr result
            (StopsIn (string_bytes self.old.text) (O.written out.old) (O.written out.new)
            (O.faults out.old) (O.faults out.new)) }
        ensures steady { OnOk result (O.faults out.new ≡ O.faults out.old) }
    {
        write_text(out, self.text.as_str())?;
        self.text.clear();
        Ok(())
    }

    /// Writes what waits, where it is a page: less than one waits on.
    ///
    /// # Errors
    ///
    /// As for `flush`.
    fn write_page<O: Sink>(&mut self, out: &mut O) -> Result<(), PlayFault>
        ensures sent { OnOk result
            (WritesFrontOf (string_bytes self.old.text) (string_bytes self.new.text)
            (O.written out.old) (O.written out.new)) }
        ensures page { OnOk result (length (string_bytes self.new.text) < 4096) }
        ensures failed { IfErr result
            (StopsIn (string_bytes self.old.text) (O.written out.old) (O.written out.new)
            (O.faults out.old) (O.faults out.new)) }
        ensures steady { OnOk result (O.faults out.new ≡ O.faults out.old) }
    {
        if self.text.len() < PAGE_BYTES {
            return Ok(());
        }
        self.flush(out)
    }
}

/// Does to the tag what is said, one after another, and writes what comes of each, page by page; then what the tag is in the end. The
/// blank is for the counter of steps.
fn play_on<L: Ledger, O: Sink>(
    blank: Blank,
    first: AnyTag,
    stimuli: Stimuli<'_>,
    rooms: &mut PlayingRooms,
    out: &mut O,
) -> Result<(), PlayFault>
    requires name { blank.name ≡ L.name }
    requires parts { blank.parts ≡ L.parts }
    requires one { blank.parts ≡ 1 }
    requires said { (said : List Stimulus) × AreStimuli stimuli said }
    requires nothing { string_bytes rooms.old.text ≡ [] }
    ensures { (said : List Stimulus) → AreStimuli stimuli.entry said
        → HasPlayed (tag_value_of first) said (O.written out.old) (O.written out.new)
        (O.faults out.old) (O.faults out.new) result }
{
    // By this law what is left has an effect, so that there is a whole text.
    stimuli_have_one_effect();
    let mut steps = Steps::<L>::new(blank);
    let mut tag = first;
    let mut left = stimuli;
    let mut number = FIRST_NUMBER;
    while let Some(stimulus) = left.next_to(&mut rooms.command) {
        tag = rooms.play_next(number, tag, stimulus, &mut steps)?;
        rooms.write_page(out)?;
        number += 1;
    }
    rooms.tell_tag(&tag)?;
    rooms.flush(out)
}

/// Does to the tag of a probe what is said, line by line, and writes behind each line what the tag answers and what it is then; and in
/// the end the line of the tag, as in a report. Lines wait until they are a page.
///
/// # Errors
///
/// - `Write`: a write failed.
/// - `OutOfMemory`: there was no memory.
///
/// A front of the text was written then, maybe none.
pub fn play<O: Sink>(alloc: Global, probe: Probe<'_>, out: &mut O) -> Result<(), PlayFault>
    requires tag { IsTag probe.tag }
    requires said { (said : List Stimulus) × AreStimuli probe.stimuli said }
    ensures { (said : List Stimulus) → AreStimuli probe.entry.stimuli said
        → HasPlayed (probed_tag probe.entry.tag) said (O.written out.old) (O.written out.new)
        (O.faults out.old) (O.faults out.new) result }
{
    stimuli_have_one_effect();
    let Probe { tag, stimuli } = probe;
    let tag = new_tag(alloc, &tag)?;
    let mut rooms = PlayingRooms::new(alloc)?;
    play_on::<Brand, O>(Blank::new(1), tag, stimuli, &mut rooms, out)
}
