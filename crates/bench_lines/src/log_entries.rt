//! The entries of a log, read one by one: a line, and where that may be answered the answer line behind it.
ghost use Rattle.std.specs.Prelude.{◌≡◌, ◌≤◌, ◌<◌, ◌+◌, ◌^◌, ◌++◌, ℕ, List, [], ◌∷◌, length, IfErr, IfOk, IsOk, Option};
ghost use Rattle.checked_lines.specs.laws.ReadingOn.{HasReadTo};
ghost use Rattle.command_grammar.specs.Commands.{IsLegalCommand};
ghost use Rattle.command_grammar.specs.declared.commands.Command.{Command};
ghost use Rattle.log_judge.specs.Answers.{seen_in};
ghost use Rattle.log_judge.specs.JudgeStanding.{HasHeardLog};
ghost use Rattle.log_judge.specs.Log.{Exchange, LogEntry, LoggedTag, lines_in};
ghost use Rattle.text_fields.specs.Lines.{lines_of};
ghost use Rattle.bench_lines.specs.declared.log_entries.SaidEntry.{SaidEntry};
ghost use Rattle.bench_lines.specs.LogText.{IsLogText, asked, ended, log_rules, start};
ghost use Rattle.bench_lines.specs.ReadEntries.{HasHeardEntry, HasReadEntry, HasReadLog, IsFaultOf, entry_in, lines_said};

use crate::bench_reading::fault_behind;
use crate::effect::{SaidEffect, effect_of};
use crate::log_reading::{read_next, read_seen};
use crate::probe_line::SaidLine;
use air_events::Event;
use bit_strings::{Bits, OutOfMemory};
use checked_lines::{FaultReason, FaultyLine};
use command_grammar::Command;
use log_judge::{Answer, Judge};
use std::alloc::Global;
use std::sync::ledger::Ledger;
use tag_machine::Steps;
use text_fields::split_line;

/// Room for the bits of a line.
const ROOM: u32 = 8_240;

/// What an entry says, where a command and an answer stand in the rooms that were lent.
#[derive(Drop)]
pub(crate) enum SaidEntry {
    /// The tag was sent the command, and was seen to send the answer.
    Hears,
    /// The tag was sent bits that spell no command, and was seen to send the answer.
    HearsNoCommand,
    /// This befell the tag.
    Befalls(Event),
    /// The log is at its end.
    End,
}

impl SaidEntry {
    /// How many lines of the log the entry takes: with an answer line two, and at the end none.
    pub(crate) fn line_count(&self) -> u32
        ensures { result ≡ lines_said self.now }
    {
        match self {
            SaidEntry::Hears => 2,
            SaidEntry::HearsNoCommand => 2,
            SaidEntry::Befalls(_) => 1,
            SaidEntry::End => 0,
        }
    }
}

/// Room for a command, for bits and for an answer, taken once for all lines.
pub(crate) struct EntryRooms {
    /// The command that the tag was sent last.
    pub(crate) command: Command,
    /// What it was seen to answer last.
    pub(crate) answer: Answer,
    bits: Bits,
    ghost bits_room: { bits.capacity ≡ 8240 },
}

// Written out, so that a drop is one call in the proof of each function that owns these rooms, and not one for each part.
impl Drop for EntryRooms {
    fn drop(self) {
        let EntryRooms {
            command: _,
            answer: _,
            bits: _,
        } = self;
    }
}

impl EntryRooms {
    /// Takes the room for the bits of a log's line; no command was sent and no answer seen yet.
    pub(crate) fn new(alloc: Global) -> Result<EntryRooms, OutOfMemory> {
        let bits = Bits::new(alloc, ROOM)?;
        Ok(EntryRooms {
            command: Command::Nak,
            answer: Answer::none(),
            bits,
        })
    }

    /// Tells the judge of an entry, whose command and answer stand here.
    pub(crate) fn tell<L: Ledger>(
        &self,
        judge: Judge,
        entry: SaidEntry,
        steps: &mut Steps<L>,
    ) -> Judge
        requires legal { entry ≡ SaidEntry.Hears → IsLegalCommand self.now.command }
        requires early { judge.line < 2 ^ 31 }
        ensures { (tag : LoggedTag) (log : List LogEntry) → HasHeardLog tag log judge
            → HasHeardEntry tag log (entry_in entry self.now.command self.now.answer) result }
    {
        match entry {
            SaidEntry::Hears => judge.hear(&self.command, &self.answer, steps),
            SaidEntry::HearsNoCommand => judge.hear_no_command(&self.answer),
            SaidEntry::Befalls(event) => judge.befall(event),
            SaidEntry::End => judge,
        }
    }
}

/// Reads the answer line behind a command or bits, and behind the line of the tag and so many in all. What it says takes the place of another
/// answer, and what stands behind it is left.
fn read_answer<'a>(rest: &'a [u8], count: u32, answer: &mut Answer) -> Result<&'a [u8], FaultyLine>
    requires { count ≤ 70000 }
    ensures ok { (bytes : List ℕ) (tag : LoggedTag) (log : List LogEntry) (heard : Option Command)
        → lines_in log + 1 ≡ count
        → HasReadTo log_rules start 1 (lines_of bytes) (asked tag log heard) (3 + count)
        (lines_of rest.now)
        → IfOk result (λ left. HasReadLog bytes tag
        (log ++ Exchange heard (seen_in answer.new) ∷ []) (lines_of left.now)) }
    ensures refused { (bytes : List ℕ) (tag : LoggedTag) (log : List LogEntry)
        (heard : Option Command) → lines_in log + 1 ≡ count
        → HasReadTo log_rules start 1 (lines_of bytes) (asked tag log heard) (3 + count)
        (lines_of rest.now) → IfErr result (IsFaultOf bytes) }
    ensures few { IsOk result → count < 70000 }
    ensures shorter { IfOk result (λ left. length left.now < length rest.now) }
{
    let Some((line, behind)) = split_line(rest) else {
        return Err(fault_behind(count, FaultReason::End));
    };
    match read_seen(line, count, answer) {
        Ok(()) => Ok(behind),
        Err(reason) => Err(fault_behind(count, reason)),
    }
}

/// Looks whether nothing stands behind the end, which stands behind the line of the tag and so many more.
fn read_end(rest: &[u8], count: u32) -> Result<(), FaultyLine>
    requires { count ≤ 70001 }
    ensures ok { (bytes : List ℕ) (tag : LoggedTag) (log : List LogEntry)
        → HasReadTo log_rules start 1 (lines_of bytes) (ended tag log) (3 + count)
        (lines_of rest.now)
        → IsOk result → IsLogText bytes tag log }
    ensures refused { (bytes : List ℕ) (tag : LoggedTag) (log : List LogEntry)
        → HasReadTo log_rules start 1 (lines_of bytes) (ended tag log) (3 + count)
        (lines_of rest.now)
        → IfErr result (IsFaultOf bytes) }
{
    if rest.is_empty() {
        Ok(())
    } else {
        Err(fault_behind(count, FaultReason::Extra))
    }
}

/// Reads the entry behind the line of the tag and so many more, of one line or of two. What stands behind it is left.
///
/// # Errors
///
/// The first faulty line.
pub(crate) fn read_entry<'a>(
    rest: &'a [u8],
    count: u32,
    rooms: &mut EntryRooms,
) -> Result<(SaidEntry, &'a [u8]), FaultyLine>
    requires { count ≤ 70000 }
    ensures ok { (bytes : List ℕ) (tag : LoggedTag) (log : List LogEntry) → lines_in log ≡ count
        → HasReadLog bytes tag log (lines_of rest.now)
        → IfOk result (λ it. HasReadEntry bytes tag log
        (entry_in it.0 rooms.new.command rooms.new.answer) (lines_of it.1.now)) }
    ensures refused { (bytes : List ℕ) (tag : LoggedTag) (log : List LogEntry)
        → lines_in log ≡ count → HasReadLog bytes tag log (lines_of rest.now)
        → IfErr result (IsFaultOf bytes) }
    ensures legal { IfOk result (λ it. it.0 ≡ SaidEntry.Hears → IsLegalCommand rooms.new.command) }
    ensures few { IfOk result (λ it. count + lines_said it.0 ≤ 70000) }
    ensures shorter { IfOk result (λ it. length it.1.now < length rest.now) }
{
    let Some((line, behind)) = split_line(rest) else {
        return Err(fault_behind(count, FaultReason::End));
    };
    match read_next(line, count, &mut rooms.command) {
        Err(reason) => Err(fault_behind(count, reason)),
        Ok(SaidLine::End) => {
            read_end(behind, count + 1)?;
            Ok((SaidEntry::End, behind))
        }
        Ok(SaidLine::Stimulus(stimulus)) => {
            match effect_of(stimulus, &mut rooms.bits, &mut rooms.command) {
                SaidEffect::Befalls(event) => Ok((SaidEntry::Befalls(event), behind)),
                SaidEffect::Hears => {
                    let left = read_answer(behind, count + 1, &mut rooms.answer)?;
                    Ok((SaidEntry::Hears, left))
                }
                SaidEffect::Nothing => {
                    let left = read_answer(behind, count + 1, &mut rooms.answer)?;
                    Ok((SaidEntry::HearsNoCommand, left))
                }
            }
        }
    }
}
