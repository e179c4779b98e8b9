//! A log, judged as its text is read.
ghost use Rattle.std.specs.Prelude.{◌≡◌, ◌↔◌, [], IfErr, IfOk, IsTrue};
ghost use Rattle.log_judge.specs.Answers.{verdict_in};
ghost use Rattle.log_judge.specs.JudgeStanding.{HasHeardLog};
ghost use Rattle.log_judge.specs.Log.{LoggedTag};
ghost use Rattle.scenario_lines.specs.TagForm.{IsTag};
ghost use Rattle.text_fields.specs.Lines.{lines_of};
ghost use Rattle.bench_lines.specs.Judged.{IsJudged, IsRefusedFor};
ghost use Rattle.bench_lines.specs.LogText.{logged_tag, log_version_line};
ghost use Rattle.bench_lines.specs.ReadEntries.{HasReadLog};

use crate::log_entries::{EntryRooms, SaidEntry, read_entry};
use crate::log_tag::read_logged_tag;
use bit_strings::OutOfMemory;
use checked_lines::{FaultReason, Unread, unread_at};
use log_judge::{Judge, Verdict};
use scenario_lines::{TagSpec, tag_lines_fit_memories};
use std::alloc::Global;
use std::marker::Brand;
use std::sync::ledger::{Blank, Ledger};
use tag_machine::Steps;
use text_fields::split_line;

/// Whether a line is the first one of a log.
fn is_version(line: &[u8]) -> bool
    ensures { IsTrue result ↔ (line.now ≡ log_version_line) }
{
    line == b"judge 1".as_slice()
}

/// The tag that a text tells, and what stands behind its line.
fn read_tag(alloc: Global, text: &[u8]) -> Result<(TagSpec, &[u8]), Unread>
    ensures ok { IfOk result
        (λ it. HasReadLog text.now (logged_tag it.0) [] (lines_of it.1.now) × IsTag it.0) }
    ensures refused { IfErr result (IsRefusedFor text.now) }
{
    let Some((line, behind)) = split_line(text) else {
        return Err(unread_at(1, FaultReason::End));
    };
    if !is_version(line) {
        return Err(unread_at(1, FaultReason::Version));
    }
    let Some((line, behind)) = split_line(behind) else {
        return Err(unread_at(2, FaultReason::End));
    };
    let tag = read_logged_tag(alloc, line)?;
    Ok((tag, behind))
}

/// A judge that has heard nothing of the log of a tag.
fn new_judge(alloc: Global, tag: TagSpec) -> Result<Judge, OutOfMemory>
    requires { IsTag tag }
    ensures { IfOk result (HasHeardLog (logged_tag tag) []) }
{
    // By this law a memory can be made of the tag.
    tag_lines_fit_memories();
    Judge::new(alloc, &tag.image, tag.locks)
}

/// A judge that has heard nothing of the log that a text says, the room for its entries, and what stands behind the line of the tag.
fn begin(alloc: Global, text: &[u8]) -> Result<(Judge, EntryRooms, &[u8]), Unread>
    ensures ok { IfOk result
        (λ it. (tag : LoggedTag) × HasReadLog text.now tag [] (lines_of it.2.now)
        × HasHeardLog tag [] it.0) }
    ensures refused { IfErr result (IsRefusedFor text.now) }
{
    let (tag, behind) = read_tag(alloc, text)?;
    let rooms = EntryRooms::new(alloc)?;
    let judge = new_judge(alloc, tag)?;
    Ok((judge, rooms, behind))
}

/// What is judged of the log that a text says. The blank is for the counter of steps.
fn judge_text<L: Ledger>(blank: Blank, alloc: Global, text: &[u8]) -> Result<Verdict, Unread>
    requires name { blank.name ≡ L.name }
    requires parts { blank.parts ≡ L.parts }
    requires one { blank.parts ≡ 1 }
    ensures ok { IfOk result (λ verdict. IsJudged text.now (verdict_in verdict)) }
    ensures refused { IfErr result (IsRefusedFor text.now) }
{
    let (mut judge, mut rooms, mut rest) = begin(alloc, text)?;
    let mut steps = Steps::<L>::new(blank);
    let mut count = 0;
    loop {
        let (entry, left) = read_entry(rest, count, &mut rooms)?;
        match entry {
            SaidEntry::End => return Ok(judge.verdict()),
            entry => {
                count += entry.line_count();
                judge = rooms.tell(judge, entry, &mut steps);
                rest = left;
            }
        }
    }
}

/// What is judged of the log that a text says. The text is read once, and no memory is taken for a line but that of the tag.
///
/// # Errors
///
/// - `Line`: the first faulty line, counted from 1, with the first reason that applies to it.
/// - `OutOfMemory`: there was no memory.
pub fn judge_log(alloc: Global, text: &[u8]) -> Result<Verdict, Unread>
    ensures ok { IfOk result (λ verdict. IsJudged text.now (verdict_in verdict)) }
    ensures refused { IfErr result (IsRefusedFor text.now) }
{
    judge_text::<Brand>(Blank::new(1), alloc, text)
}
