//! The word `judge`: whether a log of one tag can be that of a tag that follows the tables, whatever it drew.
ghost use Rattle.std.specs.Prelude.{◌≡◌, ◌⊎◌, ℕ, List};
ghost use Rattle.top_call.specs.Job.{Defines, IsLawful};
ghost use Rattle.top_call.specs.StatusMeanings.{EndsSo, sink_change};
ghost use Rattle.top_call.specs.words.Judge.{judge_job};

use crate::ending::{WriteEnd, Wrote, write_text};
use air_io::Sink;
use bench_lines::{
    judge_log, log_texts_are_not_faulty, log_texts_have_one_fault, log_texts_have_one_verdict,
    push_verdict, texts_are_logs_or_faulty,
};
use checked_lines::{Unread, fault_text};
use log_judge::logs_that_tags_make_are_explained;
use std::alloc::Global;

/// Writes what is defined for the bytes of an input: what is judged of the log that they say, or the one line that reports the first faulty
/// line.
pub fn write_judged<O: Sink>(alloc: Global, input: &[u8], output: &mut O) -> Result<Wrote, WriteEnd>
    ensures { EndsSo judge_job input.now
        (sink_change O.written O.faults output.old output.new) result }
{
    match judge_log(alloc, input) {
        Ok(verdict) => {
            let mut line = String::new(alloc);
            push_verdict(&mut line, &verdict)?;
            write_text(Wrote::Text, line.as_bytes(), output)
        }
        Err(Unread::Line(fault)) => {
            let line = fault_text(fault);
            write_text(Wrote::FaultLine, line.as_slice(), output)
        }
        Err(Unread::OutOfMemory) => Err(WriteEnd::OutOfMemory),
    }
}

/// An input has one verdict or one fault line at most, and never both; and a log that a tag makes by the tables is judged yes.
pub fn judge_is_lawful()
    ensures { IsLawful judge_job }
{
    log_texts_have_one_verdict();
    log_texts_have_one_fault();
    log_texts_are_not_faulty();
    logs_that_tags_make_are_explained();
}

/// Each list of bytes has a defined text: the verdict on the log that it says, or its fault line.
pub fn judge_inputs_have_a_text()
    ensures { (bytes : List ℕ) → (text : List ℕ) × Defines judge_job bytes text }
{
    texts_are_logs_or_faulty();
    log_texts_have_one_verdict();
}
