//! A word with `json` behind it: the lines of the word, each as an object.
ghost use Rattle.std.specs.Prelude.{◌≡◌, ◌⊎◌, ℕ, List};
ghost use Rattle.line_objects.specs.declared.line_members.LineSet.{LineSet};
ghost use Rattle.top_call.specs.Job.{Defines, IsLawful};
ghost use Rattle.top_call.specs.StatusMeanings.{EndsSo, Tells, source_change, sink_change};
ghost use Rattle.top_call.specs.words.Objects.{objects_job, plain_job};

use crate::ending::{WriteEnd, Wrote, status_of, write_text};
use crate::forms::Form;
use crate::status::Status;
use crate::words::audit::audit_is_lawful;
use crate::words::decode::{self, decode_is_lawful};
use crate::words::judge::judge_is_lawful;
use crate::words::probe::probe_is_lawful;
use crate::words::run::run_is_lawful;
use crate::words::whole;
use air_io::{Sink, Source};
use air_world::Mode;
use line_objects::{LineSet, PlainText, objects_of, texts_have_objects};
use std::alloc::Global;

/// Answers the word itself, keeps what it writes, and writes the objects of its lines; or its fault line, as it is.
pub fn answer<I: Source, O: Sink>(
    alloc: Global,
    set: LineSet,
    input: &mut I,
    output: &mut O,
) -> Status
    ensures { Tells (objects_job set) (source_change I.left I.faults input.old input.new)
        (sink_change O.written O.faults output.old output.new) (output.new ≡ output.old) result }
{
    let mut plain = PlainText::new(alloc);
    match answer_plain(alloc, set, input, &mut plain) {
        Status::Done => status_of(write_objects(alloc, set, plain.as_slice(), output)),
        Status::BadInput => status_of(write_text(Wrote::FaultLine, plain.as_slice(), output)),
        // There was no memory for the plain text.
        Status::WriteFault => Status::OutOfMemory,
        status => status,
    }
}

/// Answers the word whose lines these are.
fn answer_plain<I: Source, O: Sink>(
    alloc: Global,
    set: LineSet,
    input: &mut I,
    output: &mut O,
) -> Status
    ensures { Tells (plain_job set) (source_change I.left I.faults input.old input.new)
        (sink_change O.written O.faults output.old output.new) (output.new ≡ output.old) result }
{
    match set {
        LineSet::Decode => decode::answer(alloc, input, output),
        LineSet::Probe => whole::answer(alloc, Form::Probe, input, output),
        LineSet::Audit => whole::answer(alloc, Form::Audit, input, output),
        LineSet::Judge => whole::answer(alloc, Form::Judge, input, output),
        LineSet::Exchanges => whole::answer(alloc, Form::Run(Mode::Exchanges), input, output),
    }
}

/// Writes the objects of the lines of a plain text.
fn write_objects<O: Sink>(
    alloc: Global,
    set: LineSet,
    plain: &[u8],
    output: &mut O,
) -> Result<Wrote, WriteEnd>
    ensures { (bytes : List ℕ) → (plain_job set).writes bytes plain.now
        → EndsSo (objects_job set) bytes
        (sink_change O.written O.faults output.old output.new) result }
{
    let text = objects_of(alloc, set, plain)?;
    write_text(Wrote::Text, text.as_slice(), output)
}

/// An input has one text of objects or one fault line at most, and never both; and it has one of them where the word itself has a text
/// for it.
pub fn objects_are_lawful()
    ensures lawful { (set : LineSet) → IsLawful (objects_job set) }
    ensures defined { (set : LineSet) (bytes plain : List ℕ) → Defines (plain_job set) bytes plain
        → (text : List ℕ) × Defines (objects_job set) bytes text }
{
    texts_have_objects();
    decode_is_lawful();
    probe_is_lawful();
    audit_is_lawful();
    judge_is_lawful();
    run_is_lawful();
}
