//! The top call: what the program does for its words.
ghost use Rattle.std.specs.Prelude.{◌≡◌, ◌≢◌, true, false, ◌<◌, ◌≤◌, ◌↔◌, ◌⊎◌, ℕ, List, length, Some};
ghost use Rattle.air_io.specs.Flow.{FaultsRose};
ghost use Rattle.top_call.specs.declared.forms.Form.{Form};
ghost use Rattle.top_call.specs.Form.{texts, SpellForm, SpellSomeForm, IsForm};
ghost use Rattle.top_call.specs.Jobs.{AnswersForm, job_of};
ghost use Rattle.top_call.specs.StatusMeanings.{input_limit, WritesWhole, WritesFront, ReadsWithin, ReadsTooMuch, SpeaksOfNoInput, source_change, sink_change};
ghost use Rattle.top_call.specs.words.Generate.{CountsEveryTag, gen_job};
ghost use Rattle.top_call.specs.words.Run.{IsOwnTrace, SaysHeadline, SaysInventory, run_job};
ghost use Rattle.report_lines.specs.declared.mode.Mode.{Mode};

use crate::forms::{Form, form_of};
use crate::laws::jobs_are_lawful;
use crate::status::Status;
use crate::words::{decode, objects, whole};
use air_io::{Sink, Source, SureSink, SureSource};
use std::alloc::Global;

/// Does what the words ask for: reads the input to its end, and writes the defined text.
///
/// The words are looked at first. Nothing is written before the input is read to its end and its grammar is
/// checked as a whole.
pub fn gen2run<I: Source, O: Sink>(
    alloc: Global,
    words: &[String],
    input: &mut I,
    output: &mut O,
) -> Status
    // BadWords comes exactly where the words have no form, and then nothing is read or written.
    ensures bad_words { (result ≡ Status.BadWords) ↔ (¬ SpellSomeForm (texts words.now)) }
    ensures untouched { result ≡ Status.BadWords → (input.new ≡ input.old)
        × (output.new ≡ output.old) }

    // Under a form without an input, as `gen`, `--help` and `--version` are, nothing is read, and no status comes that speaks of an input.
    ensures unread { (form : Form) → SpellForm (texts words.now) form → (job_of form).input ≡ false
        → (input.new ≡ input.old) × SpeaksOfNoInput result }

    // Done: what was added is the text that the form of the words has to write for the bytes read.
    ensures done { (form : Form) → SpellForm (texts words.now) form → result ≡ Status.Done
        → WritesWhole (job_of form) (job_of form).writes (I.left input.old) (I.left input.new)
        (O.written output.old) (O.written output.new) }
    // Done: what was written keeps what its words promise.
    ensures promises { (form : Form) → SpellForm (texts words.now) form → result ≡ Status.Done
        → WritesWhole (job_of form) (job_of form).promises (I.left input.old) (I.left input.new)
        (O.written output.old) (O.written output.new) }
    // Done, of a run: each EPC in the report is what was heard in that round and slot, and where the scenario gives no raw
    // levels, it is one that a present tag sent; each that the channel gave whole is listed once; each tag stands as the
    // commands that it heard and the events that name it leave it; and no round has more slot commands than its limit.
    ensures headline { (mode : Mode) → SpellForm (texts words.now) (Form.Run mode)
        → result ≡ Status.Done
        → WritesWhole (run_job mode) (SaysHeadline mode) (I.left input.old) (I.left input.new)
        (O.written output.old) (O.written output.new) }
    // Done, of a run: a round without operations, of whose exchanges the scenario says nothing, lists no tag twice. Where it ended
    // quiet it lists exactly the tags that its Query matched; and what every flag of every tag is afterwards is known.
    // The list lines of a round are those of the tags that are listed in it, where no ACK of it is answered by raw levels.
    // Done, of a generated scenario: where its round ended quiet, each of its tags was listed.
    ensures inventory { ((mode : Mode) → SpellForm (texts words.now) (Form.Run mode)
        → result ≡ Status.Done
        → WritesWhole (run_job mode) (SaysInventory mode) (I.left input.old) (I.left input.new)
        (O.written output.old) (O.written output.new))
        × ((seed tags : ℕ) → SpellForm (texts words.now) (Form.Gen seed tags) → result ≡ Status.Done
        → WritesWhole (gen_job seed tags)
        (λ bytes text. CountsEveryTag seed tags text) (I.left input.old) (I.left input.new)
        (O.written output.old) (O.written output.new)) }
    // Done, of a trace: where no step of the scenario is an event, the trace is audited.
    ensures own_trace { SpellForm (texts words.now) (Form.Run Mode.Trace) → result ≡ Status.Done
        → WritesWhole (run_job Mode.Trace) IsOwnTrace (I.left input.old) (I.left input.new)
        (O.written output.old) (O.written output.new) }
    // BadInput: what was added is the one fault line of the bytes read.
    ensures bad_input { (form : Form) → SpellForm (texts words.now) form → result ≡ Status.BadInput
        → WritesWhole (job_of form) (job_of form).refuses (I.left input.old) (I.left input.new)
        (O.written output.old) (O.written output.new) }

    // ReadFault comes only where the source's count of faults rose and no more than the limit was read, and then
    // nothing is written.
    ensures read_fault { result ≡ Status.ReadFault
        → FaultsRose (I.faults input.old) (I.faults input.new)
        × ReadsWithin (I.left input.old) (I.left input.new) × (output.new ≡ output.old) }
    // WriteFault comes only where the sink's count of faults rose, and a front of the defined text was added.
    ensures write_fault { (form : Form) → SpellForm (texts words.now) form
        → result ≡ Status.WriteFault
        → FaultsRose (O.faults output.old) (O.faults output.new)
        × WritesFront (job_of form) (I.left input.old) (I.left input.new) (O.written output.old)
        (O.written output.new) }
    // TooLong comes only where more than the limit was read, which no other status allows, and then nothing is written.
    ensures too_long { result ≡ Status.TooLong
        → ReadsTooMuch (I.left input.old) (I.left input.new) × (output.new ≡ output.old) }
    // OutOfMemory: no more than the limit was read and nothing was written, or the input was read to its end, and a
    // front of its defined text was added.
    ensures out_of_memory { (form : Form) → SpellForm (texts words.now) form
        → result ≡ Status.OutOfMemory
        → (ReadsWithin (I.left input.old) (I.left input.new)
        × (O.written output.new ≡ O.written output.old))
        ⊎ WritesFront (job_of form) (I.left input.old) (I.left input.new) (O.written output.old)
        (O.written output.new) }
    // Each failure of a read or a write is told: under every other status the count of faults stands.
    ensures read_told { result ≢ Status.ReadFault → I.faults input.new ≡ I.faults input.old }
    ensures write_told { result ≢ Status.WriteFault → O.faults output.new ≡ O.faults output.old }
    // Under `names` memory is taken for the input alone, so that OutOfMemory leaves the sink as it was.
    ensures names_memory { SpellForm (texts words.now) Form.Names → result ≡ Status.OutOfMemory
        → output.new ≡ output.old }

    // Input within the limit that the form's grammar allows gives Done, unless a device fails or memory runs out.
    ensures complete { (form : Form) → SpellForm (texts words.now) form → (bytes : List ℕ)
        → I.left input.old ≡ Some bytes
        → length bytes ≤ input_limit → (job_of form).allows bytes
        → ¬ FaultsRose (I.faults input.old) (I.faults input.new)
        → ¬ FaultsRose (O.faults output.old) (O.faults output.new)
        → (result ≡ Status.Done) ⊎ (result ≡ Status.OutOfMemory) }
    // Input within the limit that the form's grammar refuses gives BadInput, under the same condition.
    ensures refused { (form : Form) → SpellForm (texts words.now) form → (bytes : List ℕ)
        → I.left input.old ≡ Some bytes
        → length bytes ≤ input_limit → (text : List ℕ) → (job_of form).refuses bytes text
        → ¬ FaultsRose (I.faults input.old) (I.faults input.new)
        → ¬ FaultsRose (O.faults output.old) (O.faults output.new)
        → (result ≡ Status.BadInput) ⊎ (result ≡ Status.OutOfMemory) }
    // Input over the limit gives TooLong, unless a read fails or memory runs out.
    ensures passes_limit { (form : Form) → SpellForm (texts words.now) form
        → (job_of form).input ≡ true
        → (bytes : List ℕ) → I.left input.old ≡ Some bytes → input_limit < length bytes
        → ¬ FaultsRose (I.faults input.old) (I.faults input.new)
        → (result ≡ Status.TooLong) ⊎ (result ≡ Status.OutOfMemory) }
{
    // By this law what is written keeps its promises, and an input that the grammar allows has no fault line.
    jobs_are_lawful();
    match form_of(words) {
        Some(form) => answer(alloc, form, input, output),
        None => Status::BadWords,
    }
}

/// Does what the words ask for, over a source and a sink that never fail. So neither ReadFault nor WriteFault comes.
pub fn gen2run_surely(
    alloc: Global,
    words: &[String],
    input: &mut SureSource,
    output: &mut SureSink,
) -> Status
    ensures no_read_fault { result ≢ Status.ReadFault }
    ensures no_write_fault { result ≢ Status.WriteFault }
{
    gen2run(alloc, words, input, output)
}

/// Answers the words of a form, and lets the sink hand on what it holds back of a whole text.
fn answer<I: Source, O: Sink>(alloc: Global, form: Form, input: &mut I, output: &mut O) -> Status
    requires { IsForm form }
    ensures { AnswersForm form (source_change I.left I.faults input.old input.new)
        (sink_change O.written O.faults output.old output.new) (input.new ≡ input.old)
        (output.new ≡ output.old) result }
{
    match write_answer(alloc, form, input, output) {
        Status::Done => behind_text(Status::Done, output),
        Status::BadInput => behind_text(Status::BadInput, output),
        status => status,
    }
}

/// The status behind a text that is written whole: where the sink fails to hand on what it holds back of it, a write failed.
fn behind_text<O: Sink>(whole: Status, output: &mut O) -> Status
    ensures written { O.written output.new ≡ O.written output.old }
    ensures status { ((result ≡ whole) × (O.faults output.new ≡ O.faults output.old))
        ⊎ ((result ≡ Status.WriteFault) × FaultsRose (O.faults output.old) (O.faults output.new)) }
{
    match output.flush() {
        Ok(()) => whole,
        Err(_) => Status::WriteFault,
    }
}

/// Writes the answer to the words of a form.
fn write_answer<I: Source, O: Sink>(
    alloc: Global,
    form: Form,
    input: &mut I,
    output: &mut O,
) -> Status
    requires { IsForm form }
    ensures { AnswersForm form (source_change I.left I.faults input.old input.new)
        (sink_change O.written O.faults output.old output.new) (input.new ≡ input.old)
        (output.new ≡ output.old) result }
{
    match form {
        Form::Decode => decode::answer(alloc, input, output),
        Form::Objects(set) => objects::answer(alloc, set, input, output),
        _ => whole::answer(alloc, form, input, output),
    }
}
