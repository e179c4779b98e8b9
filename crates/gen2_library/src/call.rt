//! The program over memory: an input that is there, and room for its output.
ghost use Rattle.std.specs.Prelude.{◌≡◌, ◌≢◌, ◌↔◌, ◌⊎◌, ℕ, ◌≤◌, ◌<◌, true, false, List, [], length, IsTrue};
ghost use Rattle.gen2_library.specs.LentRoom.{input_of, IsFrontOfText};
ghost use Rattle.report_lines.specs.declared.mode.Mode.{Mode};
ghost use Rattle.top_call.specs.Form.{texts, SpellForm, SpellSomeForm};
ghost use Rattle.top_call.specs.Job.{Defines};
ghost use Rattle.top_call.specs.Jobs.{job_of};
ghost use Rattle.top_call.specs.StatusMeanings.{input_limit, SpeaksOfNoInput};
ghost use Rattle.top_call.specs.declared.forms.Form.{Form};
ghost use Rattle.top_call.specs.declared.status.Status.{Status};
ghost use Rattle.top_call.specs.words.Generate.{CountsEveryTag};
ghost use Rattle.top_call.specs.words.Run.{SaysHeadline, SaysInventory};

use crate::lent_room::Room;
use air_io::SureSource;
use std::alloc::Global;
use top_call::{
    Form, MOST_INPUT_BYTES, Status, gen2run, grammatical_inputs_are_not_refused,
    inputs_have_one_text, reads_input,
};

/// Whether an input is longer than the limit, where the words of the form read one.
pub fn is_too_long(form: Form, input: &[u8]) -> bool
    ensures { IsTrue result ↔ (((job_of form).input ≡ true) × (input_limit < length input.now)) }
{
    reads_input(form) && input.len() > MOST_INPUT_BYTES as usize
}

/// Does what the words ask for with this input, over a sink that has nothing yet.
pub fn run_over(alloc: Global, words: &[String], input: Vec<u8>, sink: &mut Room) -> Status
    requires { sink.old.written ≡ [] }
    // Done and BadInput: what was written is the whole text.
    ensures done { (form : Form) → SpellForm (texts words.now) form → result ≡ Status.Done
        → (job_of form).writes (input_of (job_of form) input.items) sink.new.written }
    ensures promises { (form : Form) → SpellForm (texts words.now) form → result ≡ Status.Done
        → (job_of form).promises (input_of (job_of form) input.items) sink.new.written }
    ensures headline { (mode : Mode) → SpellForm (texts words.now) (Form.Run mode)
        → result ≡ Status.Done
        → SaysHeadline mode input.items sink.new.written }
    ensures inventory { ((mode : Mode) → SpellForm (texts words.now) (Form.Run mode)
        → result ≡ Status.Done
        → SaysInventory mode input.items sink.new.written)
        × ((seed tags : ℕ) → SpellForm (texts words.now) (Form.Gen seed tags) → result ≡ Status.Done
        → CountsEveryTag seed tags sink.new.written) }
    ensures bad_input { (form : Form) → SpellForm (texts words.now) form → result ≡ Status.BadInput
        → (job_of form).refuses (input_of (job_of form) input.items) sink.new.written }
    // BadWords and TooLong: nothing was written.
    ensures bad_words { result ≡ Status.BadWords → (SpellSomeForm (texts words.now) → ⊥)
        × (sink.new.written ≡ []) }
    ensures too_long { result ≡ Status.TooLong → (input_limit < length input.items)
        × (sink.new.written ≡ []) }
    // WriteFault and OutOfMemory: a front of the text was written, maybe none of it.
    ensures write_fault { (form : Form) → SpellForm (texts words.now) form
        → result ≡ Status.WriteFault
        → IsFrontOfText (Defines (job_of form) (input_of (job_of form) input.items))
        sink.new.written }
    ensures out_of_memory { (form : Form) → SpellForm (texts words.now) form
        → result ≡ Status.OutOfMemory
        → (sink.new.written ≡ [])
        ⊎ IsFrontOfText (Defines (job_of form) (input_of (job_of form) input.items))
        sink.new.written }
    // No read fails, and a form without an input has no status that speaks of one.
    ensures no_read_fault { result ≢ Status.ReadFault }
    ensures unread { (form : Form) → SpellForm (texts words.now) form → (job_of form).input ≡ false
        → SpeaksOfNoInput result }
    ensures complete { (form : Form) → SpellForm (texts words.now) form
        → length (input_of (job_of form) input.items) ≤ input_limit
        → (job_of form).allows (input_of (job_of form) input.items)
        → (result ≡ Status.Done) ⊎ (result ≡ Status.WriteFault) ⊎ (result ≡ Status.OutOfMemory) }
    ensures refused { (form : Form) → SpellForm (texts words.now) form
        → length (input_of (job_of form) input.items) ≤ input_limit
        → (text : List ℕ) → (job_of form).refuses (input_of (job_of form) input.items) text
        → (result ≡ Status.BadInput) ⊎ (result ≡ Status.WriteFault)
        ⊎ (result ≡ Status.OutOfMemory) }
    // An input within the limit has one defined text, which was written whole, unless a write failed or memory ran out.
    ensures whole { (form : Form) → SpellForm (texts words.now) form
        → length (input_of (job_of form) input.items) ≤ input_limit
        → (text : List ℕ) → Defines (job_of form) (input_of (job_of form) input.items) text
        → (sink.new.written ≡ text) ⊎ (result ≡ Status.WriteFault) ⊎ (result ≡ Status.OutOfMemory) }
{
    // By these laws an input has one defined text at most, and one that the grammar allows has no fault line.
    grammatical_inputs_are_not_refused();
    inputs_have_one_text();
    let mut source = SureSource::new(input);
    gen2run(alloc, words, &mut source, sink)
}
