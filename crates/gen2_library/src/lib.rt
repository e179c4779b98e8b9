//! The program for C and other languages: one call over memory, whose clauses are those of the program, and one that says the version.
//!
//! It is a static library. Its header stands in examples/c, with a program in C and one in Python that use it.
#![tactic(auto)]

ghost use Rattle.std.specs.Prelude.{◌≡◌, ◌≢◌, ◌⊎◌, ℕ, ◌≤◌, ◌<◌, true, false, List, length, drop};
ghost use Rattle.gen2_library.specs.LentRoom.{HasUnreadableWord, input_of, Gives, GivesFront, Overflows};
ghost use Rattle.report_lines.specs.declared.mode.Mode.{Mode};
ghost use Rattle.text_fields.specs.Lines.{fields_of};
ghost use Rattle.top_call.specs.HelpAndVersion.{version_number};
ghost use Rattle.top_call.specs.Form.{SpellForm, SpellSomeForm};
ghost use Rattle.top_call.specs.Job.{Defines};
ghost use Rattle.top_call.specs.Jobs.{job_of};
ghost use Rattle.top_call.specs.StatusMeanings.{input_limit};
ghost use Rattle.top_call.specs.declared.forms.Form.{Form};
ghost use Rattle.top_call.specs.words.Generate.{CountsEveryTag};
ghost use Rattle.top_call.specs.words.Run.{SaysHeadline, SaysInventory};

mod call;
mod lent_room;
mod words;

use call::{is_too_long, run_over};
use lent_room::Room;
use std::alloc::Global;
use top_call::{Status, version_number};
use words::{form_in, has_unreadable_word, words_of};

/// The status where a word isn't UTF-8.
const UNREADABLE_WORDS: u32 = 8;

/// Does what the words ask for, as the program does: reads the input, and writes the defined text to the output, from its
/// beginning on. `written` is then how many bytes it wrote. The words are one text, with a space between two of them. The answer
/// is the exit status of the program; 5 says that the output has no room for the whole text.
///
/// No pointer may be null, also where a length is 0, and `words`, `input` and `output` have at least so many bytes as their lengths say.
#[unsafe(no_mangle)]
pub extern "C" fn gen2run_over_memory(
    alloc: Global,
    words: &[u8],
    input: &[u8],
    output: &mut [u8],
    written: &mut usize,
) -> u32
    // 0: the text that the form of the words has to write for the input was written whole, and keeps its promises.
    ensures done { (form : Form) → SpellForm (fields_of words.now) form → result ≡ 0
        → Gives ((job_of form).writes (input_of (job_of form) input.now)) output.new written.new }
    ensures promises { (form : Form) → SpellForm (fields_of words.now) form → result ≡ 0
        → Gives ((job_of form).promises (input_of (job_of form) input.now)) output.new written.new }
    ensures headline { (mode : Mode) → SpellForm (fields_of words.now) (Form.Run mode) → result ≡ 0
        → Gives (SaysHeadline mode input.now) output.new written.new }
    ensures inventory { ((mode : Mode) → SpellForm (fields_of words.now) (Form.Run mode)
        → result ≡ 0
        → Gives (SaysInventory mode input.now) output.new written.new)
        × ((seed tags : ℕ) → SpellForm (fields_of words.now) (Form.Gen seed tags) → result ≡ 0
        → Gives (CountsEveryTag seed tags) output.new written.new) }
    // 2: the words have no form, and nothing was written.
    ensures bad_words { result ≡ 2 → (SpellSomeForm (fields_of words.now) → ⊥) × (written.new ≡ 0) }
    // Words without a form are told as such, unless one can't be read; nothing is written in any case.
    ensures formless { (SpellSomeForm (fields_of words.now) → ⊥) → ((result ≡ 2) ⊎ (result ≡ 8))
        × (written.new ≡ 0) }
    // Under a form without an input, as `gen` is, no status comes that speaks of an input.
    ensures unread { (form : Form) → SpellForm (fields_of words.now) form
        → (job_of form).input ≡ false
        → (result ≢ 3) × (result ≢ 6) }
    // 3: the fault line of the input was written whole.
    ensures bad_input { (form : Form) → SpellForm (fields_of words.now) form → result ≡ 3
        → Gives ((job_of form).refuses (input_of (job_of form) input.now)) output.new written.new }
    // 5: the output is full, and the defined text goes on. It or 7 comes wherever the defined text of an input within the limit is
    // longer than the output.
    ensures no_room { (form : Form) → SpellForm (fields_of words.now) form → result ≡ 5
        → Overflows (Defines (job_of form) (input_of (job_of form) input.now)) output.new
        written.new }
    ensures longer { (form : Form) → SpellForm (fields_of words.now) form
        → length (input_of (job_of form) input.now) ≤ input_limit
        → (text : List ℕ) → Defines (job_of form) (input_of (job_of form) input.now) text
        → length output.old < length text → (result ≡ 5) ⊎ (result ≡ 7) }
    // 6: the input is longer than the limit, and nothing was written.
    ensures too_long { result ≡ 6 → (input_limit < length input.now) × (written.new ≡ 0) }
    // 7: memory ran out, and a front of the defined text was written, maybe none of it. It comes only where the words have a form
    // and the input is not too long for it. This is the one answer that is free: no clause ties it to a request of memory that failed.
    ensures out_of_memory { (form : Form) → SpellForm (fields_of words.now) form → result ≡ 7
        → (written.new ≡ 0)
        ⊎ GivesFront (Defines (job_of form) (input_of (job_of form) input.now)) output.new
        written.new }
    // 8: exactly where a word isn't UTF-8, and nothing is written.
    ensures unreadable { result ≡ 8 → HasUnreadableWord words.now × (written.new ≡ 0) }
    ensures unread_words { HasUnreadableWord words.now → (result ≡ 8) × (written.new ≡ 0) }
    // No other status comes, and no read fails.
    ensures statuses { (result ≤ 8) × (result ≢ 1) × (result ≢ 4) }
    // Input within the limit that the form's grammar allows gives the whole text, unless there is no room or no memory.
    ensures complete { (form : Form) → SpellForm (fields_of words.now) form
        → length (input_of (job_of form) input.now) ≤ input_limit
        → (job_of form).allows (input_of (job_of form) input.now) → (result ≡ 0) ⊎ (result ≡ 5)
        ⊎ (result ≡ 7) }
    // Input within the limit that it refuses gives the whole fault line, under the same condition.
    ensures refused { (form : Form) → SpellForm (fields_of words.now) form
        → length (input_of (job_of form) input.now) ≤ input_limit
        → (text : List ℕ) → (job_of form).refuses (input_of (job_of form) input.now) text
        → (result ≡ 3) ⊎ (result ≡ 5) ⊎ (result ≡ 7) }
    // Input over the limit is told as such, and nothing is written.
    ensures passes_limit { (form : Form) → SpellForm (fields_of words.now) form
        → (job_of form).input ≡ true
        → input_limit < length input.now → (result ≡ 6) × (written.new ≡ 0) }
    // What stands behind that in the output stays.
    ensures behind { drop written.new output.new ≡ drop written.new output.old }
{
    *written = 0;
    // Memory is taken only where the words have a form, and the input is not too long for it.
    if has_unreadable_word(words) {
        return UNREADABLE_WORDS;
    }
    let Some(form) = form_in(words) else {
        return u32::from(Status::BadWords.number());
    };
    if is_too_long(form, input) {
        return u32::from(Status::TooLong.number());
    }
    let Ok(words) = words_of(alloc, words) else {
        return u32::from(Status::OutOfMemory.number());
    };
    let Ok(bytes) = Vec::from_slice(alloc, input) else {
        return u32::from(Status::OutOfMemory.number());
    };
    let room = output.len();
    let mut sink = Room::new(alloc, room);
    let status = run_over(alloc, &words, bytes, &mut sink);
    *written = sink.copy_to(output);
    u32::from(sink.status_behind(room, status).number())
}

/// The version of the library as one number: 1,000,000 for each major version, 1,000 for each minor one, and 1 for each patch.
#[unsafe(no_mangle)]
pub extern "C" fn gen2run_version() -> u32
    ensures version { result ≡ version_number }
{
    version_number()
}
