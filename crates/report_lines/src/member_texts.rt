//! Texts of the members of JSON objects.
ghost use Rattle.std.specs.Prelude.{◌≡◌, OnOk};
ghost use Rattle.std.specs.String.{string_bytes};
ghost use Rattle.report_lines.specs.JsonLines.{digits_of, result_value};
ghost use Rattle.report_lines.specs.ReportLine.{flags_word};
ghost use Rattle.text_fields.specs.Hexadecimal.{hex_word};
ghost use Rattle.wire_text.specs.PasswordsAndLocks.{locks_text};

use crate::tag_line::push_flags;
use access_ops::OpResult;
use bit_strings::OutOfMemory;
use command_grammar::Bank;
use lock_rules::Locks;
use session_flags::Flags;
use std::alloc::Global;
use tag_memory::Memory;
use text_fields::{push_byte_hex, push_word, push_words};
use wire_text::push_locks;

/// Room for the texts of an object's members, which one line after another takes.
#[derive(Drop)]
pub struct MemberTexts {
    pub(crate) epc: String,
    pub(crate) flags: String,
    pub(crate) locks: String,
    pub(crate) pc: String,
    pub(crate) reserved: String,
    pub(crate) tid: String,
    pub(crate) user: String,
    pub(crate) value: String,
}

impl MemberTexts {
    /// Room that takes no memory yet.
    pub fn new(alloc: Global) -> MemberTexts {
        MemberTexts {
            epc: String::new(alloc),
            flags: String::new(alloc),
            locks: String::new(alloc),
            pc: String::new(alloc),
            reserved: String::new(alloc),
            tid: String::new(alloc),
            user: String::new(alloc),
            value: String::new(alloc),
        }
    }

    /// Makes the texts of the four banks the digits of their words.
    pub(crate) fn set_banks(&mut self, memory: &Memory) -> Result<(), OutOfMemory>
        ensures reserved { OnOk result
            (string_bytes self.new.reserved ≡ digits_of memory.now.reserved) }
        ensures epc { OnOk result
            (string_bytes self.new.epc ≡ digits_of memory.now.epc) }
        ensures tid { OnOk result
            (string_bytes self.new.tid ≡ digits_of memory.now.tid) }
        ensures user { OnOk result
            (string_bytes self.new.user ≡ digits_of memory.now.user) }
    {
        set_words(&mut self.reserved, memory.bank(Bank::Reserved))?;
        set_words(&mut self.epc, memory.bank(Bank::Epc))?;
        set_words(&mut self.tid, memory.bank(Bank::Tid))?;
        set_words(&mut self.user, memory.bank(Bank::User))
    }
}

/// Makes a text the four hexadecimal digits of a word.
pub(crate) fn set_word(text: &mut String, word: u16) -> Result<(), OutOfMemory>
    ensures { OnOk result (string_bytes text.new ≡ hex_word word) }
{
    text.clear();
    push_word(text, word)
}

/// Makes a text the hexadecimal digits of words, without anything between them: no words are an empty text.
pub(crate) fn set_words(text: &mut String, words: &[u16]) -> Result<(), OutOfMemory>
    ensures { OnOk result (string_bytes text.new ≡ digits_of words.now) }
{
    text.clear();
    if words.is_empty() {
        return Ok(());
    }
    push_words(text, words)
}

/// Makes a text the inventoried flags and SL.
pub(crate) fn set_flags(text: &mut String, flags: &Flags) -> Result<(), OutOfMemory>
    ensures { OnOk result (string_bytes text.new ≡ flags_word flags.now) }
{
    text.clear();
    push_flags(text, flags)
}

/// Makes a text the ten lock bits.
pub(crate) fn set_locks(text: &mut String, locks: &Locks) -> Result<(), OutOfMemory>
    ensures { OnOk result (string_bytes text.new ≡ locks_text locks.now) }
{
    text.clear();
    push_locks(text, locks)
}

/// Makes a text what an operation brought: the words of a Read, the digits of an error code (Annex I), or nothing.
pub(crate) fn set_result(text: &mut String, ended: &OpResult) -> Result<(), OutOfMemory>
    ensures { OnOk result (string_bytes text.new ≡ result_value ended.now) }
{
    match ended {
        OpResult::Ok(words) => set_words(text, words.as_slice()),
        OpResult::TagError(code) => {
            text.clear();
            push_byte_hex(text, *code)
        }
        OpResult::Silent | OpResult::Broken | OpResult::Denied => {
            text.clear();
            Ok(())
        }
    }
}
