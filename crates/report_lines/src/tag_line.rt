//! Tag lines of a report, written.
ghost use Rattle.std.specs.Prelude.{◌≡◌, ◌++◌, [], ◌∷◌, codes, OnOk};
ghost use Rattle.std.specs.String.{string_bytes};
ghost use Rattle.std.specs.Fmt.{decimal};
ghost use Rattle.text_fields.specs.Hexadecimal.{hex_words};
ghost use Rattle.text_fields.specs.Lines.{line_with, space};
ghost use Rattle.wire_text.specs.PasswordsAndLocks.{locks_text};
ghost use Rattle.tag_machine.specs.Hearing.{tag_value_of};
ghost use Rattle.report_lines.specs.ReportLine.{TagLine, flags_word, report_line_text, state_word};

use crate::line_writing::end_line;
use bit_strings::OutOfMemory;
use command_grammar::Bank;
use lock_rules::Locks;
use session_flags::Flags;
use tag_machine::{AnyTag, StateName};
use tag_memory::Memory;
use text_fields::{push_next_name, push_next_number, push_next_words};
use wire_text::{push_locks, side_letter};

/// The name of a state (6.3.2.4 Tag states and slot counter); that of a tag without power is profile.
pub(crate) fn state_text(state: StateName) -> &'static str
    ensures { result.now ≡ state_word state }
{
    match state {
        StateName::Ready => "ready",
        StateName::Arbitrate => "arbitrate",
        StateName::InReply => "reply",
        StateName::Acknowledged => "acknowledged",
        StateName::Opened => "open",
        StateName::Secured => "secured",
        StateName::Killed => "killed",
        StateName::Unpowered => "off",
    }
}

/// Writes the name of a state as the next field. After an error the text may hold a part of it.
pub fn push_next_state(text: &mut String, state: StateName) -> Result<(), OutOfMemory>
    ensures { OnOk result (string_bytes text.new ≡ string_bytes text.old
        ++ space ∷ state_word state) }
{
    push_next_name(text, state_text(state))
}

/// Writes the inventoried flags of S0 to S3 and the selected flag.
pub(crate) fn push_flags(text: &mut String, flags: &Flags) -> Result<(), OutOfMemory>
    ensures { OnOk result (string_bytes text.new ≡ string_bytes text.old ++ flags_word flags.now) }
{
    text.push_str(side_letter(flags.s0))?;
    text.push_str(side_letter(flags.s1))?;
    text.push_str(side_letter(flags.s2))?;
    text.push_str(side_letter(flags.s3))?;
    text.push(if flags.sl { '1' } else { '0' })
}

/// Writes the flags as the next field. After an error the text may hold a part of them.
pub fn push_next_flags(text: &mut String, flags: &Flags) -> Result<(), OutOfMemory>
    ensures { OnOk result (string_bytes text.new ≡ string_bytes text.old
        ++ space ∷ flags_word flags.now) }
{
    text.push(' ')?;
    push_flags(text, flags)
}

/// Writes the ten lock bits as the next field.
fn next_locks(text: &mut String, locks: &Locks) -> Result<(), OutOfMemory>
    ensures { OnOk result (string_bytes text.new ≡ string_bytes text.old
        ++ space ∷ locks_text locks.now) }
{
    text.push_str(" ")?;
    push_locks(text, locks)
}

/// Writes the four banks as the next fields.
fn next_banks(text: &mut String, memory: &Memory) -> Result<(), OutOfMemory>
    ensures { OnOk result (string_bytes text.new ≡ string_bytes text.old
        ++ space ∷ line_with
        (hex_words memory.now.reserved ∷ hex_words memory.now.epc ∷ hex_words
        memory.now.tid ∷ hex_words memory.now.user ∷ [])) }
{
    push_next_words(text, memory.bank(Bank::Reserved))?;
    push_next_words(text, memory.bank(Bank::Epc))?;
    push_next_words(text, memory.bank(Bank::Tid))?;
    push_next_words(text, memory.bank(Bank::User))
}

/// Writes `tag` with the number of a tag, its state, its flags and its locks.
fn push_standing(
    text: &mut String,
    number: u32,
    state: StateName,
    flags: &Flags,
    locks: &Locks,
) -> Result<(), OutOfMemory>
    ensures { OnOk result (string_bytes text.new ≡ string_bytes text.old
        ++ line_with (codes "tag" ∷ decimal number ∷ state_word state ∷ flags_word flags.now
        ∷ locks_text locks.now ∷ [])) }
{
    text.push_str("tag")?;
    push_next_number(text, number)?;
    push_next_state(text, state)?;
    push_next_flags(text, flags)?;
    next_locks(text, locks)
}

/// Writes `tag K STATE FLAGS LOCKS RES EPC TID USER`: what the tag of this number is.
pub fn push_tag_line(text: &mut String, number: u32, tag: &AnyTag) -> Result<(), OutOfMemory>
    ensures { OnOk result (string_bytes text.new ≡ string_bytes text.old
        ++ report_line_text (TagLine number (tag_value_of tag.now))) }
{
    push_standing(text, number, tag.state(), tag.flags(), tag.locks())?;
    next_banks(text, tag.memory())?;
    end_line(text)
}
