//! The lines that tell of a tag at the bench, written. After an error the text may hold a part of the line.
ghost use Rattle.std.specs.Prelude.{◌≡◌, ◌++◌, [], ◌∷◌, codes, OnOk, Option};
ghost use Rattle.std.specs.String.{string_bytes};
ghost use Rattle.std.specs.Fmt.{decimal};
ghost use Rattle.text_fields.specs.Lines.{fields_behind, line_feed, line_with, space};
ghost use Rattle.wire_text.specs.ReplyText.{reply_line};
ghost use Rattle.tag_machine.specs.Answers.{Sent};
ghost use Rattle.tag_machine.specs.Hearing.{tag_value_of};
ghost use Rattle.bench_lines.specs.ProbeAnswers.{probe_answer_line};
ghost use Rattle.bench_lines.specs.StateLine.{cover_word, half_word, number_fields, password_word, state_line};
ghost use Rattle.bench_lines.specs.UnreadAnswers.{IsHeardAnswer};

use bit_strings::{Bits, OutOfMemory};
use reply_grammar::{Expect, Reply};
use report_lines::{push_next_flags, push_next_state};
use tag_machine::{Answered, AnyTag, Half, Held, Password, StateNumbers, expected_reply_to};
use text_fields::{push_named_number, push_next_name, push_next_number, push_next_word, push_word};
use wire_text::push_reply;

/// Writes that no answer came to the line of this number.
pub(crate) fn push_silence(text: &mut String, number: u32) -> Result<(), OutOfMemory>
    ensures { OnOk result (string_bytes text.new ≡ string_bytes text.old
        ++ (line_with (codes "answer" ∷ decimal number ∷ codes "-" ∷ []) ++ line_feed ∷ [])) }
{
    push_named_number(text, "answer", number)?;
    text.push_str(" -\n")
}

/// Writes the reply that came to the line of this number, behind the word of its preamble.
fn push_sent(
    text: &mut String,
    number: u32,
    preamble: &str,
    reply: &Reply,
) -> Result<(), OutOfMemory>
    ensures { OnOk result (string_bytes text.new ≡ string_bytes text.old
        ++ (line_with (codes "answer" ∷ decimal number ∷ preamble.now ∷ reply_line reply.now ∷ [])
        ++ line_feed ∷ [])) }
{
    push_named_number(text, "answer", number)?;
    push_next_name(text, preamble)?;
    text.push(' ')?;
    push_reply(text, reply)?;
    text.push('\n')
}

/// Writes what the tag answered to the line of this number: with the Query's TRext, with the extended preamble, or not at all. An
/// answer is the reply that its bits are, by what is expected; the room for it is lent.
pub(crate) fn push_answer_line(
    text: &mut String,
    number: u32,
    answered: Answered,
    bits: &Bits,
    expect: &Option<Expect>,
    reply: &mut Reply,
) -> Result<(), OutOfMemory>
    requires { (answer : Option Sent) × IsHeardAnswer answer answered expect.now bits.now.items }
    ensures { (answer : Option Sent) → IsHeardAnswer answer answered expect.now bits.now.items
        → OnOk result (string_bytes text.new ≡ string_bytes text.old
        ++ (probe_answer_line number answer ++ line_feed ∷ [])) }
{
    match answered {
        Answered::Silent => push_silence(text, number),
        Answered::Plain => {
            expected_reply_to(bits, expect, reply);
            push_sent(text, number, "plain", reply)
        }
        Answered::Extended => {
            expected_reply_to(bits, expect, reply);
            push_sent(text, number, "extended", reply)
        }
    }
}

/// Writes a cover, or a hyphen for none, as the next field.
fn push_next_cover(text: &mut String, cover: Option<u16>) -> Result<(), OutOfMemory>
    ensures { OnOk result (string_bytes text.new ≡ string_bytes text.old
        ++ space ∷ cover_word cover) }
{
    match cover {
        Some(cover) => push_next_word(text, cover),
        None => text.push_str(" -"),
    }
}

/// The front of the field of a first half.
fn password_name(password: Password) -> &'static str
    ensures { result.now ≡ password_word password }
{
    match password {
        Password::Kill => "kill-",
        Password::Access => "access-",
    }
}

/// Writes the first half of a password, or a hyphen for none, as the next field.
fn push_next_half(text: &mut String, half: Option<Half>) -> Result<(), OutOfMemory>
    ensures { OnOk result (string_bytes text.new ≡ string_bytes text.old
        ++ space ∷ half_word half) }
{
    let Some(half) = half else {
        return text.push_str(" -");
    };
    push_next_name(text, password_name(half.password))?;
    push_word(text, half.value)
}

/// Writes what a tag in open or secured holds as the next fields.
fn push_next_held(text: &mut String, held: &Held) -> Result<(), OutOfMemory>
    ensures { OnOk result (string_bytes text.new ≡ string_bytes text.old
        ++ fields_behind (number_fields (StateNumbers.Held held.now))) }
{
    push_next_number(text, u32::from(held.session.get()))?;
    push_next_number(text, u32::from(held.q.get()))?;
    push_next_word(text, held.handle)?;
    push_next_cover(text, held.cover)?;
    push_next_half(text, held.half)
}

/// Writes the numbers of a state as the next fields.
fn push_next_state_numbers(text: &mut String, numbers: StateNumbers) -> Result<(), OutOfMemory>
    ensures { OnOk result (string_bytes text.new ≡ string_bytes text.old
        ++ fields_behind (number_fields numbers)) }
{
    match numbers {
        StateNumbers::None => Ok(()),
        StateNumbers::Waiting { session, q, slot } => {
            push_next_number(text, u32::from(session.get()))?;
            push_next_number(text, u32::from(q.get()))?;
            push_next_number(text, u32::from(slot))
        }
        StateNumbers::Replied { session, q, rn } => {
            push_next_number(text, u32::from(session.get()))?;
            push_next_number(text, u32::from(q.get()))?;
            push_next_word(text, rn)
        }
        StateNumbers::Held(held) => push_next_held(text, &held),
    }
}

/// Writes what the tag is behind the line of this number: its state, its flags, and the numbers of the state.
pub(crate) fn push_state_line(
    text: &mut String,
    number: u32,
    tag: &AnyTag,
) -> Result<(), OutOfMemory>
    ensures { OnOk result (string_bytes text.new ≡ string_bytes text.old
        ++ (state_line number (tag_value_of tag.now) ++ line_feed ∷ [])) }
{
    push_named_number(text, "state", number)?;
    push_next_state(text, tag.state())?;
    push_next_flags(text, tag.flags())?;
    push_next_state_numbers(text, tag.numbers())?;
    text.push('\n')
}
