//! What a tag was seen to answer, read from the fields of a line.
ghost use Rattle.std.specs.Prelude.{◌≡◌, ◌↔◌, ◌∷◌, IfErr, IfNone, IfSome, IsOk, IsTrue, Some};
ghost use Rattle.log_judge.specs.Answers.{seen_in};
ghost use Rattle.tag_machine.specs.declared.any_tag.Answered.{Answered};
ghost use Rattle.text_fields.specs.Lines.{fields_of};
ghost use Rattle.bench_lines.specs.SeenLine.{AreFaultySeen, BeginsAsAnswer, SpellSeen, answer_word, seen_mark_word};

use log_judge::Answer;
use tag_machine::Answered;
use text_fields::{Fields, FieldsFault, is_at_end};
use wire_text::read_reply;

/// What stands behind `answer`: a hyphen where the tag sent nothing, and else which preamble its reply had.
fn mark_named(field: &[u8]) -> Option<Answered>
    ensures value { IfSome result (λ mark. field.now ≡ seen_mark_word mark) }
    ensures only { (mark : Answered) → field.now ≡ seen_mark_word mark → result ≡ Some mark }
{
    if field == b"-".as_slice() {
        Some(Answered::Silent)
    } else if field == b"plain".as_slice() {
        Some(Answered::Plain)
    } else if field == b"extended".as_slice() {
        Some(Answered::Extended)
    } else {
        None
    }
}

/// Whether a field is `answer`.
fn is_answer(field: &[u8]) -> bool
    ensures { IsTrue result ↔ (field.now ≡ answer_word) }
{
    field == b"answer".as_slice()
}

/// The fields behind `answer`; none exactly where a line begins with another.
pub(crate) fn behind_answer(line: &[u8]) -> Option<Fields<'_>>
    ensures some { IfSome result (λ it. fields_of line.now ≡ answer_word ∷ it) }
    ensures none { IfNone result (¬ BeginsAsAnswer (fields_of line.now)) }
{
    let mut others = Fields::new(line);
    if is_answer(others.next()?) {
        Some(others)
    } else {
        None
    }
}

/// The answer that the fields behind `answer` say takes the place of another.
///
/// # Errors
///
/// The first reason for which they say none. The answer means nothing then.
pub(crate) fn read_answer_to(mut others: Fields, answer: &mut Answer) -> Result<(), FieldsFault>
    ensures ok { IsOk result → SpellSeen others.entry (seen_in answer.new) }
    ensures refused { IfErr result (AreFaultySeen others.entry) }
{
    let Some(mark) = others.next() else {
        return Err(FieldsFault::Shape);
    };
    let Some(answered) = mark_named(mark) else {
        return Err(FieldsFault::Word);
    };
    if answered == Answered::Silent {
        answer.answered = answered;
        return if is_at_end(others) {
            Ok(())
        } else {
            Err(FieldsFault::Shape)
        };
    }
    let reply = read_reply(others)?;
    *answer = Answer { answered, reply };
    Ok(())
}
