//! The line that says what is judged of a log, written. After an error the text may hold a part of it.
ghost use Rattle.std.specs.Prelude.{◌≡◌, ◌++◌, [], ◌∷◌, OnOk};
ghost use Rattle.std.specs.String.{string_bytes};
ghost use Rattle.log_judge.specs.Answers.{seen_in, verdict_in, want_in};
ghost use Rattle.text_fields.specs.Lines.{fields_behind, line_feed};
ghost use Rattle.bench_lines.specs.SeenLine.{seen_fields};
ghost use Rattle.bench_lines.specs.VerdictLine.{failure_line, line_of_verdict, want_fields};

use bit_strings::OutOfMemory;
use log_judge::{Answer, Verdict, Want};
use tag_machine::Answered;
use text_fields::push_named_number;
use wire_text::push_reply;

/// Writes what a tag sends in answer as the next fields, as an answer line has them behind its first.
fn push_next_answer(text: &mut String, answer: &Answer) -> Result<(), OutOfMemory>
    ensures { OnOk result (string_bytes text.new ≡ string_bytes text.old
        ++ fields_behind (seen_fields (seen_in answer.now))) }
{
    match answer.answered {
        Answered::Silent => text.push_str(" -"),
        Answered::Plain => {
            text.push_str(" plain ")?;
            push_reply(text, &answer.reply)
        }
        Answered::Extended => {
            text.push_str(" extended ")?;
            push_reply(text, &answer.reply)
        }
    }
}

/// Writes what a tag had to answer as the next fields: a number that it draws is a star.
fn push_next_want(text: &mut String, want: &Want) -> Result<(), OutOfMemory>
    ensures { OnOk result (string_bytes text.new ≡ string_bytes text.old
        ++ fields_behind (want_fields (want_in want.now))) }
{
    match want {
        Want::Exactly(answer) => push_next_answer(text, answer),
        Want::AnyRn16 => text.push_str(" plain rn16 *"),
        Want::AnyHandle => text.push_str(" plain handle *"),
        Want::NothingOrAnyRn16 => text.push_str(" - or plain rn16 *"),
    }
}

/// Writes at which line a log fails, and what had to be answered there, as one line.
fn push_failure(text: &mut String, word: &str, number: u32, want: &Want) -> Result<(), OutOfMemory>
    ensures { OnOk result (string_bytes text.new ≡ string_bytes text.old
        ++ (failure_line word.now number (want_in want.now) ++ line_feed ∷ [])) }
{
    push_named_number(text, word, number)?;
    push_next_want(text, want)?;
    text.push('\n')
}

/// Writes what is judged of a log, as one line.
pub fn push_verdict(text: &mut String, verdict: &Verdict) -> Result<(), OutOfMemory>
    ensures { OnOk result (string_bytes text.new ≡ string_bytes text.old
        ++ line_of_verdict (verdict_in verdict.now)) }
{
    match verdict {
        Verdict::Yes => text.push_str("yes\n"),
        Verdict::Profile { number, want } => push_failure(text, "profile", *number, want),
        Verdict::No { number, want } => push_failure(text, "no", *number, want),
    }
}
