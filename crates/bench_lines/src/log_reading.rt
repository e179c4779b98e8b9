//! The lines of a log behind that of the tag, read one by one.
ghost use Rattle.std.specs.Prelude.{◌<◌, ◌≤◌, ℕ, IfErr, IfNone, IfOk, IfSome, IsFalse, IsOk, IsTrue};
ghost use Rattle.log_judge.specs.Answers.{seen_in};
ghost use Rattle.bench_lines.specs.ProbeLine.{SpellsProbeLine};
ghost use Rattle.bench_lines.specs.ProbeText.{HasRoom, most_stimuli};
ghost use Rattle.bench_lines.specs.Stimuli.{probe_line_with};
ghost use Rattle.text_fields.specs.Lines.{fields_of};
ghost use Rattle.bench_lines.specs.LogText.{IsFaultyNext, IsFaultySeen};
ghost use Rattle.bench_lines.specs.SeenLine.{BeginsAsAnswer, SpellSeen};

use crate::bench_reading::{read_behind, read_probe_line};
use crate::log_laws::seen_laws;
use crate::probe_laws::line_laws;
use crate::probe_line::SaidLine;
use crate::seen_fields::{behind_answer, read_answer_to};
use checked_lines::FaultReason;
use command_grammar::Command;
use log_judge::Answer;
use text_fields::FieldsFault;

/// How many lines of a log may stand between that of the tag and the end.
const MOST_LINES: u32 = 70_000;

/// Whether a log has as many lines behind that of the tag as it may have.
fn is_full(count: u32) -> bool
    ensures yes { IsTrue result → most_stimuli ≤ count }
    ensures no { IsFalse result → count < most_stimuli }
{
    count >= MOST_LINES
}

/// The first reason for which a line is faulty that begins as an answer and stands where none may; none exactly where it doesn't begin so.
fn misplaced_answer(line: &[u8]) -> Option<FaultReason>
    ensures some { IfSome result
        (λ fault. (count : ℕ) → IsFaultyNext count (fields_of line.now) fault) }
    ensures none { IfNone result (¬ BeginsAsAnswer (fields_of line.now)) }
{
    // By these laws an answer is faulty for one reason.
    seen_laws();
    let others = behind_answer(line)?;
    let mut answer = Answer::none();
    match read_answer_to(others, &mut answer) {
        Err(FieldsFault::Word) => Some(FaultReason::Word),
        Err(FieldsFault::Shape) => Some(FaultReason::Order),
        Err(FieldsFault::Number) => Some(FaultReason::Order),
        Ok(()) => Some(FaultReason::Order),
    }
}

/// The first reason for which a line is faulty that doesn't begin as an answer and stands where one has to.
fn missed_answer(line: &[u8]) -> FaultReason
    requires { ¬ BeginsAsAnswer (fields_of line.now) }
    ensures { (count : ℕ) → IsFaultySeen count (fields_of line.now) result }
{
    // By these laws a line says something or is faulty for one reason.
    line_laws();
    let mut command = Command::Nak;
    match read_probe_line(line, &mut command) {
        Err(FieldsFault::Word) => FaultReason::Word,
        Err(FieldsFault::Shape) => FaultReason::Order,
        Err(FieldsFault::Number) => FaultReason::Order,
        Ok(_) => FaultReason::Order,
    }
}

/// What a line says that stands behind that of the tag and so many more, where no answer is awaited, and is given without its line feed. A
/// command takes the place of another.
///
/// # Errors
///
/// The first reason for which it may not stand there.
pub(crate) fn read_next<'a>(
    line: &'a [u8],
    count: u32,
    command: &mut Command,
) -> Result<SaidLine<'a>, FaultReason>
    ensures ok { IfOk result
        (λ said. (¬ BeginsAsAnswer (fields_of line.now))
        × SpellsProbeLine (fields_of line.now) (probe_line_with said command.new)
        × HasRoom count (probe_line_with said command.new)) }
    ensures refused { IfErr result (IsFaultyNext count (fields_of line.now)) }
{
    if let Some(fault) = misplaced_answer(line) {
        return Err(fault);
    }
    read_behind(line, count, command)
}

/// What a line says the tag was seen to answer, which stands right behind a command or bits, and behind the line of the tag and so many in
/// all. It takes the place of another answer.
///
/// # Errors
///
/// The first reason for which it may not stand there.
pub(crate) fn read_seen(line: &[u8], count: u32, answer: &mut Answer) -> Result<(), FaultReason>
    ensures ok { IsOk result → (begins : BeginsAsAnswer (fields_of line.now))
        × SpellSeen begins.others (seen_in answer.new) × (count < most_stimuli) }
    ensures refused { IfErr result (IsFaultySeen count (fields_of line.now)) }
{
    // By these laws an answer is faulty for one reason.
    seen_laws();
    let Some(others) = behind_answer(line) else {
        return Err(missed_answer(line));
    };
    match read_answer_to(others, answer) {
        Err(FieldsFault::Word) => Err(FaultReason::Word),
        Err(FieldsFault::Shape) => {
            if is_full(count) {
                return Err(FaultReason::Limit);
            }
            Err(FaultReason::Shape)
        }
        Err(FieldsFault::Number) => {
            if is_full(count) {
                return Err(FaultReason::Limit);
            }
            Err(FaultReason::Number)
        }
        Ok(()) => {
            if is_full(count) {
                return Err(FaultReason::Limit);
            }
            Ok(())
        }
    }
}
