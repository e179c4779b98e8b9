//! The lines of a probe or a log, read one by one.
ghost use Rattle.std.specs.Prelude.{◌≡◌, ◌<◌, ◌≤◌, ◌+◌, ◌↔◌, ◌⊎◌, [], ◌∷◌, length, IfOk, IfErr, IfSome, IfNone, IsOk, IsTrue, IsFalse, Some};
ghost use Rattle.text_fields.specs.Binary.{binary};
ghost use Rattle.text_fields.specs.Lines.{fields_of};
ghost use Rattle.bench_lines.specs.ProbeLineFaults.{AreFaultyBits, AreFaultyEnd, BeginsWithWord, IsFaultyProbeLine};
ghost use Rattle.bench_lines.specs.Stimuli.{probe_line_with};
ghost use Rattle.bench_lines.specs.ProbeLine.{SpellsProbeLine, SpellsTag, line_word, most_line_bits};
ghost use Rattle.scenario_lines.specs.declared.keywords.Keyword.{Keyword};
ghost use Rattle.scenario_lines.specs.Names.{keyword_text};
ghost use Rattle.bench_lines.specs.ProbeText.{BeginsAsTag, HasRoom, IsFaultyBehindTag, IsFaultyTagLine, IsStimulusTooMuch, most_stimuli};

use crate::events::read_event;
use crate::probe_laws::line_laws;
use crate::probe_line::{LineWord, SaidLine, SaidStimulus};
use checked_lines::{FaultReason, FaultyLine};
use command_grammar::Command;
use scenario_lines::{TagText, read_tag};
use text_fields::{Digits, Fields, FieldsFault, is_at_end, one_field};
use wire_text::read_command_to;

/// How many bits a `bits` line of a probe may have.
pub(crate) const MOST_BITS: u32 = 8_240;

/// How many lines of a probe may stand between that of the tag and the end.
const MOST_STIMULI: u32 = 70_000;

/// The number of the first line of a probe or a log behind that of the tag, counted from 1.
pub(crate) const FIRST_NUMBER: u32 = 3;

/// A fault of the line that stands behind that of the tag and so many more.
pub(crate) fn fault_behind(count: u32, reason: FaultReason) -> FaultyLine
    requires { count ≤ 70001 }
    ensures { result ≡ record { line = 3 + count; reason = reason } }
{
    FaultyLine {
        line: FIRST_NUMBER + count,
        reason,
    }
}

/// The word of this name.
fn word_named(field: &[u8]) -> Option<LineWord>
    ensures value { IfSome result (λ word. field.now ≡ line_word word) }
    ensures only { (word : LineWord) → field.now ≡ line_word word → result ≡ Some word }
{
    if field == b"bits".as_slice() {
        Some(LineWord::Bits)
    } else if field == b"event".as_slice() {
        Some(LineWord::Event)
    } else if field == b"end".as_slice() {
        Some(LineWord::End)
    } else {
        None
    }
}

/// The word that a line begins with, and the fields behind it; none exactly where it begins with none of the words.
fn split_word(line: &[u8]) -> Option<(LineWord, Fields<'_>)>
    ensures some { IfSome result (λ it. fields_of line.now ≡ line_word it.0 ∷ it.1) }
    ensures none { IfNone result ((word : LineWord) → ¬ BeginsWithWord (fields_of line.now) word) }
{
    let mut others = Fields::new(line);
    let word = word_named(others.next()?)?;
    Some((word, others))
}

/// The bits that the fields behind `bits` spell.
fn read_bits<'a>(others: Fields<'a>) -> Result<Digits<'a>, FieldsFault>
    ensures ok { IfOk result
        (λ bits. (others.entry ≡ binary bits ∷ []) × (length bits ≤ most_line_bits)) }
    ensures refused { IfErr result (AreFaultyBits others.entry) }
{
    let Some(field) = one_field(others) else {
        return Err(FieldsFault::Shape);
    };
    match Digits::new(field, MOST_BITS) {
        Some(bits) => Ok(bits),
        None => Err(FieldsFault::Number),
    }
}

/// Whether nothing stands behind `end`.
fn read_end(others: Fields) -> Result<(), FieldsFault>
    ensures ok { IsOk result ↔ (others.entry ≡ []) }
    ensures refused { IfErr result (AreFaultyEnd others.entry) }
{
    if is_at_end(others) {
        Ok(())
    } else {
        Err(FieldsFault::Shape)
    }
}

/// What a line says that stands behind that of the tag, and is given without its line feed. A command takes the place of another.
///
/// # Errors
///
/// The first reason for which it says nothing, whatever stands before it.
pub(crate) fn read_probe_line<'a>(
    line: &'a [u8],
    command: &mut Command,
) -> Result<SaidLine<'a>, FieldsFault>
    ensures ok { IfOk result
        (λ said. SpellsProbeLine (fields_of line.now) (probe_line_with said command.new)) }
    ensures refused { IfErr result (IsFaultyProbeLine (fields_of line.now)) }
{
    match split_word(line) {
        Some((LineWord::Bits, others)) => {
            Ok(SaidLine::Stimulus(SaidStimulus::Bits(read_bits(others)?)))
        }
        Some((LineWord::Event, others)) => {
            Ok(SaidLine::Stimulus(SaidStimulus::Event(read_event(others)?)))
        }
        Some((LineWord::End, others)) => {
            read_end(others)?;
            Ok(SaidLine::End)
        }
        None => {
            read_command_to(Fields::new(line), command)?;
            Ok(SaidLine::Stimulus(SaidStimulus::Command))
        }
    }
}

/// Whether a line begins with `end`.
#[tactic(auto, using(crate::proofs::FaultyLines::no_ends))]
fn begins_with_end(line: &[u8]) -> bool
    ensures yes { IsTrue result → BeginsWithWord (fields_of line.now) LineWord.End }
    ensures no { IsFalse result → ¬ BeginsWithWord (fields_of line.now) LineWord.End }
{
    match split_word(line) {
        Some((LineWord::End, _)) => true,
        Some((LineWord::Bits, _)) => false,
        Some((LineWord::Event, _)) => false,
        None => false,
    }
}

/// Whether a line is one too many behind so many.
fn is_too_much(line: &[u8], count: u32) -> bool
    ensures yes { IsTrue result → IsStimulusTooMuch count (fields_of line.now) }
    ensures no { IsFalse result → (count < most_stimuli)
        ⊎ BeginsWithWord (fields_of line.now) LineWord.End }
{
    if count < MOST_STIMULI {
        return false;
    }
    !begins_with_end(line)
}

/// What a line says that stands behind that of the tag and so many more, and is given without its line feed. A command takes the place of
/// another.
///
/// # Errors
///
/// The first reason for which it may not stand there.
#[tactic(auto, using(crate::proofs::FaultyLines::one_too_many))]
pub(crate) fn read_behind<'a>(
    line: &'a [u8],
    count: u32,
    command: &mut Command,
) -> Result<SaidLine<'a>, FaultReason>
    ensures ok { IfOk result
        (λ said. SpellsProbeLine (fields_of line.now) (probe_line_with said command.new)
        × HasRoom count (probe_line_with said command.new)) }
    ensures refused { IfErr result (IsFaultyBehindTag count (fields_of line.now)) }
{
    // By these laws a line says something or is faulty for one reason.
    line_laws();
    match read_probe_line(line, command) {
        Err(FieldsFault::Word) => Err(FaultReason::Word),
        Err(FieldsFault::Shape) => {
            if is_too_much(line, count) {
                return Err(FaultReason::Limit);
            }
            Err(FaultReason::Shape)
        }
        Err(FieldsFault::Number) => {
            if is_too_much(line, count) {
                return Err(FaultReason::Limit);
            }
            Err(FaultReason::Number)
        }
        Ok(SaidLine::Stimulus(stimulus)) => {
            if count >= MOST_STIMULI {
                return Err(FaultReason::Limit);
            }
            Ok(SaidLine::Stimulus(stimulus))
        }
        Ok(SaidLine::End) => Ok(SaidLine::End),
    }
}

/// Whether a field is `tag`.
fn is_tag(field: &[u8]) -> bool
    ensures { IsTrue result ↔ (field.now ≡ keyword_text Keyword.Tag) }
{
    field == b"tag".as_slice()
}

/// The fields behind `tag`; none exactly where a line begins with another.
fn behind_tag(line: &[u8]) -> Option<Fields<'_>>
    ensures some { IfSome result (λ it. fields_of line.now ≡ keyword_text Keyword.Tag ∷ it) }
    ensures none { IfNone result (¬ BeginsAsTag (fields_of line.now)) }
{
    let mut others = Fields::new(line);
    if is_tag(others.next()?) {
        Some(others)
    } else {
        None
    }
}

/// The tag that the second line says, which is given without its line feed.
///
/// # Errors
///
/// The first reason for which it says none.
pub(crate) fn read_tag_line(line: &[u8]) -> Result<TagText<'_>, FaultReason>
    ensures ok { IfOk result (SpellsTag (fields_of line.now)) }
    ensures refused { IfErr result (IsFaultyTagLine (fields_of line.now)) }
{
    let Some(others) = behind_tag(line) else {
        return Err(FaultReason::Word);
    };
    read_tag(others)
}
