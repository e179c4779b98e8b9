//! What was read of a line, as the line that answers it.
ghost use Rattle.std.specs.Prelude.{◌≡◌, [], ◌∷◌, ◌++◌, OnOk};
ghost use Rattle.std.specs.Fmt.{decimal};
ghost use Rattle.std.specs.String.{string_bytes};
ghost use Rattle.text_fields.specs.Binary.{binary};
ghost use Rattle.text_fields.specs.Lines.{line_feed};
ghost use Rattle.decode_lines.specs.Answer.{line_of_answer, StreamAnswer, SamplesAnswer, ReplyAnswer, HeardAnswer, PieAnswer, CommandAnswer, SgtinAnswer, UriAnswer, with_left};

use bit_strings::{Bits, Levels, OutOfMemory};
use command_grammar::{Command, CommandRefusal};
use epc_sgtin::{
    EpcFault, Sgtin, UriFault, push_epc_fault, push_name, push_sgtin_words, push_uri_fault,
};
use pie_line::{FrameKind, PieRefusal};
use pie_text::{push_frame, push_pie_refusal};
use reply_grammar::{Received, Reply, ReplyRefusal};
use reply_wire::LineRefusal;
use sample_slicer::SliceRefusal;
use text_fields::{push_bits, push_number};
use wire_text::{push_command, push_command_refusal, push_reply, push_reply_refusal};

/// Adds a word, which ends with a space, and bits, as a line.
fn push_bits_line(text: &mut String, word: &str, bits: &[bool]) -> Result<(), OutOfMemory>
    ensures { OnOk result (string_bytes text.new ≡ string_bytes text.old
        ++ (word.now ++ binary bits.now ++ line_feed ∷ [])) }
{
    text.push_str(word)?;
    push_bits(text, bits)?;
    text.push_str("\n")
}

/// Adds a word, which ends with a space, and a number, as a line.
fn push_number_line(text: &mut String, word: &str, number: u32) -> Result<(), OutOfMemory>
    ensures { OnOk result (string_bytes text.new ≡ string_bytes text.old
        ++ (word.now ++ decimal number ++ line_feed ∷ [])) }
{
    text.push_str(word)?;
    push_number(text, number)?;
    text.push_str("\n")
}

/// Adds what a line decoder answered, as a line.
pub(crate) fn push_outcome(
    text: &mut String,
    outcome: Result<(), LineRefusal>,
    bits: &Bits,
) -> Result<(), OutOfMemory>
    ensures { OnOk result (string_bytes text.new ≡ string_bytes text.old
        ++ line_of_answer (StreamAnswer (with_left (λ done. bits.now.items) outcome))) }
{
    match outcome {
        Ok(()) => push_bits_line(text, "bits ", bits.as_slice()),
        Err(LineRefusal::Invalid(place)) => push_number_line(text, "invalid ", place),
        Err(LineRefusal::Unfinished(count)) => push_number_line(text, "unfinished ", count),
    }
}

/// Adds what the slicer answered, as a line.
pub(crate) fn push_slicing(
    text: &mut String,
    outcome: Result<(), SliceRefusal>,
    levels: &Levels,
) -> Result<(), OutOfMemory>
    ensures { OnOk result (string_bytes text.new ≡ string_bytes text.old
        ++ line_of_answer (SamplesAnswer (with_left (λ done. levels.now.items) outcome))) }
{
    match outcome {
        Ok(()) => push_bits_line(text, "levels ", levels.as_slice()),
        Err(SliceRefusal::Mixed(place)) => push_number_line(text, "mixed ", place),
        Err(SliceRefusal::Rest(place)) => push_number_line(text, "rest ", place),
    }
}

/// Adds what the reply grammar answered, as a line.
pub(crate) fn push_replied(
    text: &mut String,
    outcome: &Result<Reply, ReplyRefusal>,
) -> Result<(), OutOfMemory>
    ensures { OnOk result (string_bytes text.new ≡ string_bytes text.old
        ++ line_of_answer (ReplyAnswer outcome.now)) }
{
    match outcome {
        Ok(reply) => push_reply(text, reply)?,
        Err(refusal) => push_reply_refusal(text, *refusal)?,
    }
    text.push_str("\n")
}

/// Adds what was received, as a line.
pub(crate) fn push_received(text: &mut String, received: &Received) -> Result<(), OutOfMemory>
    ensures { OnOk result (string_bytes text.new ≡ string_bytes text.old
        ++ line_of_answer (HeardAnswer received.now)) }
{
    match received {
        Received::Whole(reply) => {
            push_reply(text, reply)?;
            text.push_str("\n")
        }
        Received::Refused(place) => push_number_line(text, "refused ", *place),
    }
}

/// Adds what the decoder of frames answered, as a line.
pub(crate) fn push_framed(
    text: &mut String,
    outcome: &Result<FrameKind, PieRefusal>,
    bits: &Bits,
) -> Result<(), OutOfMemory>
    ensures { OnOk result (string_bytes text.new ≡ string_bytes text.old
        ++ line_of_answer (PieAnswer (with_left (λ kind. (kind, bits.now.items)) outcome.now))) }
{
    match outcome {
        Ok(kind) => push_frame(text, kind, bits)?,
        Err(refusal) => push_pie_refusal(text, *refusal)?,
    }
    text.push_str("\n")
}

/// Adds what the decoder of commands answered, as a line.
pub(crate) fn push_commanded(
    text: &mut String,
    outcome: &Result<Command, CommandRefusal>,
) -> Result<(), OutOfMemory>
    ensures { OnOk result (string_bytes text.new ≡ string_bytes text.old
        ++ line_of_answer (CommandAnswer outcome.now)) }
{
    match outcome {
        Ok(command) => push_command(text, command)?,
        Err(refusal) => push_command_refusal(text, *refusal)?,
    }
    text.push_str("\n")
}

/// Adds what words carry, as a line.
pub(crate) fn push_named(
    text: &mut String,
    outcome: &Result<Sgtin, EpcFault>,
) -> Result<(), OutOfMemory>
    ensures { OnOk result (string_bytes text.new ≡ string_bytes text.old
        ++ line_of_answer (SgtinAnswer outcome.now)) }
{
    match outcome {
        Ok(sgtin) => push_name(text, sgtin)?,
        Err(fault) => push_epc_fault(text, *fault)?,
    }
    text.push_str("\n")
}

/// Adds what a URI names, as a line.
pub(crate) fn push_worded(
    text: &mut String,
    outcome: &Result<[u16; 6], UriFault>,
) -> Result<(), OutOfMemory>
    ensures { OnOk result (string_bytes text.new ≡ string_bytes text.old
        ++ line_of_answer (UriAnswer outcome.now)) }
{
    match outcome {
        Ok(words) => push_sgtin_words(text, words)?,
        Err(fault) => push_uri_fault(text, *fault)?,
    }
    text.push_str("\n")
}
