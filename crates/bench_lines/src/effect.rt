//! What a line does to the tag.
ghost use Rattle.std.specs.Prelude.{◌≡◌, ◌≤◌, length};
ghost use Rattle.bench_lines.specs.Stimuli.{Does, SendsBits, effect_with, stimulus_with};
ghost use Rattle.bench_lines.specs.ProbeAnswers.{HasEffect};
ghost use Rattle.bench_lines.specs.ProbeLine.{IsProbeLine, most_line_bits};

use crate::probe_line::SaidStimulus;
use air_events::Event;
use bit_strings::Bits;
use command_grammar::{Command, CommandRefusal, Framer, decode_command_to};
use text_fields::Digits;

/// What a line does to the tag, where a command that it hears stands in the room that was lent.
#[derive(Drop)]
pub(crate) enum SaidEffect {
    /// It hears the command that stands in the room.
    Hears,
    /// This befalls it.
    Befalls(Event),
    /// Nothing: it hears no command.
    Nothing,
}

/// What is done to the tag by bits that are sent: it hears the command that they spell, which takes the place of another, and none where
/// the last of them leaves a command unfinished, or some bit fits none. The room for bits is lent.
fn effect_of_bits(digits: Digits<'_>, bits: &mut Bits, command: &mut Command) -> SaidEffect
    requires short { length digits ≤ most_line_bits }
    requires room { most_line_bits ≤ bits.old.capacity }
    ensures effect { HasEffect (SendsBits digits.entry) (effect_with result command.new) }
    ensures capacity { bits.new.capacity ≡ bits.old.capacity }
{
    digits.copy_to(bits);
    // What no bits are.
    let mut spelled = Err(CommandRefusal::Short(0));
    let mut framer = Framer::new();
    decode_command_to(bits.as_slice(), &mut framer, &mut spelled);
    match spelled {
        Ok(it) => {
            *command = it;
            SaidEffect::Hears
        }
        Err(_) => SaidEffect::Nothing,
    }
}

/// What is done to the tag, where bits are looked at. The room has the command that is sent, and then the one that the tag hears; the room
/// for bits is lent.
pub(crate) fn effect_of(
    stimulus: SaidStimulus<'_>,
    bits: &mut Bits,
    command: &mut Command,
) -> SaidEffect
    requires legal { IsProbeLine (Does (stimulus_with stimulus command.old)) }
    requires room { most_line_bits ≤ bits.old.capacity }
    ensures effect { HasEffect (stimulus_with stimulus.entry command.old)
        (effect_with result command.new) }
    ensures capacity { bits.new.capacity ≡ bits.old.capacity }
{
    match stimulus {
        SaidStimulus::Command => SaidEffect::Hears,
        SaidStimulus::Bits(digits) => effect_of_bits(digits, bits, command),
        SaidStimulus::Event(event) => SaidEffect::Befalls(event),
    }
}
