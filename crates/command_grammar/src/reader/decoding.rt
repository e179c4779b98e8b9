//! A list of bits to a command.
ghost use Rattle.std.specs.Prelude.{◌≡◌, Ok};
ghost use Rattle.command_grammar.specs.Commands.{IsFinishAnswer, SpellsCommand};
ghost use Rattle.command_grammar.specs.declared.commands.Command.{Command};

use crate::commands::Command;
use crate::reader::framer::Framer;
use crate::refusal::CommandRefusal;

/// Puts in place of another answer the command that these bits are, or why they are none. The Framer that reads them is lent, and
/// begins anew. Nothing is copied, as both have room for the longest mask and the longest list of words.
pub fn decode_command_to(
    bits: &[bool],
    framer: &mut Framer,
    answer: &mut Result<Command, CommandRefusal>,
)
    ensures answer { IsFinishAnswer answer.new bits.now }
    ensures only { (command : Command) → SpellsCommand command bits.now → answer.new ≡ Ok command }
{
    framer.begin();
    for bit in bits {
        framer.push(*bit);
    }
    framer.finish_to(answer);
}
