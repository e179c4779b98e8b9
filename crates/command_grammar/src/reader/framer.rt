//! Bits, one at a time, to a command.
ghost use Rattle.std.specs.Prelude.{◌≡◌, ◌++◌, ◌∷◌, [], ℕ, List, Bool, Ok, Some};
ghost use Rattle.command_grammar.specs.Commands.{Judges, IsFinishAnswer, SpellsCommand};
ghost use Rattle.command_grammar.specs.reading.Framing.{FramerStandsFor, refusal_in, FramerValue, IsOpen};
ghost use Rattle.command_grammar.specs.declared.commands.Command.{Command};
ghost use Rattle.command_grammar.specs.declared.refusal.Pushed.TheVariants.{Bad};
ghost use Rattle.command_grammar.specs.declared.refusal.Reason.{Reason};

use crate::commands::Command;
use crate::reader::command_in_progress::State;
use crate::refusal::{CommandRefusal, Pushed, Reason};
use std::marker::Model;

/// Finds the end of a command in bits that come one at a time, and what the command is.
///
/// A contract says which list of bits it stands for. It keeps the field that it is in with the bits
/// read of it, the values of the fields before, and behind the command code the check number so far;
/// no bits but those of a mask and of words. The bits of a number go into the check number once all
/// of them are read, so that little is done at most bits.
#[derive(Drop)]
pub struct Framer {
    /// How many bits were read.
    pushed: u32,
    state: State,
    refused: Option<(u32, Reason)>,
}

impl Model for Framer {
    ghost Value = { FramerValue };

    ghost view = { λ a. record { state = a.state; pushed = a.pushed; refused = a.refused } };

    ghost invariant = { λ a. IsOpen a.state a.pushed a.refused };
}

impl Framer {
    /// A framer that was given no bit of a command.
    pub fn new() -> Framer
        ensures { FramerStandsFor result [] }
    {
        Framer {
            pushed: 0,
            state: State::new(),
            refused: None,
        }
    }

    /// Stands for no bits from now on, whatever it stood for.
    pub fn begin(&mut self)
        ensures { FramerStandsFor self.new [] }
    {
        self.state.begin_anew();
        self.pushed = 0;
        self.refused = None;
    }

    /// Takes one bit more, and says what the bits now are. After a refusal each push answers the same.
    #[inline(always)]
    pub fn push(&mut self, bit: bool) -> Pushed
        ensures stands { (bits : List Bool) → FramerStandsFor self.old bits
            → FramerStandsFor self.new (bits ++ bit ∷ []) }
        ensures judges { (bits : List Bool) → FramerStandsFor self.old bits
            → Judges result (bits ++ bit ∷ []) }
        ensures remembers { self.new.refused ≡ refusal_in result }
        ensures same { (place : ℕ) (reason : Reason) → self.old.refused ≡ Some (place, reason)
            → result ≡ Bad place reason }
    {
        if self.state.take_digit(bit) {
            self.pushed += 1;
            return Pushed::More;
        }
        if self.state.take_inside(bit) {
            self.pushed += 1;
            return self.state.judge();
        }
        match self.refused {
            Some((place, reason)) => Pushed::Bad(place, reason),
            None => {
                let place = self.pushed;
                self.pushed += 1;
                match self.state.take_edge(bit) {
                    None => self.state.judge(),
                    Some(reason) => {
                        self.state.stop();
                        self.refused = Some((place, reason));
                        Pushed::Bad(place, reason)
                    }
                }
            }
        }
    }

    /// The command that the bits are, the refusal, or `Short` where they only begin a command.
    pub fn finish(mut self) -> Result<Command, CommandRefusal>
        ensures finishes { (bits : List Bool) → FramerStandsFor self bits
            → IsFinishAnswer result bits }
        ensures only { (bits : List Bool) (command : Command) → FramerStandsFor self bits
            → SpellsCommand command bits → result ≡ Ok command }
    {
        let mut answer = Err(CommandRefusal::Short(0));
        self.finish_to(&mut answer);
        answer
    }

    /// Writes what [`finish`](Framer::finish) answers in place of another answer, and stands for no bits
    /// afterwards. Neither the answer nor the Framer is copied or made anew, as both have room for the longest mask
    /// and the longest list of words.
    pub fn finish_to(&mut self, answer: &mut Result<Command, CommandRefusal>)
        ensures finishes { (bits : List Bool) → FramerStandsFor self.old bits
            → IsFinishAnswer answer.new bits }
        ensures only { (bits : List Bool) (command : Command) → FramerStandsFor self.old bits
            → SpellsCommand command bits → answer.new ≡ Ok command }
        ensures anew { FramerStandsFor self.new [] }
    {
        self.state.finish(self.pushed, self.refused, answer);
        self.state.begin_anew();
        self.pushed = 0;
        self.refused = None;
    }
}
