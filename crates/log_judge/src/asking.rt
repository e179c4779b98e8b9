//! The tag of a log hears a command, and takes words to draw, in room that is taken once for the whole log.
ghost use Rattle.std.specs.Prelude.{◌≡◌};
ghost use Rattle.tag_machine.specs.Hearing.{tag_value_of};
ghost use Rattle.tag_machine.specs.Step.{step};
ghost use Rattle.log_judge.specs.Explaining.{seen_of};
ghost use Rattle.log_judge.specs.Answers.{seen_in};

use crate::answer::Answer;
use bit_strings::{Bits, OutOfMemory};
use command_grammar::Command;
use std::alloc::Global;
use std::mem;
use std::sync::ledger::Ledger;
use tag_machine::{
    Answered, AnyTag, Heard, Steps, answers_are_replies, expectation_of, expected_reply_to,
    has_half,
};

/// Room for the bits of an answer, in bits.
const ROOM: u32 = 8_240;

/// Room for an answer and for its bits.
#[derive(Drop)]
pub(crate) struct AskingRooms {
    /// What the tag answered last.
    pub(crate) answer: Answer,
    bits: Bits,
    ghost bits_room: { bits.capacity ≡ 8240 },
}

impl AskingRooms {
    /// Takes the room for an answer and its bits, once for a whole log.
    pub(crate) fn new(alloc: Global) -> Result<AskingRooms, OutOfMemory> {
        let bits = Bits::new(alloc, ROOM)?;
        Ok(AskingRooms {
            answer: Answer::none(),
            bits,
        })
    }

    /// Lets a tag hear a command. What it answers stands in the room then.
    pub(crate) fn hear<L: Ledger>(
        &mut self,
        tag: AnyTag,
        command: &Command,
        steps: &mut Steps<L>,
    ) -> AnyTag
        ensures tag { tag_value_of result
            ≡ (step command.now (tag_value_of tag).state (tag_value_of tag).body).tag }
        ensures answer { seen_in self.new.answer
            ≡ seen_of (step command.now (tag_value_of tag).state (tag_value_of tag).body).answer }
    {
        // By this law the bits of an answer are a reply that is expected.
        answers_are_replies();
        // In each state a tag is legal.
        let _ = tag.state();
        let expect = expectation_of(command, has_half(tag.numbers()));
        let Heard { tag, answered } = tag.hear(command, &mut self.bits, steps);
        self.answer.answered = answered;
        if answered == Answered::Silent {
            return tag;
        }
        expected_reply_to(&self.bits, &expect, &mut self.answer.reply);
        tag
    }

    /// Lets the tag of a log hear a command, of whose answer nothing is kept.
    pub(crate) fn hear_unheard<L: Ledger>(
        &mut self,
        tag: AnyTag,
        command: &Command,
        steps: &mut Steps<L>,
    ) -> AnyTag
        ensures tag { tag_value_of result
            ≡ (step command.now (tag_value_of tag).state (tag_value_of tag).body).tag }
        ensures answer { self.new.answer ≡ self.old.answer }
    {
        let Heard { tag, .. } = tag.hear(command, &mut self.bits, steps);
        tag
    }

    /// Takes the answer out of the room.
    pub(crate) fn take_answer(&mut self) -> Answer
        ensures { seen_in result ≡ seen_in self.old.answer }
    {
        mem::replace(&mut self.answer, Answer::none())
    }
}
