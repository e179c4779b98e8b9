//! What tags answered to one command.
ghost use Rattle.std.specs.Prelude.{◌≡◌, ◌+◌, ◌*◌, ◌<◌, ◌≤◌, ◌++◌, [], ◌∷◌, length, slice_get, IfOk};
ghost use Rattle.std.specs.Option.{option_map};
ghost use Rattle.air_events.specs.TagNumbers.{most_tags};
ghost use Rattle.tag_machine.specs.TagsInExchange.{reply_of};
ghost use Rattle.tag_machine.specs.Hearing.{tag_value_of};
ghost use Rattle.tag_machine.specs.Step.{step};
ghost use Rattle.tag_machine.specs.TagValue.{IsLegalTag};
ghost use Rattle.tag_population.specs.Answers.{AreKept, answers_kept, answers_of, most_answer_bits, answer_value_of};

use air_events::TagNumber;
use bit_strings::{Bits, Bounded, OutOfMemory};
use command_grammar::Command;
use std::alloc::Global;
use std::marker::Model;
use std::sync::ledger::Ledger;
use tag_machine::{Answered, AnyTag, Steps};

/// The most bits that an answer has room for: more than the 8,225 of the longest reply.
const MOST_BITS: u32 = 8240;

/// What a tag answered.
#[derive(Clone, Copy)]
pub struct Answer<'a> {
    /// The number of the tag.
    pub number: TagNumber,
    /// Whether it has the extended preamble, whatever TRext says.
    pub extended: bool,
    /// Its bits.
    pub bits: &'a [bool],
}

/// An answer whose bits stand from one place on until another.
#[derive(Clone, Copy)]
struct Kept {
    number: TagNumber,
    extended: bool,
    start: usize,
    end: usize,
}

/// What tags answered to one command, in the order of their numbers. It has room for the longest answer of each tag.
///
/// A contract sees the list of the answers, and for how many tags there is room.
pub struct Answers {
    /// The bits of all answers, those of one behind those of the one before.
    bits: Bits,
    kept: Bounded<Kept>,
    /// Where a tag puts the bits of its answer.
    room: Bits,
}

// Written out, so that a drop is one call in the proof of each function that owns answers, and not one for each part.
impl Drop for Answers {
    fn drop(self) {
        let Answers {
            bits: _,
            kept: _,
            room: _,
        } = self;
    }
}

impl Model for Answers {
    ghost use Rattle.std.specs.Prelude.{◌≡◌, ◌*◌, ◌≤◌};
    ghost use Rattle.reply_grammar.specs.Replies.{reply_room};
    ghost use Rattle.tag_population.specs.Answers.{AnswersValue, AreKept, answers_kept, most_answer_bits};

    ghost Value = { AnswersValue };

    ghost view = { λ a. record { items = answers_kept a.bits.items a.kept.items; tags = a.kept.capacity } };

    ghost invariant = { λ a. AreKept a.bits.items a.kept.items
        × (a.bits.capacity ≡ most_answer_bits * a.kept.capacity) × (reply_room ≤ a.room.capacity)
        × (a.room.capacity ≤ most_answer_bits) };
}

impl Answers {
    /// No answers, with room for those of so many tags.
    pub fn new(alloc: Global, tags: usize) -> Result<Answers, OutOfMemory>
        requires { tags ≤ most_tags }
        ensures { IfOk result (λ answers. answers ≡ record { items = []; tags = tags }) }
    {
        let tags = tags as u32;
        let bits = Bits::new(alloc, MOST_BITS * tags)?;
        let kept = Bounded::new(alloc, tags)?;
        let room = Bits::new(alloc, MOST_BITS)?;
        Ok(Answers { bits, kept, room })
    }

    /// How many there are.
    pub fn len(&self) -> u32
        ensures count { result ≡ length self.now.items }
        ensures within { length self.now.items ≤ self.now.tags }
    {
        self.kept.len()
    }

    /// The answer at a place, counted from 0; none past the end.
    pub fn get(&self, at: u32) -> Option<Answer<'_>>
        ensures { option_map answer_value_of result ≡ slice_get self.now.items at }
    {
        let kept = *self.kept.get(at)?;
        Some(Answer {
            number: kept.number,
            extended: kept.extended,
            bits: &self.bits.as_slice()[kept.start..kept.end],
        })
    }

    /// Takes all answers off.
    pub(crate) fn clear(&mut self)
        ensures { self.new ≡ record self.old { items = [] } }
    {
        self.bits.clear();
        self.kept.clear();
    }

    /// Lets the tag of a number hear a command, and keeps what it answers.
    pub(crate) fn hear<L: Ledger>(
        &mut self,
        number: TagNumber,
        tag: AnyTag,
        command: &Command,
        steps: &mut Steps<L>,
    ) -> AnyTag
        requires room { length self.old.items < self.old.tags }
        ensures tag { tag_value_of result
            ≡ (step command.now (tag_value_of tag).state (tag_value_of tag).body).tag }
        ensures answers { self.new
            ≡ record self.old {
              items = self.old.items
                  ++ answers_of (reply_of number
                  (step command.now (tag_value_of tag).state (tag_value_of tag).body).answer);
            } }
        ensures legal { IsLegalTag (tag_value_of result) }
        ensures counted { steps.new ≡ steps.old + 1 }
    {
        let heard = tag.hear(command, &mut self.room, steps);
        let extended = match heard.answered {
            Answered::Silent => return heard.tag,
            Answered::Plain => false,
            Answered::Extended => true,
        };
        keep(number, extended, &self.room, &mut self.bits, &mut self.kept);
        heard.tag
    }
}

/// Keeps an answer with these bits behind those that are kept.
fn keep(number: TagNumber, extended: bool, answer: &Bits, bits: &mut Bits, kept: &mut Bounded<Kept>)
    requires are { AreKept bits.old.items kept.old.items }
    requires room { bits.old.capacity ≡ most_answer_bits * kept.old.capacity }
    requires free { length kept.old.items < kept.old.capacity }
    requires short { answer.now.capacity ≤ most_answer_bits }
    ensures are { AreKept bits.new.items kept.new.items }
    ensures answers { answers_kept bits.new.items kept.new.items
        ≡ answers_kept bits.old.items kept.old.items
        ++ record { number = number; extended = extended; bits = answer.now.items } ∷ [] }
    ensures bits { bits.new.capacity ≡ bits.old.capacity }
    ensures kept { kept.new.capacity ≡ kept.old.capacity }
{
    let start = bits.len() as usize;
    bits.put_all_reserved(answer.as_slice());
    let end = bits.len() as usize;
    kept.push_reserved(Kept {
        number,
        extended,
        start,
        end,
    });
}
