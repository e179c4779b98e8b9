//! One place in a population, which has a tag.
ghost use Rattle.std.specs.Prelude.{◌≡◌, ◌+◌, ◌<◌, ◌≤◌, ◌++◌, false, Some, length};
ghost use Rattle.tag_machine.specs.Events.{tag_after_event};
ghost use Rattle.tag_machine.specs.TagsInExchange.{outcome_unless, reply_of};
ghost use Rattle.tag_machine.specs.Hearing.{tag_value_of, typed_name_of};
ghost use Rattle.tag_machine.specs.TagValue.{IsLegalTag};
ghost use Rattle.tag_population.specs.Answers.{answers_of};
ghost use Rattle.tag_population.specs.Floor.{HeedsNoSlot, participation_in, with_slot};
ghost use Rattle.tag_population.specs.Participation.{IsLegalParticipation};

use crate::answers::Answers;
use crate::participation::Participation;
use air_events::TagNumber;
use command_grammar::Command;
use std::marker::Model;
use std::sync::ledger::Ledger;
use tag_machine::{AnyTag, Event, StateName, Steps};

/// A seat of a population. It has a tag at all times, but while that tag hears or an event befalls it.
///
/// A contract sees the tag.
#[derive(Drop)]
pub(crate) struct Seat {
    tag: Option<AnyTag>,
}

impl Model for Seat {
    ghost use Rattle.tag_machine.specs.TagValue.{TagValue, IsLegalTag};
    ghost use Rattle.tag_population.specs.Floor.{seated_tag};
    ghost use Rattle.std.specs.Prelude.{IsSome};

    ghost Value = { TagValue };

    ghost view = { λ a. seated_tag a.tag };

    ghost invariant = { λ a. IsSome a.tag × IsLegalTag (seated_tag a.tag) };
}

impl Seat {
    /// The seat of a tag.
    pub(crate) fn new(tag: AnyTag) -> Seat
        ensures value { result ≡ tag_value_of tag }
        ensures legal { IsLegalTag result }
    {
        Seat { tag: Some(tag) }
    }

    /// The tag that the seat has.
    pub(crate) fn tag(&self) -> &AnyTag
        ensures value { tag_value_of result.now ≡ self.now }
        ensures legal { IsLegalTag self.now }
    {
        match &self.tag {
            Some(tag) => tag,
            None => unreachable!(),
        }
    }

    /// How the tag takes part in a round.
    pub(crate) fn participation(&self) -> Option<Participation>
        ensures value { result ≡ participation_in self.now.state }
        ensures legal { IsLegalParticipation result }
    {
        match self.tag() {
            AnyTag::Arbitrate(tag) => {
                Some(Participation::Waits(tag.session().get(), tag.slot()))
            }
            tag => match tag.state() {
                StateName::Ready | StateName::Killed | StateName::Unpowered => None,
                _ => Some(Participation::Called),
            },
        }
    }

    /// Whether what becomes of the tag at a command may depend on its slot counter.
    pub(crate) fn heeds_slot(&self, command: &Command) -> bool
        ensures { result ≡ false → HeedsNoSlot command.now self.now }
    {
        match (self.tag(), command) {
            (AnyTag::Arbitrate(tag), Command::QueryAdjust { session, .. }) => {
                tag.session() != *session
            }
            _ => true,
        }
    }

    /// Changes the slot counter, where the tag has one.
    pub(crate) fn set_slot<L: Ledger>(&mut self, slot: u16, steps: &mut Steps<L>)
        requires { slot < 32768 }
        ensures tag { self.new ≡ record self.old { state = with_slot slot self.old.state } }
        ensures counted { steps.new ≤ steps.old + 1 }
        ensures legal { IsLegalTag self.new }
    {
        let Some(tag) = &mut self.tag else {
            unreachable!()
        };
        if tag.state() == StateName::Arbitrate {
            set_slot(tag, slot, steps);
        }
    }

    /// Lets an event befall the tag.
    pub(crate) fn befall(&mut self, event: Event)
        ensures tag { self.new ≡ tag_after_event event self.old.state self.old.body }
        ensures legal { IsLegalTag self.new }
    {
        let Some(tag) = self.tag.take() else {
            unreachable!()
        };
        self.tag = Some(tag.event(event));
    }

    /// Lets the tag hear a command, unless it misses it, and has its answer kept.
    pub(crate) fn hear<L: Ledger>(
        &mut self,
        number: TagNumber,
        misses: bool,
        command: &Command,
        answers: &mut Answers,
        steps: &mut Steps<L>,
    )
        requires room { length answers.old.items < answers.old.tags }
        ensures tag { self.new ≡ (outcome_unless misses command.now self.old).tag }
        ensures answers { answers.new
            ≡ record answers.old {
              items = answers.old.items
                  ++ answers_of (reply_of number
                  (outcome_unless misses command.now self.old).answer);
            } }
        ensures legal { IsLegalTag self.new }
        ensures counted { steps.new ≤ steps.old + 1 }
    {
        let Some(tag) = &mut self.tag else {
            unreachable!()
        };
        // Most tags stay as they are.
        if misses || tag.hear_in_place(command, steps) {
            return;
        }
        let Some(tag) = self.tag.take() else {
            unreachable!()
        };
        self.tag = Some(answers.hear(number, tag, command, steps));
    }
}

/// Changes the slot counter of a tag in arbitrate.
fn set_slot<L: Ledger>(tag: &mut AnyTag, slot: u16, steps: &mut Steps<L>)
    requires slot { slot < 32768 }
    requires waits { typed_name_of tag.old ≡ StateName.Arbitrate }
    ensures tag { tag_value_of tag.new
        ≡ record (tag_value_of tag.old) { state = with_slot slot (tag_value_of tag.old).state } }
    ensures counted { steps.new ≡ steps.old + 1 }
{
    match tag {
        AnyTag::Arbitrate(tag) => tag.set_slot(slot, steps),
        _ => unreachable!(),
    }
}
