//! The tags of a population in their seats, with those that wait for their slots.
ghost use Rattle.std.specs.Prelude.{◌≡◌, ◌+◌, ◌<◌, ◌≤◌, ◌++◌, Some, map, length, vec_len, get_or, IfOk};
ghost use Rattle.std.specs.Borrow.{sem};
ghost use Rattle.air_events.specs.TagNumbers.{most_tags};
ghost use Rattle.tag_machine.specs.Events.{tag_after_event};
ghost use Rattle.tag_machine.specs.TagsInExchange.{AreLegalTags, outcome_unless, reply_of};
ghost use Rattle.tag_machine.specs.Hearing.{tag_value_of};
ghost use Rattle.tag_machine.specs.TagValue.{IsLegalTag};
ghost use Rattle.tag_population.specs.Answers.{answers_of};
ghost use Rattle.tag_population.specs.Floor.{AreSeated, IsNextReached, floor_with, calling, counted_floor, no_tag, participations_of, steps_back, tag_seated};
ghost use Rattle.tag_population.specs.Lent.{KeepsFloor};
ghost use Rattle.tag_population.specs.Participation.{IsDue, participation_at, waits_in};

use crate::answers::Answers;
use crate::participation::{Participation, Waiting};
use crate::seat::Seat;
use air_events::TagNumber;
use bit_strings::{OutOfMemory, Session};
use command_grammar::Command;
use std::alloc::Global;
use std::marker::Model;
use std::sync::ledger::Ledger;
use tag_machine::{AnyTag, Event, Steps};

/// Which tags a command reaches.
#[derive(Clone, Copy)]
pub(crate) enum Reach {
    /// All tags.
    Every,
    /// Those that take part in a round: it changes nothing in others, as in ready.
    InRound,
    /// Those that are called.
    CalledOnly,
}

/// Tags in seats. A tag that waits for its slot isn't counted down one by one: its slot counter is the one that `waiting`
/// says, and is written back into its seat before anything is done to it that may go by it.
///
/// A contract sees the tags, and how each takes part.
#[derive(Drop)]
pub(crate) struct Floor {
    seats: Vec<Seat>,
    waiting: Waiting,
}

impl Model for Floor {
    ghost use Rattle.tag_population.specs.Floor.{AreSeated, FloorValue, seated_tags};

    ghost Value = { FloorValue };

    ghost view = { λ a. record { tags = seated_tags a.waiting a.seats.items; parts = a.waiting } };

    ghost invariant = { λ a. AreSeated a.waiting a.seats.items };
}

impl Floor {
    /// These tags, in this order, each of which takes part as its state says.
    pub(crate) fn new(alloc: Global, tags: Vec<AnyTag>) -> Result<Floor, OutOfMemory>
        requires few { vec_len tags ≤ most_tags }
        ensures { IfOk result
            (λ floor. (floor.tags ≡ map tag_value_of tags.items)
            × (floor.parts ≡ participations_of floor.tags)) }
    {
        let mut seats = Vec::with_capacity(alloc, tags.len())?;
        let mut waiting = Waiting::new(alloc, tags.len())?;
        for tag in tags {
            let seat = Seat::new(tag);
            let number = TagNumber::from_index(seats.len());
            waiting.put(number, seat.participation());
            seats.push_reserved(seat);
        }
        Ok(Floor { seats, waiting })
    }

    /// How many tags there are in seats.
    pub(crate) fn len(&self) -> usize
        ensures count { result ≡ length self.now.tags }
        ensures whole { length self.now.parts ≡ length self.now.tags }
        ensures few { length self.now.tags ≤ most_tags }
        ensures legal { AreLegalTags self.now.tags }
    {
        self.seats.len()
    }

    /// The tag in the seat of this number, with its slot counter written back there.
    pub(crate) fn tag<L: Ledger>(&mut self, number: TagNumber, steps: &mut Steps<L>) -> &AnyTag
        requires { number < length self.old.tags }
        ensures* same { sem 𝓛 (KeepsFloor self.entry) }
        ensures value { tag_value_of result.now ≡ get_or self.old.tags number no_tag }
        ensures legal { IsLegalTag (tag_value_of result.now) }
        ensures counted { steps.new ≤ steps.old + 1 }
    {
        let at = number.index();
        write_back(&mut self.seats[at], &self.waiting, number, steps);
        self.seats[at].tag()
    }

    /// Lets an event befall the tag in the seat of this number, and keeps how it takes part then.
    pub(crate) fn befall<L: Ledger>(
        &mut self,
        number: TagNumber,
        event: Event,
        steps: &mut Steps<L>,
    )
        requires { number < length self.old.tags }
        ensures floor { self.new
            ≡ floor_with self.old number
            (tag_after_event event (get_or self.old.tags number no_tag).state
            (get_or self.old.tags number no_tag).body) }
        ensures counted { steps.new ≤ steps.old + 1 }
    {
        let at = number.index();
        let seat = &mut self.seats[at];
        write_back(seat, &self.waiting, number, steps);
        seat.befall(event);
        let participation = seat.participation();
        self.waiting.put(number, participation);
    }

    /// Lets the tag with this number hear a command, unless it misses it, and has its answer kept.
    pub(crate) fn hear<L: Ledger>(
        &mut self,
        number: TagNumber,
        misses: bool,
        command: &Command,
        answers: &mut Answers,
        steps: &mut Steps<L>,
    )
        requires number { number < length self.old.tags }
        requires room { length answers.old.items < answers.old.tags }
        ensures floor { self.new
            ≡ floor_with self.old number
            (outcome_unless misses command.now (get_or self.old.tags number no_tag)).tag }
        ensures answers { answers.new
            ≡ record answers.old {
              items = answers.old.items
                  ++ answers_of (reply_of number
                  (outcome_unless misses command.now (get_or self.old.tags number no_tag)).answer);
            } }
        ensures counted { steps.new ≤ steps.old + 1
            + steps_back (participation_at self.old.parts number) }
    {
        let at = number.index();
        let seat = &mut self.seats[at];
        write_back_for(seat, &self.waiting, number, misses, command, steps);
        seat.hear(number, misses, command, answers, steps);
        let participation = seat.participation();
        self.waiting.put(number, participation);
    }

    /// Calls the tag with this number to the next command.
    pub(crate) fn call<L: Ledger>(&mut self, number: TagNumber, steps: &mut Steps<L>)
        requires { number < length self.old.tags }
        ensures floor { self.new ≡ calling self.old number }
        ensures counted { steps.new ≤ steps.old
            + steps_back (participation_at self.old.parts number) }
    {
        let at = number.index();
        write_back(&mut self.seats[at], &self.waiting, number, steps);
        self.waiting.put(number, Some(Participation::Called));
    }

    /// Counts down the slot counters of all tags in seats that wait in a round of this session.
    pub(crate) fn count_down(&mut self, session: Session)
        ensures { self.new ≡ counted_floor session self.old }
    {
        self.waiting.count_down(session);
    }

    /// Whether the tag in the seat of this number waits in a round of this session.
    pub(crate) fn waits_in(&self, number: TagNumber, session: Session) -> bool
        requires { number < length self.now.tags }
        ensures { result ≡ waits_in session (participation_at self.now.parts number) }
    {
        self.waiting.waits_in(number, session)
    }

    /// The number of a seat whose tag has its slot next in this session; none exactly where no seat has such a tag.
    pub(crate) fn due(&self, session: Session) -> Option<TagNumber>
        ensures { IsDue self.now.parts session result }
    {
        self.waiting.due(session)
    }

    /// The number of the first seat, from this one on, whose tag is reached, if there is one.
    pub(crate) fn next_reached(&self, reach: Reach, from: usize) -> Option<TagNumber>
        requires { from ≤ length self.now.tags }
        ensures { IsNextReached reach self.now.parts from result }
    {
        if let Reach::CalledOnly = reach {
            return self.waiting.next_called(from);
        }
        for at in from..self.seats.len() {
            let number = TagNumber::from_index(at);
            if let Reach::Every = reach {
                return Some(number);
            }
            if self.waiting.takes_part(number) {
                return Some(number);
            }
        }
        None
    }
}

/// Writes the slot counter of a tag that waits back into its seat.
fn write_back<L: Ledger>(
    seat: &mut Seat,
    waiting: &Waiting,
    number: TagNumber,
    steps: &mut Steps<L>,
)
    requires { number < length waiting.now }
    ensures seat { seat.new ≡ tag_seated (participation_at waiting.now number) seat.old }
    ensures legal { IsLegalTag seat.new }
    ensures counted { steps.new ≤ steps.old + steps_back (participation_at waiting.now number) }
{
    let _legal = seat.tag();
    if let Some(slot) = waiting.slot(number) {
        seat.set_slot(slot, steps);
    }
}

/// Writes it back where what comes of a command for the tag may go by it.
fn write_back_for<L: Ledger>(
    seat: &mut Seat,
    waiting: &Waiting,
    number: TagNumber,
    misses: bool,
    command: &Command,
    steps: &mut Steps<L>,
)
    requires { number < length waiting.now }
    ensures outcome { outcome_unless misses command.now seat.new
        ≡ outcome_unless misses command.now
        (tag_seated (participation_at waiting.now number) seat.old) }
    ensures counted { steps.new ≤ steps.old + steps_back (participation_at waiting.now number) }
{
    if misses || seat.heeds_slot(command) {
        write_back(seat, waiting, number, steps);
    }
}
