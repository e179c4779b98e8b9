//! Tags with numbers.
ghost use Rattle.std.specs.Prelude.{◌≡◌, ◌+◌, ◌*◌, ◌<◌, ◌≤◌, [], All, Some, map, length, vec_len, slice_get, IfOk};
ghost use Rattle.std.specs.Borrow.{sem};
ghost use Rattle.air_events.specs.TagNumbers.{most_tags};
ghost use Rattle.tag_machine.specs.Answers.{IsSent};
ghost use Rattle.tag_machine.specs.TagsInExchange.{AreLegalTags, IsQueryRep, busy_from, is_missed, replies_from, tags_after, tags_after_event};
ghost use Rattle.tag_machine.specs.Hearing.{tag_value_of};
ghost use Rattle.tag_machine.specs.TagValue.{IsLegalTag};
ghost use Rattle.tag_population.specs.Answers.{answers_of};
ghost use Rattle.tag_population.specs.Floor.{participations_of};
ghost use Rattle.tag_population.specs.Hearing.{AreCalledFor, HasHeard, IsReady, hearing_from, reach_of, reach_steps, reached_from, tags_after_events};
ghost use Rattle.tag_population.specs.Lent.{KeepsPopulation};
ghost use Rattle.tag_population.specs.TagSets.{IsSetOf};

use crate::answers::Answers;
use crate::floor::{Floor, Reach};
use crate::tag_set::TagSet;
use air_events::TagNumber;
use bit_strings::OutOfMemory;
use command_grammar::Command;
use std::alloc::Global;
use std::marker::Model;
use std::sync::ledger::Ledger;
use tag_machine::{AnyTag, Entry, Event, Steps};

/// Tags, numbered from 0, of which there are at most 4,096.
///
/// A contract sees the list of the tags.
pub struct Population {
    floor: Floor,
    /// The tags that miss a command, while the others hear it, and else none.
    missed: TagSet,
}

// Written out, so that a drop is one call in the proof of each function that owns a population, and not one for each part.
impl Drop for Population {
    fn drop(self) {
        let Population {
            floor: _,
            missed: _,
        } = self;
    }
}

impl Model for Population {
    ghost use Rattle.std.specs.Prelude.{List, ◌≡◌};
    ghost use Rattle.tag_machine.specs.TagValue.{TagValue};
    ghost use Rattle.tag_population.specs.Floor.{participations_of};
    ghost use Rattle.tag_population.specs.TagSets.{HasNone};

    ghost Value = { List TagValue };

    ghost view = { λ a. a.floor.tags };

    ghost invariant = { λ a. (a.floor.parts ≡ participations_of a.floor.tags) × HasNone a.missed };
}

impl Population {
    /// The population of these tags, in this order. After a refusal the tags are dropped. It takes all memory that
    /// exchanges want.
    pub fn new(alloc: Global, tags: Vec<AnyTag>) -> Result<Population, OutOfMemory>
        requires { vec_len tags ≤ most_tags }
        ensures { IfOk result (λ population. population ≡ map tag_value_of tags.items) }
    {
        let floor = Floor::new(alloc, tags)?;
        let missed = TagSet::new(alloc)?;
        Ok(Population { floor, missed })
    }

    /// How many tags the population has.
    pub fn len(&self) -> u32
        ensures count { result ≡ length self.now }
        ensures few { length self.now ≤ most_tags }
        ensures legal { AreLegalTags self.now }
    {
        self.floor.len() as u32
    }

    /// The tag of the population with this number, with its slot counter written back.
    pub fn tag<L: Ledger>(&mut self, number: u32, steps: &mut Steps<L>) -> &AnyTag
        requires { number < length self.old }
        ensures* same { sem 𝓛 (KeepsPopulation self.entry) }
        ensures value { slice_get self.old number ≡ Some (tag_value_of result.now) }
        ensures legal { IsLegalTag (tag_value_of result.now) }
        ensures counted { steps.new ≤ steps.old + 1 }
    {
        let _few = self.floor.len();
        self.floor.tag(TagNumber::of(number), steps)
    }

    /// Lets an event befall the tag of the population with this number.
    pub fn befall<L: Ledger>(&mut self, event: Event, number: u32, steps: &mut Steps<L>)
        requires { number < length self.old }
        ensures tags { self.new ≡ tags_after_event 0 event number self.old }
        ensures legal { AreLegalTags self.new }
        ensures few { length self.new ≤ most_tags }
        ensures counted { steps.new ≤ steps.old + 1 }
    {
        let _few = self.floor.len();
        self.floor.befall(TagNumber::of(number), event, steps);
        let _legal = self.floor.len();
    }

    /// Lets each of these events befall its tag, in order.
    pub fn befall_all<L: Ledger>(&mut self, events: &[(Event, u32)], steps: &mut Steps<L>)
        requires { All (λ event. event.1 < length self.old) events.now }
        ensures tags { self.new ≡ tags_after_events 0 events.now self.old }
        ensures counted { steps.new ≤ steps.old + length events.now }
    {
        for &(event, number) in events {
            self.befall(event, number, steps);
        }
    }

    /// Lets each tag hear a command that doesn't miss it, in the order of their numbers, and has their answers
    /// kept, and none from before.
    pub fn hear<L: Ledger>(
        &mut self,
        command: &Command,
        entry: &Entry,
        answers: &mut Answers,
        steps: &mut Steps<L>,
    )
        requires missed { All (λ tag. tag < length self.old) entry.now.missed }
        requires room { length self.old ≤ answers.old.tags }
        ensures tags { self.new ≡ tags_after (hearing_from 0 command.now entry.now self.old) }
        ensures count { length self.new ≡ length self.old }
        ensures answers { answers.new
            ≡ record answers.old {
              items = answers_of
                  (replies_from 0 (hearing_from 0 command.now entry.now self.old));
            } }
        ensures sent { All
            (λ replied. IsSent (Some replied.sent))
            (replies_from 0 (hearing_from 0 command.now entry.now self.old)) }
        ensures counted { steps.new ≤ steps.old + 2 * length self.old }
        ensures bound { IsQueryRep command.now
            → steps.new ≤ steps.old + 2 * busy_from 0 command.now entry.now self.old }
        ensures legal { AreLegalTags self.new }
    {
        let _few = self.floor.len();
        answers.clear();
        self.missed.insert_all(entry.missed.as_slice());
        call_for(&mut self.floor, command, entry, steps);
        hear_reached(
            &mut self.floor,
            command,
            entry,
            &self.missed,
            answers,
            steps,
        );
        self.missed.remove_all(entry.missed.as_slice());
        let _legal = self.floor.len();
    }
}

/// Calls the tags that have to hear a QueryRep, or stay as they are where its session is counted down, and counts it down.
/// For other commands no tag is called.
fn call_for<L: Ledger>(floor: &mut Floor, command: &Command, entry: &Entry, steps: &mut Steps<L>)
    requires settled { floor.old.parts ≡ participations_of floor.old.tags }
    requires few { length floor.old.tags ≤ most_tags }
    requires missed { All (λ tag. tag < length floor.old.tags) entry.now.missed }
    ensures called { AreCalledFor command.now entry.now floor.old floor.new }
    ensures counted { steps.new + reach_steps (reach_of command.now) floor.new.parts ≤ steps.old
        + 2 * length floor.old.tags }
    ensures bound { IsQueryRep command.now
        → steps.new + reach_steps (reach_of command.now) floor.new.parts ≤ steps.old
        + 2 * busy_from 0 command.now entry.now floor.old.tags }
{
    let Command::QueryRep { session } = command else {
        return;
    };
    let session = *session;
    // A waiting tag that misses it stands one place on when the session was counted down.
    for &number in entry.missed.as_slice() {
        let number = TagNumber::of(number);
        if floor.waits_in(number, session) {
            floor.call(number, steps);
        }
    }
    while let Some(number) = floor.due(session) {
        floor.call(number, steps);
    }
    floor.count_down(session);
}

/// Lets each tag that a command reaches hear it, unless it misses it, in the order of their numbers.
fn hear_reached<L: Ledger>(
    floor: &mut Floor,
    command: &Command,
    entry: &Entry,
    missed: &TagSet,
    answers: &mut Answers,
    steps: &mut Steps<L>,
)
    requires of { IsSetOf missed.now entry.now.missed }
    requires none { answers.old.items ≡ [] }
    requires room { length floor.old.tags ≤ answers.old.tags }
    requires ready { IsReady (reach_of command.now) floor.old }
    ensures heard { HasHeard
        (reached_from 0 command.now entry.now floor.old.parts floor.old.tags) floor.new answers.old
        answers.new }
    ensures counted { steps.new ≤ steps.old + reach_steps (reach_of command.now) floor.old.parts }
{
    let reach = reach_of(command);
    let mut from = 0;
    while let Some(number) = floor.next_reached(reach, from) {
        let misses = is_missed(number, entry, missed);
        floor.hear(number, misses, command, answers, steps);
        from = number.index() + 1;
    }
}

/// Which tags a command reaches: no other tag may change at it, or answer it, once a QueryRep has counted those that wait down.
fn reach_of(command: &Command) -> Reach
    ensures { result ≡ reach_of command.now }
{
    match command {
        Command::Query { .. } | Command::Select { .. } => Reach::Every,
        Command::QueryAdjust { .. } => Reach::InRound,
        _ => Reach::CalledOnly,
    }
}

/// Whether a tag misses the command, where `missed` has all that do.
fn is_missed(number: TagNumber, entry: &Entry, missed: &TagSet) -> bool
    requires { IsSetOf missed.now entry.now.missed }
    ensures { result ≡ is_missed number entry.now }
{
    // Most commands are missed by no tag.
    if entry.missed.is_empty() {
        return false;
    }
    missed.contains(number)
}
