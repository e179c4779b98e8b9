//! The air between one interrogator and a population of tags.
ghost use Rattle.std.specs.Prelude.{◌≡◌, ◌+◌, ◌*◌, ◌<◌, ◌≤◌, [], All, Some, length, slice_get, IfOk};
ghost use Rattle.std.specs.Borrow.{sem};
ghost use Rattle.air_events.specs.Streams.{longest_stream};
ghost use Rattle.air_events.specs.TagNumbers.{most_tags};
ghost use Rattle.command_grammar.specs.Commands.{IsLegalCommand};
ghost use Rattle.pie_line.specs.Pie.{longest_interval};
ghost use Rattle.tag_machine.specs.Answers.{IsSent};
ghost use Rattle.tag_machine.specs.Hearing.{tag_value_of};
ghost use Rattle.tag_machine.specs.TagValue.{IsLegalTag};
ghost use Rattle.tag_machine.specs.TagsInExchange.{AreLegalTags, IsQueryRep, busy_from, replies_in};
ghost use Rattle.air_channel.specs.Air.{NamesTags, air_after, air_after_event};
ghost use Rattle.air_model.specs.Channel.{HasFewLevels, given_in, got_of};
ghost use Rattle.air_channel.specs.Lent.{KeepsAir};
ghost use Rattle.air_channel.specs.BufferSizes.{longest_frame};

use crate::channel::give;
use crate::receiver::Receiver;
use air_model::Got;
use bit_strings::{Bits, Levels, OutOfMemory};
use command_grammar::Command;
use pie_line::{Intervals, Link};
use std::alloc::Global;
use std::marker::{Brand, Model};
use std::sync::ledger::{Blank, Ledger};
use tag_machine::{AnyTag, Entry, Event, Several, Steps};
use tag_population::{Answers, Population};

/// How many bits there is room for, and how many intervals: more than the 8,225 bits of the longest reply and the 8,331 intervals of
/// the longest frame.
const FRAME_ROOM: u32 = 8400;

/// How many levels of a stream the air has room for: more than the 131,968 of the longest stream.
const STREAM_ROOM: u32 = 132_208;

/// The air between one interrogator and a population of tags, with the buffers for what goes through it.
///
/// A contract sees the link, what the channel gives of several replies, the tags, the frame that was sent last, the stream that
/// came back, what tags answered, and the number of exchanges.
pub struct Air {
    link: Link,
    several: Several,
    population: Population,
    receiver: Receiver,
    answers: Answers,
    /// The bits of what is encoded: of a command, and then of an answer.
    bits: Bits,
    frame: Intervals,
    stream: Levels,
    exchanges: u64,
}

// Written out, so that a drop is one call in the proof of each function that owns an air, and not one for each part.
impl Drop for Air {
    fn drop(self) {
        let Air {
            link: _,
            several: _,
            population: _,
            receiver: _,
            answers: _,
            bits: _,
            frame: _,
            stream: _,
            exchanges: _,
        } = self;
    }
}

impl Model for Air {
    ghost use Rattle.air_channel.specs.Air.{AirValue};
    ghost use Rattle.std.specs.Prelude.{◌≤◌, length};
    ghost use Rattle.air_events.specs.Streams.{longest_stream};
    ghost use Rattle.air_channel.specs.BufferSizes.{IsShortFrame, room_for_frames, room_for_streams};

    ghost Value = { AirValue };

    ghost view = { λ a. record { link = a.link; several = a.several; tags = a.population; frame = a.frame.items; stream = a.stream.items; answers = a.answers.items; exchanges = a.exchanges } };

    ghost invariant = { λ a. (room_for_frames ≤ a.bits.capacity)
        × (room_for_frames ≤ a.frame.capacity) × IsShortFrame a.frame.items
        × (room_for_streams ≤ a.stream.capacity)
        × (length a.stream.items ≤ longest_stream) × (length a.population ≤ a.answers.tags) };
}

impl Air {
    /// The air between this population and an interrogator with this link. Where several tags reply and nothing is
    /// chosen, the channel gives what `several` says. It takes all memory that exchanges want.
    pub fn new(
        alloc: Global,
        population: Population,
        link: Link,
        several: Several,
    ) -> Result<Air, OutOfMemory>
        ensures { IfOk result
            (λ air. air ≡ record {
              link = link;
              several = several;
              tags = population;
              frame = [];
              stream = [];
              answers = [];
              exchanges = 0;
            }) }
    {
        let answers = Answers::new(alloc, population.len() as usize)?;
        let bits = Bits::new(alloc, FRAME_ROOM)?;
        let frame = Intervals::new(alloc, FRAME_ROOM)?;
        let stream = Levels::new(alloc, STREAM_ROOM)?;
        Ok(Air {
            link,
            several,
            population,
            receiver: Receiver::new(),
            answers,
            bits,
            frame,
            stream,
            exchanges: 0,
        })
    }

    /// Sends a command, and says of whom the channel gives a reply. The entry's events happen first. Then each tag that doesn't
    /// miss the command hears what it reads from the frame. A QueryRep where no event befalls takes at most two steps for each
    /// tag that answers it, was beyond arbitrate before it, or missed it, and none for any other.
    pub fn exchange<L: Ledger>(
        &mut self,
        command: &Command,
        entry: &Entry,
        steps: &mut Steps<L>,
    ) -> Got
        requires named { NamesTags (length self.old.tags) entry.now }
        requires few { HasFewLevels entry.now.choice }
        ensures air { self.new ≡ air_after self.old command.now entry.now }
        ensures got { result
            ≡ got_of self.old.link
            (given_in self.old.link self.old.several command.now entry.now self.old.tags) }
        ensures sent { All
            (λ replied. IsSent (Some replied.sent))
            (replies_in command.now entry.now self.old.tags) }
        ensures counted { steps.new ≤ steps.old + length entry.now.events
            + 2 * length self.old.tags }
        ensures bound { IsQueryRep command.now → entry.now.events ≡ []
            → steps.new ≤ steps.old + 2 * busy_from 0 command.now entry.now self.old.tags }
        ensures legal { AreLegalTags self.new.tags }
        ensures command { IsLegalCommand command.now }
    {
        self.population.befall_all(entry.events.as_slice(), steps);
        self.receiver
            .hear(&self.link, command, &mut self.bits, &mut self.frame);
        self.population
            .hear(self.receiver.command(), entry, &mut self.answers, steps);
        self.exchanges = self.exchanges.saturating_add(1);
        give(
            &self.link,
            &entry.choice,
            self.several,
            &self.answers,
            &mut self.bits,
            &mut self.stream,
        )
    }

    /// Lets an event befall the tag with this number, between two exchanges over the air.
    pub fn event(&mut self, event: Event, tag: u32)
        requires { tag < length self.old.tags }
        ensures air { self.new ≡ air_after_event self.old event tag }
        ensures legal { AreLegalTags self.new.tags }
    {
        self.event_counted::<Brand>(Blank::new(1), event, tag);
    }

    /// Lets an event befall a tag, with the ledger of the blank for the counter of steps.
    fn event_counted<L: Ledger>(&mut self, blank: Blank, event: Event, tag: u32)
        requires name { blank.name ≡ L.name }
        requires parts { blank.parts ≡ L.parts }
        requires one { blank.parts ≡ 1 }
        requires there { tag < length self.old.tags }
        ensures air { self.new ≡ air_after_event self.old event tag }
        ensures legal { AreLegalTags self.new.tags }
    {
        let mut steps = Steps::<L>::new(blank);
        self.population.befall(event, tag, &mut steps);
    }

    /// The link of the air.
    pub fn link(&self) -> &Link
        ensures { result.now ≡ self.now.link }
    {
        &self.link
    }

    /// What the channel of the air gives where several tags reply and nothing is chosen.
    pub fn several(&self) -> Several
        ensures { result ≡ self.now.several }
    {
        self.several
    }

    /// How many tags the population of the air has.
    pub fn len(&self) -> u32
        ensures count { result ≡ length self.now.tags }
        ensures few { length self.now.tags ≤ most_tags }
        ensures legal { AreLegalTags self.now.tags }
    {
        self.population.len()
    }

    /// The tag with this number. It takes at most one step.
    pub fn tag<L: Ledger>(&mut self, number: u32, steps: &mut Steps<L>) -> &AnyTag
        requires { number < length self.old.tags }
        ensures* same { sem 𝓛 (KeepsAir self.entry) }
        ensures tag { slice_get self.old.tags number ≡ Some (tag_value_of result.now) }
        ensures legal { IsLegalTag (tag_value_of result.now) }
        ensures counted { steps.new ≤ steps.old + 1 }
    {
        self.population.tag(number, steps)
    }

    /// The frame that was sent last, in nanoseconds; none before the first exchange.
    pub fn intervals(&self) -> &Intervals
        ensures value { result.now.items ≡ self.now.frame }
        ensures count { length self.now.frame ≤ longest_frame }
        ensures each { All (λ interval. interval ≤ longest_interval) self.now.frame }
    {
        &self.frame
    }

    /// The stream of the last exchange; none after silence, and before the first exchange.
    pub fn stream(&self) -> &Levels
        ensures value { result.now.items ≡ self.now.stream }
        ensures count { length self.now.stream ≤ longest_stream }
    {
        &self.stream
    }

    /// What tags answered in the last exchange, whatever the channel gave of it.
    pub fn answers(&self) -> &Answers
        ensures { result.now.items ≡ self.now.answers }
    {
        &self.answers
    }

    /// How many tags replied in the last exchange.
    pub fn replies(&self) -> u32
        ensures { result ≡ length self.now.answers }
    {
        self.answers.len()
    }

    /// How many exchanges there were. The number stays at its last value.
    pub fn exchanges(&self) -> u64
        ensures { result ≡ self.now.exchanges }
    {
        self.exchanges
    }
}
