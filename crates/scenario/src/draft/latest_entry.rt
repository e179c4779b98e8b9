//! What is said of the exchange of the last air line, of which more may be said.
ghost use Rattle.std.specs.Prelude.{◌≡◌, ◌<◌, ◌≤◌, ◌+◌, ◌^◌, ◌↔◌, length, None, IsTrue, OnOk};
ghost use Rattle.air_events.specs.Entries.{no_entry};
ghost use Rattle.scenario.specs.AirLinesSoFar.{MayFollow, with_happening};

use air_events::{Choice, Entry, Event};
use bit_strings::{List, OutOfMemory};
use scenario_lines::Happening;
use std::alloc::Global;
use std::marker::Model;

/// The entry of the last exchange, which grows with each air line of it.
#[derive(Drop)]
pub(crate) struct LatestEntry {
    events: Vec<(Event, u32)>,
    missed: Vec<u32>,
    choice: Option<Choice>,
}

impl Model for LatestEntry {
    ghost use Rattle.air_events.specs.declared.Entry.{Entry};

    ghost Value = { Entry };

    ghost view = { λ a. record { events = a.events.items; missed = a.missed.items; choice = a.choice } };
}

impl LatestEntry {
    /// An entry for an exchange of which no air line says anything yet.
    pub(crate) fn new(alloc: Global) -> LatestEntry
        ensures { result ≡ no_entry }
    {
        LatestEntry {
            events: Vec::new(alloc),
            missed: Vec::new(alloc),
            choice: None,
        }
    }

    /// Whether what is said may be followed by this: events come before misses, and these before the
    /// choice.
    pub(crate) fn may_follow(&self, happening: &Happening) -> bool
        ensures { IsTrue result ↔ MayFollow self.now happening.now }
    {
        match happening {
            Happening::Event { .. } => self.missed.is_empty() && self.choice.is_none(),
            Happening::Miss(_) => self.choice.is_none(),
            Happening::Choice(_) => true,
        }
    }

    /// Whether nothing is chosen.
    pub(crate) fn has_no_choice(&self) -> bool
        ensures { IsTrue result ↔ (self.now.choice ≡ None) }
    {
        self.choice.is_none()
    }

    /// Adds to what is said.
    pub(crate) fn say(&mut self, alloc: Global, happening: Happening) -> Result<(), OutOfMemory>
        ensures ok { OnOk result (self.new ≡ with_happening self.old happening.entry) }
        ensures events { length self.new.events ≤ length self.old.events + 1 }
        ensures missed { length self.new.missed ≤ length self.old.missed + 1 }
    {
        match happening {
            Happening::Event { event, tag } => self.events.push((event, tag))?,
            Happening::Miss(tag) => self.missed.push(tag)?,
            Happening::Choice(choice) => self.choice = Some(choice.to_choice(alloc)?),
        }
        Ok(())
    }

    /// The entry with all that the air lines have said of the exchange.
    pub(crate) fn into_entry(self) -> Entry
        requires events { length self.events < 2 ^ 32 }
        requires missed { length self.missed < 2 ^ 32 }
        ensures { result ≡ self }
    {
        let LatestEntry {
            events,
            missed,
            choice,
        } = self;
        Entry {
            events: List::new(events),
            missed: List::new(missed),
            choice,
        }
    }
}
