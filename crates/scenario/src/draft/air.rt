//! What the air lines of a scenario have said so far.
ghost use Rattle.std.specs.Prelude.{◌≡◌, ◌<◌, ◌≤◌, ◌^◌, ◌↔◌, ◌++◌, length, IsTrue, IfOk, OnOk, OnErr};
ghost use Rattle.scenario.specs.AirLinesSoFar.{ChoosesOnce, KeepsOrder, at_exchange, entries_of, last_entry, no_air_lines, with_air_line, with_said};
ghost use Rattle.scenario.specs.Limits.{most_air_lines};

use crate::draft::latest_entry::LatestEntry;
use air_events::Entry;
use bit_strings::{List, OutOfMemory};
use scenario_lines::{Happening, Line};
use std::alloc::Global;
use std::marker::Model;
use std::mem;

/// How many air lines a scenario may have.
const MOST_AIR_LINES: u32 = 4096;

/// The exchanges of which something is said, in order.
#[derive(Drop)]
pub(crate) struct AirLines {
    /// How many air lines the scenario has so far.
    count: u32,
    /// What is said of the exchanges before the last one.
    closed: Vec<(u64, Entry)>,
    /// The number of the last exchange that an air line names, and 0 before the first.
    exchange: u64,
    /// What is said of it.
    latest: LatestEntry,
}

impl Model for AirLines {
    ghost use Rattle.scenario.specs.AirLinesSoFar.{AirLinesValue, AreFewAirLines};

    ghost Value = { AirLinesValue };

    ghost view = { λ a. record { count = a.count; closed = a.closed.items; exchange = a.exchange; latest = a.latest } };

    ghost invariant = { λ a. AreFewAirLines
        (record { count = a.count; closed = a.closed.items; exchange = a.exchange; latest = a.latest }) };
}

impl AirLines {
    /// What is said before the first air line of a scenario: nothing of any exchange.
    pub(crate) fn new(alloc: Global) -> AirLines
        ensures { result ≡ no_air_lines }
    {
        AirLines {
            count: 0,
            closed: Vec::new(alloc),
            exchange: 0,
            latest: LatestEntry::new(alloc),
        }
    }

    /// How many air lines the scenario has so far.
    pub(crate) fn count(&self) -> u32
        ensures count { result ≡ self.now.count }
        ensures small { result ≤ most_air_lines }
    {
        self.count
    }

    /// Whether one air line more is none too many.
    pub(crate) fn has_room(&self) -> bool
        ensures { IsTrue result ↔ (self.now.count < most_air_lines) }
    {
        self.count < MOST_AIR_LINES
    }

    /// Whether the number of a line's exchange, where it has one, doesn't fall, and what it says of the
    /// same exchange comes in order.
    pub(crate) fn keeps_order(&self, line: &Line) -> bool
        ensures { IsTrue result ↔ KeepsOrder self.now line.now }
    {
        match line {
            Line::Air {
                exchange,
                happening,
            } => {
                let exchange = u64::from(*exchange);
                if exchange == self.exchange {
                    self.latest.may_follow(happening)
                } else {
                    exchange > self.exchange
                }
            }
            _ => true,
        }
    }

    /// Whether a line is no second choice for its exchange.
    pub(crate) fn chooses_once(&self, line: &Line) -> bool
        ensures { IsTrue result ↔ ChoosesOnce self.now line.now }
    {
        match line {
            Line::Air {
                exchange,
                happening: Happening::Choice(_),
            } => u64::from(*exchange) != self.exchange || self.latest.has_no_choice(),
            _ => true,
        }
    }

    /// Turns from the exchange of the last air line to another.
    fn turn_to(&mut self, alloc: Global, exchange: u64) -> Result<(), OutOfMemory>
        requires { length (entries_of self.old) < self.old.count }
        ensures { OnOk result (self.new ≡ at_exchange self.old exchange) }
    {
        let latest = mem::replace(&mut self.latest, LatestEntry::new(alloc));
        close(&mut self.closed, self.exchange, latest)?;
        self.exchange = exchange;
        Ok(())
    }

    /// Adds to what is said of the last exchange.
    fn say(&mut self, alloc: Global, happening: Happening) -> Result<(), OutOfMemory>
        requires events { length self.old.latest.events < self.old.count }
        requires missed { length self.old.latest.missed < self.old.count }
        ensures { OnOk result (self.new ≡ with_said self.old happening.entry) }
    {
        self.latest.say(alloc, happening)
    }

    /// Adds what an air line says.
    pub(crate) fn add(
        &mut self,
        alloc: Global,
        exchange: u32,
        happening: Happening,
    ) -> Result<(), OutOfMemory>
        requires { self.old.count < most_air_lines }
        ensures { OnOk result (self.new ≡ with_air_line self.old exchange happening.entry) }
    {
        let exchange = u64::from(exchange);
        self.count += 1;
        if exchange != self.exchange {
            self.turn_to(alloc, exchange)?;
        }
        self.say(alloc, happening)
    }

    /// What the air lines have said of all exchanges, in order.
    pub(crate) fn into_entries(self) -> Result<List<(u64, Entry)>, OutOfMemory>
        ensures { IfOk result (λ entries. entries ≡ entries_of self) }
    {
        let AirLines {
            count: _,
            mut closed,
            exchange,
            latest,
        } = self;
        close(&mut closed, exchange, latest)?;
        Ok(List::new(closed))
    }
}

/// Adds what is said of the last exchange, where there is one, to what is said of those before it.
fn close(
    closed: &mut Vec<(u64, Entry)>,
    exchange: u64,
    latest: LatestEntry,
) -> Result<(), OutOfMemory>
    requires events { length latest.events < 2 ^ 32 }
    requires missed { length latest.missed < 2 ^ 32 }
    ensures ok { OnOk result (closed.new.items ≡ closed.old.items ++ last_entry exchange latest) }
    ensures err { OnErr result (closed.new.items ≡ closed.old.items) }
{
    if exchange > 0 {
        closed.push((exchange, latest.into_entry()))?;
    }
    Ok(())
}
