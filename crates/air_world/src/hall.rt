//! Tags that an interrogator reads by whole rounds, on an air of their own.
ghost use Rattle.std.specs.Prelude.{◌≡◌, ◌+◌, ◌≤◌, ◌++◌, [], length, IfOk};
ghost use Rattle.runs.specs.RoundsTold.{played_of};
ghost use Rattle.runs.specs.ScenarioHistory.{start_of};
ghost use Rattle.scenario.specs.Limits.{IsScenario, no_operations};
ghost use Rattle.tag_machine.specs.TagsInExchange.{AreLegalTags};

use crate::receiving::copy_of;
use crate::run::Run;
use crate::start::set_up;
use access_ops::OpList;
use air_channel::Air;
use air_events::{Entry, EntryCursor, LONGEST_STREAM, MOST_TAGS, Several, empty_entry};
use bit_strings::{Bits, List, OutOfMemory};
use q_round::{RoundEnd, RoundSpec, round_laws};
use report_lines::{Line, Listener, PlayFault};
use runs::{rounds_go_by_tags, rounds_list_their_tags};
use scenario::Scenario;
use std::alloc::Global;
use std::marker::{Brand, Model};
use std::sync::ledger::{Blank, Ledger};
use tag_machine::Steps;
use two_portals::{Hall, Pairs};

/// Tags that an interrogator reads by whole rounds, on an air of their own. Where several tags reply, the channel breaks
/// the first reply, and nothing else is said of any exchange.
///
/// A contract sees it as the list of the tags.
pub struct AirHall {
    air: Air,
    nothing: Entry,
    operations: OpList,
    /// Room for what is received, lent to each round.
    bits: Bits,
}

// Written out, so that a drop is one call in the proof of each function that owns a hall, and not one for each part.
impl Drop for AirHall {
    fn drop(self) {
        let AirHall {
            air: _,
            nothing: _,
            operations: _,
            bits: _,
        } = self;
    }
}

impl Model for AirHall {
    ghost use Rattle.std.specs.Prelude.{◌≡◌, ◌≤◌, List};
    ghost use Rattle.air_events.specs.Entries.{no_entry};
    ghost use Rattle.air_events.specs.Streams.{longest_stream};
    ghost use Rattle.air_events.specs.declared.Several.TheVariants as severals;
    ghost use Rattle.scenario.specs.Limits.{no_operations};
    ghost use Rattle.tag_machine.specs.TagValue.{TagValue};

    ghost Value = { List TagValue };

    ghost view = { λ a. a.air.tags };

    ghost invariant = { λ a. (a.air.several ≡ severals.Break) × (a.nothing ≡ no_entry)
        × (a.operations ≡ no_operations) × (longest_stream ≤ a.bits.capacity) };
}

impl AirHall {
    /// The tags of a scenario, as they are at its start.
    pub fn new(alloc: Global, scenario: &Scenario) -> Result<AirHall, OutOfMemory>
        requires scenario { IsScenario scenario.now }
        requires breaks { scenario.now.several ≡ Several.Break }
        ensures { IfOk result (λ hall. hall ≡ (start_of scenario.now).tags) }
    {
        // An air is dropped with its hall alone: all else that may fail comes first.
        let bits = Bits::new(alloc, LONGEST_STREAM)?;
        let air = set_up(alloc, scenario)?;
        Ok(AirHall {
            air,
            nothing: empty_entry(alloc),
            operations: OpList {
                only: None,
                ops: List::new(Vec::new(alloc)),
            },
            bits,
        })
    }

    /// Plays a round, with the ledger of the blank for the counter of steps.
    fn play<L: Ledger>(&mut self, blank: Blank, spec: &RoundSpec, heard: &mut Pairs) -> RoundEnd
        requires name { blank.name ≡ L.name }
        requires parts { blank.parts ≡ L.parts }
        requires one { blank.parts ≡ 1 }
        requires room { length heard.old.items + length self.old ≤ heard.old.capacity }
        ensures pairs { heard.new
            ≡ record heard.old { items = heard.old.items ++ (played_of self.old spec.now).pairs } }
        ensures end { result ≡ (played_of self.old spec.now).end }
        ensures tags { self.new ≡ (played_of self.old spec.now).tags }
    {
        prove!(self.air.len() <= u32::from(MOST_TAGS));
        let entries = EntryCursor::new(&[], &self.nothing);
        let mut run = Run::<L>::new(entries, Steps::new(blank), self.bits.take());
        let end = hear_round(&mut run, &mut self.air, spec, &self.operations, heard);
        self.bits = run.into_bits();
        end
    }
}

impl Hall for AirHall {
    ghost use Rattle.air_world.specs.laws.HallLaws.{hall_senders, hall_quiet};
    ghost use Rattle.runs.specs.RoundsTold.{played_of};

    ghost tags = { λ hall. hall };

    ghost played = { played_of };

    fn round(&mut self, spec: &RoundSpec, heard: &mut Pairs) -> RoundEnd {
        self.play::<Brand>(Blank::new(1), spec, heard)
    }

    fn len(&self) -> u32 {
        self.air.len()
    }

    ghost senders = { hall_senders };

    ghost quiet = { hall_quiet };
}

/// Plays the first round of a run, of whose exchanges nothing is said, and adds the PC and the EPC of each tag that it
/// lists.
fn hear_round<'a, L: Ledger>(
    run: &mut Run<'a, L>,
    air: &mut Air,
    spec: &RoundSpec,
    operations: &OpList,
    heard: &mut Pairs,
) -> RoundEnd
    requires run { run.old ≡ record { entries = []; exchanges = 0; rounds = 0 } }
    requires several { air.old.several ≡ Several.Break }
    requires legal { AreLegalTags air.old.tags }
    requires operations { operations.now ≡ no_operations }
    requires room { length heard.old.items + length air.old.tags ≤ heard.old.capacity }
    ensures pairs { heard.new
        ≡ record heard.old { items = heard.old.items ++ (played_of air.old.tags spec.now).pairs } }
    ensures end { result ≡ (played_of air.old.tags spec.now).end }
    ensures tags { air.new.tags ≡ (played_of air.old.tags spec.now).tags }
    ensures several { air.new.several ≡ Several.Break }
{
    round_laws();
    rounds_go_by_tags();
    rounds_list_their_tags();
    prove!(spec.limit() <= 70000);
    prove!(air.exchanges() <= u64::MAX);
    let mut listener = PairListener { heard };
    match run.play_round(air, spec, operations, &mut listener) {
        Ok(end) => end,
        // Who only keeps pairs meets no fault.
        Err(_) => unreachable!(),
    }
}

/// Keeps the PC and the EPC of each tag that is listed, where there is room for them.
#[derive(Drop)]
struct PairListener<'h> {
    heard: &'h mut Pairs,
}

impl<'h> Listener for PairListener<'h> {
    ghost use Rattle.std.specs.Prelude.{None, refl};
    ghost use Rattle.air_world.specs.Listing.{HearsPairs};
    ghost use Rattle.air_world.specs.laws.ListingLaws.{hears-no-pair};

    ghost hears = { λ first lines later. (later.heard.ghost_name ≡ first.heard.ghost_name) × HearsPairs lines first.heard.now later.heard.now };

    ghost failed = { λ listener. None };

    fn tell(&mut self, line: &Line<'_>) {
        let Line::List { pc, epc, .. } = *line else {
            return;
        };
        let _ = self.heard.push((pc, copy_of(epc)));
    }

    fn fault(&self) -> Option<PlayFault> {
        None
    }

    fn wants_exchanges(&self) -> bool {
        false
    }

    fn wants_frames(&self) -> bool {
        false
    }

    ghost nothing = { λ listener. (refl, hears-no-pair listener.heard.now) };
}
