//! A scenario, played.
ghost use Rattle.std.specs.Prelude.{◌≡◌, ◌≤◌, ◌++◌, ℕ, List, [], None, IsErrOf, OnErr, OnOk};
ghost use Rattle.air_io.specs.Flow.{Adds, FaultsRose};
ghost use Rattle.air_model.specs.Past.{exchanges_in, tags_behind};
ghost use Rattle.air_world.specs.NewAir.{new_air};
ghost use Rattle.air_world.specs.Playing.{IsNewRun, StandsOrFails, begun_with};
ghost use Rattle.air_world.specs.Telling.{PlaysOrFails};
ghost use Rattle.runs.specs.CompleteRounds.{RoundsAreComplete};
ghost use Rattle.runs.specs.Headline.{AreHeardAsListed, Headline};
ghost use Rattle.runs.specs.Report.{report_of, report_text_of};
ghost use Rattle.runs.specs.ScenarioHistory.{history, start_of};
ghost use Rattle.scenario.specs.Limits.{IsScenario};

use crate::run::{Run, check};
use crate::seen_listener::SeenListener;
use air_channel::Air;
use air_events::{EntryCursor, LONGEST_STREAM, MOST_TAGS, empty_entry};
use air_io::Sink;
use bit_strings::Bits;
use q_round::round_laws;
use report_lines::{Line, Listener, Mode, ModeSpelling, PlayFault, SeenCounts, TextReport};
use runs::{headline, rounds_are_complete};
use scenario::Scenario;
use std::alloc::Global;
use std::marker::Brand;
use std::sync::ledger::{Blank, Ledger};
use tag_machine::Steps;

/// Room for the longest line, which tells of the levels of the longest stream.
const LINE_ROOM: usize = 132_100;

/// Plays a scenario on its air, to which no command was sent yet, and writes the report. Each command goes over
/// the air in one exchange.
///
/// # Errors
///
/// - `Write`: a write failed.
/// - `OutOfMemory`: there was no memory.
///
/// A front of the report was written then, maybe none.
pub fn play<O: Sink>(
    alloc: Global,
    scenario: &Scenario,
    air: &mut Air,
    mode: Mode,
    out: &mut O,
) -> Result<(), PlayFault>
    requires scenario { IsScenario scenario.now }
    requires fresh { air.old ≡ new_air (start_of scenario.now) }
    ensures report { OnOk result
        (Adds (O.written out.old) (O.written out.new) (report_text_of mode scenario.now)) }
    ensures tags { OnOk result
        (air.new.tags ≡ tags_behind (start_of scenario.now) (history scenario.now)) }
    ensures exchanges { OnOk result (air.new.exchanges ≡ exchanges_in (history scenario.now)) }
    ensures write { IsErrOf result PlayFault.Write
        → FaultsRose (O.faults out.old) (O.faults out.new) }
    // Where there was no memory, and at the end, no write failed.
    ensures memory { IsErrOf result PlayFault.OutOfMemory → O.faults out.new ≡ O.faults out.old }
    ensures steady { OnOk result (O.faults out.new ≡ O.faults out.old) }
    ensures part { OnErr result
        ((front : List ℕ) × (rest : List ℕ) × (report_text_of mode scenario.now ≡ front ++ rest)
        × Adds (O.written out.old) (O.written out.new) front) }
    ensures count { O.faults out.old ≤ O.faults out.new }
    ensures heard_as_listed { OnOk result
        (AreHeardAsListed (start_of scenario.now) (history scenario.now)
        (report_of mode (start_of scenario.now) scenario.now.steps)) }
    ensures headline { OnOk result
        (Headline (start_of scenario.now) scenario.now.steps (history scenario.now)
        (report_of mode (start_of scenario.now) scenario.now.steps)) }
    ensures inventory { OnOk result (RoundsAreComplete scenario.now) }
{
    headline();
    rounds_are_complete();
    let mut line = String::with_capacity(alloc, LINE_ROOM)?;
    let mut spelling = ModeSpelling::new(alloc, mode, scenario.link)?;
    let mut report = TextReport::new(&mut spelling, out, &mut line);
    tell_scenario(alloc, scenario, air, &mut report)
}

/// Plays a scenario on its air, to which no command was sent yet, and tells a listener all of it, with a counter
/// of steps of its own.
pub(crate) fn tell_scenario<R: Listener>(
    alloc: Global,
    scenario: &Scenario,
    air: &mut Air,
    report: &mut R,
) -> Result<(), PlayFault>
    requires scenario { IsScenario scenario.now }
    requires fresh { air.old ≡ new_air (start_of scenario.now) }
    requires faultless { R.failed report.old ≡ None }
    ensures { PlaysOrFails R.hears R.failed result scenario.now report.old report.new air.new }
{
    tell_run::<Brand, R>(Blank::new(1), alloc, scenario, air, report)
}

/// Plays a scenario on its air, to which no command was sent yet, and tells a listener all of it. The blank is
/// for the counter of steps.
fn tell_run<L: Ledger, R: Listener>(
    blank: Blank,
    alloc: Global,
    scenario: &Scenario,
    air: &mut Air,
    report: &mut R,
) -> Result<(), PlayFault>
    requires name { blank.name ≡ L.name }
    requires parts { blank.parts ≡ L.parts }
    requires one { blank.parts ≡ 1 }
    requires scenario { IsScenario scenario.now }
    requires fresh { air.old ≡ new_air (start_of scenario.now) }
    requires faultless { R.failed report.old ≡ None }
    ensures { PlaysOrFails R.hears R.failed result scenario.now report.old report.new air.new }
{
    prove!(air.len() <= u32::from(MOST_TAGS));
    let bits = Bits::new(alloc, LONGEST_STREAM)?;
    let empty = empty_entry(alloc);
    let entries = EntryCursor::new(scenario.entries.as_slice(), &empty);
    let mut run = Run::<L>::new(entries, Steps::new(blank), bits);
    let mut seen = SeenCounts::new(alloc);
    let mut listener = SeenListener {
        report,
        seen: &mut seen,
        out_of_memory: false,
    };
    tell_whole(scenario, air, &mut run, &mut listener)
}

/// Tells a listener, through one that has counted nothing yet, all of a run.
fn tell_whole<'a, 'r, L: Ledger, R: Listener>(
    scenario: &Scenario,
    air: &mut Air,
    run: &mut Run<'a, L>,
    listener: &mut SeenListener<'r, R>,
) -> Result<(), PlayFault>
    requires first { IsNewRun scenario.now air.old run.old }
    requires seen { listener.old.seen.now ≡ [] }
    ensures report { listener.new.report.ghost_name ≡ listener.old.report.ghost_name }
    ensures told { PlaysOrFails R.hears R.failed result scenario.now listener.old.report.now
        listener.new.report.now air.new }
{
    round_laws();
    tell_steps(scenario, air, run, listener)?;
    run.finish(air, listener.seen, listener.report);
    check(listener.report)
}

/// Tells a listener all of a run up to its last step.
fn tell_steps<'a, L: Ledger, R: Listener>(
    scenario: &Scenario,
    air: &mut Air,
    run: &mut Run<'a, L>,
    report: &mut R,
) -> Result<(), PlayFault>
    requires { IsNewRun scenario.now air.old run.old }
    ensures ends { StandsOrFails R.hears R.failed result (begun_with scenario.now report.old)
        (history scenario.now) air.new run.new report.new }
    ensures faultless { OnOk result (R.failed report.new ≡ None) }
{
    let (numerator, denominator) = air.link().blf();
    report.tell(&Line::Blf {
        numerator,
        denominator,
    });
    run.play_steps(air, scenario.steps.as_slice(), report)?;
    check(report)
}
