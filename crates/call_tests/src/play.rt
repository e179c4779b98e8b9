//! A whole run. Scenarios with their reports stand in rows/runs; here is what the air is behind one, which no report shows.
ghost use Rattle.std.specs.Prelude.{◌≡◌, ◌<◌, IfSome, length};
ghost use Rattle.air_world.specs.NewAir.{new_air};
ghost use Rattle.runs.specs.ScenarioHistory.{start_of};
ghost use Rattle.scenario.specs.Limits.{IsScenario};

use air_channel::Air;
use air_io::SureSink;
use air_world::{Mode, play, set_up};
use scenario::{Scenario, read_scenario};
use std::alloc::Global;
use std::marker::Brand;
use std::sync::ledger::{Blank, Ledger};
use tag_machine::{AnyTag, Steps};

/// Row `one-tag`: one tag in one round.
const ONE_TAG: &[u8] = b"gen2 1
link 12500 31250 50000 6250 1 fm0 0
tag 00000000 00000000 0000000000 08001234 E2000001 - A1B2
round all 0 a 0 300 5
end
";

/// Whether the first tag is in ready, with the ledger of the blank for the counter of the step that this may take.
fn is_first_ready<L: Ledger>(blank: Blank, air: &mut Air) -> bool
    requires name { blank.name ≡ L.name }
    requires parts { blank.parts ≡ L.parts }
    requires one { blank.parts ≡ 1 }
    requires some { 0 < length air.old.tags }
{
    let mut steps = Steps::<L>::new(blank);
    matches!(air.tag(0, &mut steps), AnyTag::Ready(_))
}

/// That scenario; none where there is no memory.
fn one_tag(alloc: Global) -> Option<Scenario>
    ensures { IfSome result IsScenario }
{
    read_scenario(alloc, ONE_TAG).ok()
}

/// How many exchanges there are behind the run of a scenario on its air, and whether its first tag is in ready.
fn behind_run(alloc: Global, scenario: &Scenario, air: &mut Air) -> Option<(u64, bool)>
    requires scenario { IsScenario scenario.now }
    requires fresh { air.old ≡ new_air (start_of scenario.now) }
{
    play(alloc, scenario, air, Mode::Plain, &mut SureSink::new()).ok()?;
    if air.len() == 0 {
        return None;
    }
    let is_ready = is_first_ready::<Brand>(Blank::new(1), air);
    Some((air.exchanges(), is_ready))
}

/// The same of one tag.
fn behind_one_tag(alloc: Global) -> Option<(u64, bool)> {
    let scenario = one_tag(alloc)?;
    let mut air = set_up(alloc, &scenario).ok()?;
    behind_run(alloc, &scenario, &mut air)
}

#[test]
fn the_air_is_as_the_run_left_it(rt: HostRuntime) {
    assert!(rt; behind_one_tag(rt.alloc()) == Some((3, true)));
}
