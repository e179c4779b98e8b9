//! Two portals over one scenario.
ghost use Rattle.std.specs.Prelude.{◌≡◌, IfOk};
ghost use Rattle.runs.specs.PortalHistories.{IsOfPortals, portals_told, specs_of};
ghost use Rattle.scenario.specs.Limits.{IsScenario};

use crate::hall::AirHall;
use bit_strings::OutOfMemory;
use q_round::RoundSpec;
use runs::portal_rounds_are_played;
use scenario::Scenario;
use std::alloc::Global;
use two_portals::{PortalLine, compare};

/// Plays the rounds of a scenario of two portals, which have these parameters, in the hall that both portals share, and
/// those of each portal in a hall of its own. It gives a line for each round, portal 2's first.
///
/// # Errors
///
/// There was no memory.
pub fn compare_portals(
    alloc: Global,
    scenario: &Scenario,
    specs: &[RoundSpec],
) -> Result<Vec<PortalLine>, OutOfMemory>
    requires scenario { IsScenario scenario.now }
    requires portals { IsOfPortals scenario.now }
    requires specs { specs.now ≡ specs_of scenario.now.steps }
    ensures { IfOk result (λ lines. lines.items ≡ portals_told scenario.now) }
{
    portal_rounds_are_played();
    let joint = AirHall::new(alloc, scenario)?;
    let alone2 = AirHall::new(alloc, scenario)?;
    let alone3 = AirHall::new(alloc, scenario)?;
    compare(alloc, joint, alone2, alone3, specs)
}
