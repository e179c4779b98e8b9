//! Scenarios of either version as scenarios of version 2.
ghost use Rattle.std.specs.Prelude.{◌≡◌};
ghost use Rattle.scenario.specs.Limits.{IsScenario};
ghost use Rattle.scenario.specs.Upgraded.{upgraded};

use crate::Scenario;
use scenario_lines::Version;

/// The same scenario, of version 2. It takes no memory.
pub fn upgrade(scenario: Scenario) -> Scenario
    ensures same { result ≡ upgraded scenario }
    ensures legal { IsScenario scenario → IsScenario result }
    // Upgrading twice is upgrading once.
    ensures once { upgraded result ≡ result }
{
    Scenario {
        version: Version::Two,
        ..scenario
    }
}
