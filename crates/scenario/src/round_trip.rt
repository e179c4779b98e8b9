//! Scenarios written and read again, and texts read and written again.
ghost use Rattle.std.specs.Prelude.{◌≡◌, IfOk, IfErr};
ghost use Rattle.scenario.specs.Limits.{IsScenario};
ghost use Rattle.scenario.specs.ScenarioText.{IsScenarioText};
ghost use Rattle.scenario.specs.Faults.{IsRefused};

use crate::printing::print_scenario;
use crate::read_scenario;
use crate::values::Scenario;
use air_io::Bytes;
use checked_lines::Unread;
use std::alloc::Global;

/// The scenario that is read from the text of a scenario: it is the same, unless there is no memory.
pub fn print_and_read(alloc: Global, scenario: &Scenario) -> Result<Scenario, Unread>
    requires { IsScenario scenario.now }
    ensures same { IfOk result (λ again. again ≡ scenario.now) }
    ensures err { IfErr result (λ fault. fault ≡ Unread.OutOfMemory) }
{
    let text = print_scenario(alloc, scenario)?;
    read_scenario(alloc, text.as_slice())
}

/// The text of the scenario that is read from a text: it is the same, byte by byte, where the text is
/// that of a scenario and there is memory.
pub fn read_and_print(alloc: Global, text: &[u8]) -> Result<Bytes, Unread>
    ensures same { IfOk result (λ again. (again ≡ text.now) × IsScenarioText text.now) }
    ensures refused { IfErr result (IsRefused text.now) }
{
    let scenario = read_scenario(alloc, text)?;
    Ok(print_scenario(alloc, &scenario)?)
}
