//! The word `portals`: what two portals that share tags list, beside what each would list alone.
ghost use Rattle.std.specs.Prelude.{◌≡◌, None, IfOk, ℕ, List};
ghost use Rattle.std.specs.String.{string_bytes};
ghost use Rattle.top_call.specs.PortalFault.{portal_fault};
ghost use Rattle.top_call.specs.PortalText.{portals_text};
ghost use Rattle.runs.specs.PortalHistories.{portals_told};
ghost use Rattle.scenario.specs.Limits.{IsScenario};
ghost use Rattle.top_call.specs.Job.{Defines, IsLawful};
ghost use Rattle.top_call.specs.StatusMeanings.{EndsSo, sink_change};
ghost use Rattle.top_call.specs.words.Portals.{portals_job};

use crate::ending::{WriteEnd, Wrote, write_text};
use crate::portal_faults::{portal_fault, portal_scenarios};
use crate::portal_rounds::round_specs;
use crate::portal_text::portals_text;
use crate::words::refusal::write_refusal;
use air_io::Sink;
use air_world::compare_portals;
use runs::portals_are_independent;
use scenario::{
    Scenario, read_scenario, scenario_texts_are_not_faulty, scenarios_are_told_apart,
    texts_are_scenarios_or_faulty, texts_have_one_fault,
};
use std::alloc::{AllocError, Global};
use text_fields::fault_line;

/// Writes what is defined for the bytes of an input: the lines of the two portals of the scenario that they spell, or the
/// one line that reports the first faulty line.
pub fn write_portals<O: Sink>(
    alloc: Global,
    input: &[u8],
    output: &mut O,
) -> Result<Wrote, WriteEnd>
    ensures { EndsSo portals_job input.now
        (sink_change O.written O.faults output.old output.new) result }
{
    match read_scenario(alloc, input) {
        Ok(scenario) => match portal_fault(&scenario) {
            None => {
                let text = text_of_portals(alloc, &scenario)?;
                write_text(Wrote::Text, text.as_bytes(), output)
            }
            Some(number) => {
                let line = fault_line(number, "portal");
                write_text(Wrote::FaultLine, line.as_slice(), output)
            }
        },
        Err(fault) => write_refusal(fault, output),
    }
}

/// The text of the lines of the two portals of a scenario.
fn text_of_portals(alloc: Global, scenario: &Scenario) -> Result<String, AllocError>
    requires scenario { IsScenario scenario.now }
    requires portals { portal_fault scenario.now ≡ None }
    ensures { IfOk result (λ text. string_bytes text ≡ portals_text (portals_told scenario.now)) }
{
    portal_scenarios();
    let specs = round_specs(alloc, scenario.steps.as_slice())?;
    let lines = compare_portals(alloc, scenario, specs.as_slice())?;
    portals_text(alloc, lines.as_slice())
}

/// An input has one text of its two portals or one fault line at most, and never both; where each line of the text says
/// that its round ended after a whole frame of silent slots, each portal lists with the other beside what it lists alone.
pub fn portals_are_lawful()
    ensures { IsLawful portals_job }
{
    scenarios_are_told_apart();
    texts_have_one_fault();
    scenario_texts_are_not_faulty();
    portal_scenarios();
    portals_are_independent();
}

/// Each list of bytes has a defined text under `portals`.
pub fn portals_inputs_have_a_text()
    ensures { (bytes : List ℕ) → (text : List ℕ) × Defines portals_job bytes text }
{
    texts_are_scenarios_or_faulty();
}
