//! The word `upgrade`: a scenario of either version as the text of version 2.
ghost use Rattle.std.specs.Prelude.{◌≡◌, ℕ, List};
ghost use Rattle.top_call.specs.Job.{Defines, IsLawful};
ghost use Rattle.top_call.specs.StatusMeanings.{EndsSo, sink_change};
ghost use Rattle.top_call.specs.words.Upgrade.{upgrade_job};

use crate::ending::{WriteEnd, Wrote, write_text};
use crate::words::refusal::write_refusal;
use air_io::Sink;
use runs::upgraded_scenarios_run_the_same;
use scenario::{
    print_scenario, read_scenario, scenario_texts_are_not_faulty, scenarios_are_told_apart,
    texts_are_scenarios_or_faulty, texts_have_one_fault, upgrade, upgraded_scenarios_are_legal,
};
use std::alloc::Global;

/// Writes what is defined for the bytes of an input: the text of version 2 of the scenario that they spell, or the one
/// line that reports the first faulty line.
pub fn write_upgraded<O: Sink>(
    alloc: Global,
    input: &[u8],
    output: &mut O,
) -> Result<Wrote, WriteEnd>
    ensures { EndsSo upgrade_job input.now
        (sink_change O.written O.faults output.old output.new) result }
{
    match read_scenario(alloc, input) {
        Ok(scenario) => {
            let upgraded = upgrade(scenario);
            let text = print_scenario(alloc, &upgraded)?;
            write_text(Wrote::Text, text.as_slice(), output)
        }
        Err(fault) => write_refusal(fault, output),
    }
}

/// An input has one text of version 2 or one fault line at most, and never both; that text has the reports of the input,
/// and is what is written for itself.
pub fn upgrade_is_lawful()
    ensures { IsLawful upgrade_job }
{
    scenarios_are_told_apart();
    texts_have_one_fault();
    scenario_texts_are_not_faulty();
    upgraded_scenarios_are_legal();
    upgraded_scenarios_run_the_same();
}

/// Each list of bytes has a defined text under `upgrade`.
pub fn upgrade_inputs_have_a_text()
    ensures { (bytes : List ℕ) → (text : List ℕ) × Defines upgrade_job bytes text }
{
    texts_are_scenarios_or_faulty();
}
