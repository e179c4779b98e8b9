//! The word `run`, alone or with `trace`, `json`, `exchanges` or `vcd` behind it: the report of a scenario, in the mode that they name.
ghost use Rattle.std.specs.Prelude.{◌≡◌, ℕ, List};
ghost use Rattle.report_lines.specs.declared.mode.Mode.{Mode};
ghost use Rattle.top_call.specs.Job.{Defines, IsLawful};
ghost use Rattle.top_call.specs.StatusMeanings.{EndsSo, sink_change};
ghost use Rattle.top_call.specs.words.Run.{run_job};

use crate::ending::{WriteEnd, Wrote};
use crate::words::refusal::write_refusal;
use air_audit::own_traces_are_audited;
use air_io::Sink;
use air_world::{Mode, play, set_up};
use runs::{headline, rounds_are_complete};
use scenario::{
    read_scenario, scenario_texts_are_not_faulty, scenarios_are_told_apart,
    texts_are_scenarios_or_faulty, texts_have_one_fault,
};
use std::alloc::Global;

/// Writes what is defined for the bytes of an input: the report of the scenario that they spell, or the one
/// line that reports the first faulty line.
pub fn write_report<O: Sink>(
    alloc: Global,
    mode: Mode,
    input: &[u8],
    output: &mut O,
) -> Result<Wrote, WriteEnd>
    ensures { EndsSo (run_job mode) input.now
        (sink_change O.written O.faults output.old output.new) result }
{
    match read_scenario(alloc, input) {
        Ok(scenario) => {
            let mut air = set_up(alloc, &scenario)?;
            play(alloc, &scenario, &mut air, mode, output)?;
            Ok(Wrote::Text)
        }
        Err(fault) => write_refusal(fault, output),
    }
}

/// An input has one report or one fault line at most, and never both; a report says its headline, and what its
/// honest rounds prove, and a trace is audited.
pub fn run_is_lawful()
    ensures { (mode : Mode) → IsLawful (run_job mode) }
{
    scenarios_are_told_apart();
    texts_have_one_fault();
    scenario_texts_are_not_faulty();
    headline();
    rounds_are_complete();
    own_traces_are_audited();
}

/// Each list of bytes has a defined text in each mode of `run`: the report of the scenario that it spells, or its
/// fault line.
pub fn run_inputs_have_a_text()
    ensures { (mode : Mode) (bytes : List ℕ) → (text : List ℕ) × Defines (run_job mode) bytes text }
{
    texts_are_scenarios_or_faulty();
}
