//! The word `audit`: whether a trace is what the tags of a scenario and its channel make of the commands in it.
ghost use Rattle.std.specs.Prelude.{◌≡◌, ◌≤◌, ◌⊎◌, ℕ, List, IfOk, length};
ghost use Rattle.scenario.specs.Limits.{IsScenario};
ghost use Rattle.top_call.specs.Job.{Defines, IsLawful};
ghost use Rattle.top_call.specs.StatusMeanings.{EndsSo, input_limit, sink_change};
ghost use Rattle.top_call.specs.words.Audit.{SaysEvent, SaysVerdict, audit_job};

use crate::ending::{WriteEnd, Wrote, write_text};
use crate::words::refusal::write_refusal;
use air_audit::{
    audit, event_text, has_event_step, list_lines_are_received, split_scenario,
    traces_have_a_verdict, traces_have_at_most_one_verdict, verdict_text,
};
use air_io::Sink;
use air_world::tags_at_start;
use arrayvec::ArrayVec;
use bit_strings::OutOfMemory;
use runs::histories_keep_tags_legal;
use scenario::{
    Scenario, read_scenario, scenario_texts_are_not_faulty, scenarios_are_told_apart,
    texts_are_scenarios_or_faulty, texts_have_one_fault,
};
use std::alloc::Global;

/// Writes what is defined for the bytes of an input: the verdict on the trace behind the scenario, or the one line that reports
/// the first faulty line of the scenario.
pub fn write_audited<O: Sink>(
    alloc: Global,
    input: &[u8],
    output: &mut O,
) -> Result<Wrote, WriteEnd>
    requires { length input.now ≤ input_limit }
    ensures { EndsSo audit_job input.now
        (sink_change O.written O.faults output.old output.new) result }
{
    let (text, trace) = split_scenario(input);
    match read_scenario(alloc, text) {
        Ok(scenario) => {
            let line = audited_line(alloc, scenario, trace)?;
            write_text(Wrote::Text, line.as_slice(), output)
        }
        Err(fault) => write_refusal(fault, output),
    }
}

/// The line that says what a trace is behind a scenario.
fn audited_line(
    alloc: Global,
    scenario: Scenario,
    trace: &[u8],
) -> Result<ArrayVec<u8, 32>, OutOfMemory>
    requires scenario { IsScenario scenario }
    requires trace { length trace.now ≤ input_limit }
    ensures { IfOk result (λ line. SaysEvent scenario line.items
        ⊎ SaysVerdict scenario trace.now line.items) }
{
    if has_event_step(scenario.steps.as_slice()) {
        return Ok(event_text());
    }
    let tags = tags_at_start(alloc, &scenario)?;
    let Scenario {
        version: _,
        link,
        several,
        groups: _,
        entries,
        steps: _,
    } = scenario;
    let verdict = audit(alloc, tags, link, entries, several, trace)?;
    Ok(verdict_text(verdict))
}

/// An input has one verdict or one fault line at most, and never both; and the list lines of a trace that is audited are what is
/// received.
pub fn audit_is_lawful()
    ensures { IsLawful audit_job }
{
    list_lines_are_received();
    histories_keep_tags_legal();
    scenarios_are_told_apart();
    texts_have_one_fault();
    scenario_texts_are_not_faulty();
    traces_have_at_most_one_verdict();
}

/// Each list of bytes has a defined text: the verdict on the trace behind the scenario that it begins with, or that scenario's fault
/// line.
pub fn audit_inputs_have_a_text()
    ensures { (bytes : List ℕ) → (text : List ℕ) × Defines audit_job bytes text }
{
    texts_are_scenarios_or_faulty();
    traces_have_a_verdict();
}
