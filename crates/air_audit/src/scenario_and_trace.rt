//! A scenario and behind it a trace.
ghost use Rattle.std.specs.Prelude.{◌≡◌, ◌≤◌, IsFalse, IsTrue, length};
ghost use Rattle.air_audit.specs.OwnTraces.{HasNoEventStep};
ghost use Rattle.air_audit.specs.ScenarioAndTrace.{scenario_part, trace_part};

use scenario::Step;
use text_fields::split_line;

/// The bytes up to and with the first line `end`, which are the scenario, or all where there is none, and the bytes behind them.
pub fn split_scenario(input: &[u8]) -> (&[u8], &[u8])
    ensures scenario { result.0.now ≡ scenario_part input.now }
    ensures trace { result.1.now ≡ trace_part input.now }
    ensures shorter { length result.1.now ≤ length input.now }
{
    let mut rest = input;
    while let Some((line, behind)) = split_line(rest) {
        if line == b"end".as_slice() {
            return input.split_at(input.len() - behind.len());
        }
        rest = behind;
    }
    input.split_at(input.len())
}

/// Whether an event is among the steps, of which no line of a trace tells.
pub fn has_event_step(steps: &[Step]) -> bool
    ensures yes { IsTrue result → ¬ HasNoEventStep steps.now }
    ensures no { IsFalse result → HasNoEventStep steps.now }
{
    for step in steps {
        if let Step::Event(_, _) = step {
            return true;
        }
    }
    false
}
