//! A scenario, read from its text.
ghost use Rattle.std.specs.Prelude.{◌≡◌, ◌⊎◌, ℕ, IfOk, IfErr};
ghost use Rattle.scenario.specs.declared.values.Scenario.{Scenario};
ghost use Rattle.scenario.specs.Limits.{IsScenario};
ghost use Rattle.scenario.specs.ScenarioText.{scenario_text};
ghost use Rattle.scenario.specs.Faults.{IsFirstScenarioFault, IsRefused};
ghost use Rattle.checked_lines.specs.declared.fault.FaultReason.{FaultReason};
ghost use Rattle.scenario.specs.ReaderAnswers.{SaysScenario};

use crate::progress::Progress;
use crate::text_laws::line_laws;
use crate::values::Scenario;
use checked_lines::Unread;
use std::alloc::Global;
use text_fields::split_line;

/// The scenario that the lines of a text say.
fn read_lines(alloc: Global, text: &[u8]) -> Result<Scenario, Unread>
    ensures ok { IfOk result (SaysScenario text.now) }
    ensures refused { IfErr result (IsRefused text.now) }
{
    let mut progress = Progress::Start;
    let mut rest = text;
    let mut number = 1;
    while let Some((line, behind)) = split_line(rest) {
        progress.take(alloc, line, number)?;
        rest = behind;
        number += 1;
    }
    progress.finish(rest, number)
}

/// The scenario that a text spells.
///
/// # Errors
///
/// The first faulty line, counted from 1, with the first reason that applies to it; or there was no
/// memory.
pub fn read_scenario(alloc: Global, text: &[u8]) -> Result<Scenario, Unread>
    // What is read is spelled so.
    ensures ok { IfOk result
        (λ scenario. IsScenario scenario × (text.now ≡ scenario_text scenario)) }
    // What is spelled so is read, unless memory runs out.
    ensures only { (said : Scenario) → IsScenario said → text.now ≡ scenario_text said
        → IfOk result (λ scenario. scenario ≡ said)
        × IfErr result (λ fault. fault ≡ Unread.OutOfMemory) }
    // Which line is faulty, and why.
    ensures refused { IfErr result (IsRefused text.now) }
    // A text with a first faulty line is refused with its number and its reason, unless memory runs out.
    ensures exact { (number : ℕ) (fault : FaultReason) → IsFirstScenarioFault text.now number fault
        → IfErr result
        (λ refusal. (refusal ≡ Unread.Line (record { line = number; reason = fault }))
        ⊎ (refusal ≡ Unread.OutOfMemory)) × IfOk result (λ scenario. ⊥) }
{
    // By the laws of lines, the text of a scenario has no faulty line, and no text two first faults.
    line_laws();
    read_lines(alloc, text)
}
