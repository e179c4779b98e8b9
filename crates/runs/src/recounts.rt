//! How often a population is to be read, so that every tag is counted although some rounds are spoiled.
ghost use Rattle.std.specs.Prelude.{◌≡◌, ℕ, ◌≤◌, ◌++◌, length};
ghost use Rattle.runs.specs.CompleteRound.{HasNumber};
ghost use Rattle.runs.specs.Headline.{AreLegalSteps};
ghost use Rattle.runs.specs.Recounts.{
  IsFresh,
  IsListedBySound,
  IsRecount,
  IsThere,
  Recount,
  enough_from_any,
  enough_from_fresh,
  steps_with,
};
ghost use Rattle.runs.specs.ScenarioHistory.{start_of};
ghost use Rattle.scenario.specs.Limits.{IsScenario};
ghost use Rattle.scenario.specs.declared.values.Scenario.{Scenario};
ghost use Rattle.tag_machine.specs.TagValue.{TagValue};

use crate::laws::scenario_steps_are_legal;
use q_round::{round_facts, round_laws};

/// A count that survives faults. Rounds of one session and one Sel stand side by side, with targets
/// in turn. At most so many of them are unsound, however they were spoiled; the others are honest and
/// ended quiet. Then one of the sound rounds lists each tag that is present, and that Sel allows,
/// where each sound round begins: the tag itself sent the PC and the EPC that are listed.
///
/// Where F rounds may be unsound, 2 F + 1 rounds are enough that begin with target A, for a tag that
/// has flag A in that session when they begin, and isn't acknowledged, open or secured in it; and
/// 2 F + 2 rounds whatever the first target and the tag were. A sound round leaves each tag that may
/// take part with the flag that the next round asks for, so that two sound rounds side by side list
/// it; and of so many rounds two sound ones stand side by side, or each second one is sound.
pub fn recounts_list_every_tag()
    ensures fresh { (recount : Recount) (unsound number : ℕ) (tag : TagValue)
        → AreLegalSteps (steps_with recount) → IsRecount recount unsound
        → enough_from_fresh unsound ≤ length recount.rounds
        → HasNumber recount.start number tag → IsThere recount number tag
        → IsFresh recount number tag → IsListedBySound recount number tag }
    ensures any { (recount : Recount) (unsound number : ℕ) (tag : TagValue)
        → AreLegalSteps (steps_with recount) → IsRecount recount unsound
        → enough_from_any unsound ≤ length recount.rounds
        → HasNumber recount.start number tag → IsThere recount number tag
        → IsListedBySound recount number tag }
    ensures scenario_fresh { (scenario : Scenario) (recount : Recount) (unsound number : ℕ)
        (tag : TagValue)
        → IsScenario scenario → recount.start ≡ start_of scenario
        → scenario.steps ≡ steps_with recount
        → IsRecount recount unsound → enough_from_fresh unsound ≤ length recount.rounds
        → HasNumber recount.start number tag → IsThere recount number tag
        → IsFresh recount number tag → IsListedBySound recount number tag }
    ensures scenario_any { (scenario : Scenario) (recount : Recount) (unsound number : ℕ)
        (tag : TagValue)
        → IsScenario scenario → recount.start ≡ start_of scenario
        → scenario.steps ≡ steps_with recount
        → IsRecount recount unsound → enough_from_any unsound ≤ length recount.rounds
        → HasNumber recount.start number tag → IsThere recount number tag
        → IsListedBySound recount number tag }
{
    scenario_steps_are_legal();
    round_laws();
    round_facts();
}
