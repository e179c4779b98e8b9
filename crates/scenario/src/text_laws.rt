//! What holds of the lines and the texts of scenarios. Each function here states one law by its contract,
//! and does nothing but call the laws that it follows from.
ghost use Rattle.std.specs.Prelude.{◌≡◌, ◌⊎◌, ◌↔◌, ℕ, ◌<◌, List};
ghost use Rattle.scenario_lines.specs.declared.keywords.Keyword.{Keyword};
ghost use Rattle.scenario_lines.specs.declared.line.Line.{Line};
ghost use Rattle.scenario.specs.declared.values.Scenario.{Scenario};
ghost use Rattle.checked_lines.specs.declared.fault.FaultReason.{FaultReason};
ghost use Rattle.scenario.specs.ScenarioText.{scenario_lines, scenario_text, IsScenarioText};
ghost use Rattle.scenario.specs.Limits.{IsScenario};
ghost use Rattle.scenario.specs.laws.LineLaws.{LineLaws};
ghost use Rattle.scenario.specs.Faults.{DisagreesBy, IsFirstScenarioFault};
ghost use Rattle.scenario.specs.OrderFaults.{DisagreesWith, IsFullBefore, MayStandBehind};
ghost use Rattle.scenario.specs.Beginnings.{BeginsScenario, FirstLinesBegin};
ghost use Rattle.scenario.specs.Draft.{DraftValue, scenario_of};
ghost use Rattle.scenario.specs.Standing.{HasRoomForLine, IsSaid, LinesLead, MayStand, ended, ScenarioStanding, start, within};

use scenario_lines::{
    lines_are_field_texts, lines_are_told_apart, lines_begin_or_are_faulty,
    lines_begin_with_one_keyword, lines_have_one_fault, lines_say_something_or_are_faulty,
    spelled_lines_are_not_faulty,
};

/// What the laws of single lines of a scenario say, together.
pub(crate) fn line_laws()
    ensures { LineLaws }
{
    lines_are_field_texts();
    lines_are_told_apart();
    lines_begin_with_one_keyword();
    spelled_lines_are_not_faulty();
    lines_have_one_fault();
    lines_begin_or_are_faulty();
    lines_say_something_or_are_faulty();
}

/// Lines that follow one another from the start to the end are the lines of a scenario that keeps the
/// limits.
#[tactic(auto, using(crate::proofs::Settled::said_scenario))]
pub fn lines_say_a_scenario()
    ensures { (draft : DraftValue) (said : List Line) → LinesLead start said (ended draft)
        → (said ≡ scenario_lines (scenario_of draft)) × IsScenario (scenario_of draft) }
{}

/// The lines of a scenario that keeps the limits follow one another from the start to the end, and say
/// it.
#[tactic(auto, using(crate::proofs::Spoken::scenario_is_said))]
pub fn scenarios_are_said()
    ensures { (scenario : Scenario) → IsScenario scenario
        → IsSaid scenario (scenario_lines scenario) }
{}

/// Lines that follow one another from the start are the first lines of some scenario that keeps the
/// limits, wherever they lead.
#[tactic(auto, using(crate::proofs::FirstLines::said_begins))]
pub fn lines_begin_a_scenario()
    ensures { (said : List Line) (standing : ScenarioStanding) → LinesLead start said standing
        → BeginsScenario said }
{}

/// Two scenarios with one text are one.
pub fn scenarios_are_told_apart()
    ensures { (one other : Scenario) → IsScenario one → IsScenario other
        → scenario_text one ≡ scenario_text other → one ≡ other }
{
    line_laws();
}

/// The text of a scenario has no faulty line.
pub fn scenario_texts_are_not_faulty()
    ensures { (scenario : Scenario) (number : ℕ) (fault : FaultReason) → IsScenario scenario
        → IsFirstScenarioFault (scenario_text scenario) number fault → ⊥ }
{
    line_laws();
}

/// As the text of a scenario, bytes have at most one first faulty line, which has one first reason.
pub fn texts_have_one_fault()
    ensures { (bytes : List ℕ) (one other : ℕ) (fault reason : FaultReason)
        → IsFirstScenarioFault bytes one fault
        → IsFirstScenarioFault bytes other reason
        → (one ≡ other) × (fault ≡ reason) }
{
    line_laws();
}

/// Each list of bytes is the text of a scenario, or has a first faulty line with a first reason.
pub fn texts_are_scenarios_or_faulty()
    ensures { (bytes : List ℕ) → IsScenarioText bytes
        ⊎ ((number : ℕ) × (fault : FaultReason) × IsFirstScenarioFault bytes number fault) }
{
    line_laws();
}

/// The number of the first faulty line is the least one for which so many first lines begin no
/// scenario's text, where a missing or an unended line counts as a line.
pub fn faulty_lines_begin_no_text()
    ensures before { (bytes : List ℕ) (number : ℕ) (fault : FaultReason) (below : ℕ)
        → IsFirstScenarioFault bytes number fault → below < number → FirstLinesBegin bytes below }
    ensures faulty { (bytes : List ℕ) (number : ℕ) (fault : FaultReason)
        → IsFirstScenarioFault bytes number fault
        → ¬ FirstLinesBegin bytes number }
{
    line_laws();
}

/// The reasons `word`, `limit`, `copies`, `tag`, `order` and `twice`, and `number` of a round of the other version,
/// said of the lines before a line: a line of its kind may not stand behind them; there are as many tags, or
/// lines of its kind, already as there may be; the copies have no EPC to differ in, or with the tags before them
/// are too many; its tag has no line among them; an earlier air line is of a later exchange, or says of the same
/// one what has to stand behind; an earlier line is a choice for the same exchange; the first line names the
/// other version.
pub fn reasons_tell_of_lines_before()
    ensures word { (said : List Line) (standing : ScenarioStanding) (keyword : Keyword)
        → LinesLead start said standing
        → MayStand standing keyword ↔ MayStandBehind said keyword }
    ensures limit { (said : List Line) (draft : DraftValue) (keyword : Keyword)
        → LinesLead start said (within draft)
        → HasRoomForLine (within draft) keyword ↔ (¬ IsFullBefore said keyword) }
    ensures disagrees { (said : List Line) (draft : DraftValue) (line : Line) (fault : FaultReason)
        → LinesLead start said (within draft)
        → DisagreesBy draft line fault ↔ DisagreesWith said line fault }
{}
