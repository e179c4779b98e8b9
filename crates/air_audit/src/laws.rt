//! What holds of the verdicts on all traces.
ghost use Rattle.std.specs.Prelude.{◌≡◌, ℕ, List};
ghost use Rattle.air_model.specs.Past.{Start};
ghost use Rattle.report_lines.specs.declared.mode.Mode.TheVariants.{Trace};
ghost use Rattle.runs.specs.Report.{report_text_of};
ghost use Rattle.runs.specs.ScenarioHistory.{start_of};
ghost use Rattle.scenario.specs.Limits.{IsScenario};
ghost use Rattle.scenario.specs.declared.values.Scenario.{Scenario};
ghost use Rattle.tag_machine.specs.TagsInExchange.{AreLegalTags};
ghost use Rattle.air_audit.specs.AuditedTrace.{IsAudited};
ghost use Rattle.air_audit.specs.FirstRefusal.{IsAuditVerdict, IsFirstRefusal, IsFirstThatBeginsNone};
ghost use Rattle.air_audit.specs.OwnTraces.{HasNoEventStep};
ghost use Rattle.air_audit.specs.ReceivedLists.{ListsWhatIsReceived};
ghost use Rattle.air_audit.specs.declared.verdict.AuditReason.{AuditReason};
ghost use Rattle.air_audit.specs.declared.verdict.Verdict.{Verdict};

use command_grammar::spelling_laws;
use pie_line::{one_answer, written_frame};
use pie_text::numbers_or_refused;
use runs::{
    exchanges_are_few, histories_grow_by_the_next_item, histories_send_legal_commands,
    records_follow_from_the_past, scenario_steps_are_legal,
};
use tag_machine::{answers_are_replies, steps_keep_tags_legal};

/// No two verdicts on a trace are right: one that is audited has no refused line, and one that isn't has one first refused line,
/// which is refused for one first reason.
pub fn traces_have_at_most_one_verdict()
    ensures { (start : Start) (bytes : List ℕ) (one other : Verdict) →
        IsAuditVerdict start bytes one → IsAuditVerdict start bytes other → one ≡ other }
{
    one_answer();
    spelling_laws();
}

/// Each list of bytes has a verdict by each start: it is audited, or has a first refused line.
pub fn traces_have_a_verdict()
    ensures { (start : Start) (bytes : List ℕ) → (verdict : Verdict)
        × IsAuditVerdict start bytes verdict }
{
    numbers_or_refused();
    one_answer();
    spelling_laws();
}

/// The refused line is the first with which no audited trace goes on: the lines before it, and each fewer, begin one, and
/// those up to it don't.
pub fn refused_lines_end_the_beginnings()
    ensures { (start : Start) (bytes : List ℕ) (number : ℕ) (reason : AuditReason) →
        IsFirstRefusal start bytes number reason → IsFirstThatBeginsNone start bytes number }
{
    one_answer();
    spelling_laws();
}

/// Each list line of an audited trace stands behind the lines of an exchange that sent an ACK, and says the PC and the EPC that are
/// received of the levels which came.
pub fn list_lines_are_received()
    ensures { (start : Start) (bytes : List ℕ) → AreLegalTags start.tags → IsAudited start bytes →
        ListsWhatIsReceived start.link bytes }
{
    answers_are_replies();
    steps_keep_tags_legal();
}

/// The trace of each scenario without an event step is audited.
pub fn own_traces_are_audited()
    ensures { (scenario : Scenario) → IsScenario scenario → HasNoEventStep scenario.steps →
        IsAudited (start_of scenario) (report_text_of Trace scenario) }
{
    scenario_steps_are_legal();
    histories_grow_by_the_next_item();
    records_follow_from_the_past();
    histories_send_legal_commands();
    exchanges_are_few();
    written_frame();
    spelling_laws();
}
