//! What the history and the report of every run say.
ghost use Rattle.std.specs.Prelude.{◌≡◌, ◌≢◌, ◌*◌, ◌≤◌, ◌⊎◌, Bool, ◌||◌, List, ◌∷◌, ◌++◌, length, filter, Some, None};
ghost use Rattle.access_ops.specs.laws.OperationLaws.{Expects};
ghost use Rattle.command_grammar.specs.Commands.{IsLegalCommand};
ghost use Rattle.tag_machine.specs.TagsInExchange.{AreLegalTags};
ghost use Rattle.air_model.specs.Channel.{got_of, heard_levels};
ghost use Rattle.air_model.specs.Past.{Start, Record, Item, exchanges_in, next_record, tags_behind};
ghost use Rattle.reply_wire.specs.Received.{IsReceived};
ghost use Rattle.air_model.specs.Reception.{reception_of, reception_with};
ghost use Rattle.air_model.specs.declared.got.Got.TheVariants.{Silence};
ghost use Rattle.runs.specs.EventsAndRecords.{events_and_records_of, IsConcluded};
ghost use Rattle.runs.specs.Headline.{AreHeardAsListed, AreLegalSteps, Headline, IsRecordOf, is_op_line, op_lines, most_exchanges};
ghost use Rattle.runs.specs.History.{history_of};
ghost use Rattle.runs.specs.NextItem.{GrowsByNext, next_item, expectation_of};
ghost use Rattle.runs.specs.Report.{report_of, report_text_of};
ghost use Rattle.runs.specs.ScenarioHistory.{history, start_of};
ghost use Rattle.report_lines.specs.declared.mode.Mode.{Mode};
ghost use Rattle.reply_wire.specs.Codes.{table_of};
ghost use Rattle.reply_grammar.specs.Reception.{reception_from};
ghost use Rattle.reply_grammar.specs.declared.expected.Expect.{Expect};
ghost use Rattle.reply_grammar.specs.declared.expected.Received.{Received};
ghost use Rattle.scenario.specs.Limits.{IsScenario};
ghost use Rattle.scenario.specs.Upgraded.{upgraded};
ghost use Rattle.scenario.specs.declared.values.Scenario.{Scenario};
ghost use Rattle.scenario.specs.declared.values.Step.{Step};

use access_ops::operation_commands;
use air_model::reception_law;
use q_round::round_laws;
use scenario::copies_are_tags;
use tag_machine::{answers_are_replies, steps_keep_tags_legal};

/// The headline. Each EPC listed is one that a present tag sent in that round and slot, where no raw levels
/// are given; each EPC that the channel gave whole is listed once; each tag
/// stands in the end as the commands that it heard and the events that name it leave it; and no round has
/// more slot commands than its limit. What is listed is what was heard in reply to an ACK, and each EPC that
/// was heard whole is listed once, also where raw levels come back that no tag sent.
pub fn headline()
    ensures run { (mode : Mode) (start : Start) (steps : List Step) → AreLegalSteps steps →
        Headline start steps (history_of start steps) (report_of mode start steps) }
    ensures scenario { (mode : Mode) (scenario : Scenario) → IsScenario scenario →
        Headline (start_of scenario) scenario.steps (history scenario)
        (report_of mode (start_of scenario) scenario.steps) }
    ensures heard_as_listed { (mode : Mode) (scenario : Scenario) → IsScenario scenario →
        AreHeardAsListed (start_of scenario) (history scenario)
        (report_of mode (start_of scenario) scenario.steps) }
{
    scenario_steps_are_legal();
    round_laws();
    answers_are_replies();
    steps_keep_tags_legal();
    histories_keep_tags_legal();
}

/// Written in version 2 of scenarios, a scenario has the same run and the same report, byte for byte.
pub fn upgraded_scenarios_run_the_same()
    ensures run { (scenario : Scenario) → history (upgraded scenario) ≡ history scenario }
    ensures report { (mode : Mode) (scenario : Scenario)
        → report_text_of mode (upgraded scenario) ≡ report_text_of mode scenario }
{}

/// The limits of a scenario give what the laws of a run want of its steps.
pub fn scenario_steps_are_legal()
    ensures { (scenario : Scenario) → IsScenario scenario → AreLegalSteps scenario.steps }
{}

/// The history of a run is the one list of items, the latest first, that starts empty, grows by the next
/// item alone, and stops where there is none. What comes next goes by the start, the steps and what is
/// past.
pub fn histories_grow_by_the_next_item()
    ensures grows { (start : Start) (steps : List Step) → AreLegalSteps steps
        → GrowsByNext start steps (history_of start steps) }
    ensures item { (start : Start) (steps : List Step) (later : List Item) (item : Item)
        (earlier : List Item) → AreLegalSteps steps →
        history_of start steps ≡ later ++ item ∷ earlier
        → next_item start steps earlier ≡ Some item }
    ensures stops { (start : Start) (steps : List Step) → AreLegalSteps steps
        → next_item start steps (history_of start steps) ≡ None }
    ensures one { (start : Start) (steps : List Step) (past : List Item) → AreLegalSteps steps →
        GrowsByNext start steps past → next_item start steps past ≡ None
        → past ≡ history_of start steps }
{
    round_laws();
}

/// Each record of a history is what its command makes of the tags as they stood behind what was past:
/// its number, what is said of it, who heard the command, what was replied and what the channel gave.
pub fn records_follow_from_the_past()
    ensures { (start : Start) (steps : List Step) (sent : Record) (earlier : List Item)
        → IsRecordOf (history_of start steps) sent earlier →
        sent ≡ next_record start sent.round sent.slot sent.command earlier }
{}

/// The lines for results of operations in the report are those of the results in the history, each one
/// once and in the order in which they came.
pub fn operations_are_told()
    ensures { (mode : Mode) (start : Start) (steps : List Step) →
        filter is_op_line (report_of mode start steps) ≡ op_lines (history_of start steps) }
{}

/// A run has at most one exchange for each Select or NAK, and for each slot that a round may have the
/// slot command, the ACK, one for the handle and four for each operation of the round. So it has at most
/// 9,170,000 for each of its steps.
pub fn exchanges_are_few()
    ensures most { (start : Start) (steps : List Step) → AreLegalSteps steps →
        exchanges_in (history_of start steps) ≤ most_exchanges steps }
    ensures few { (start : Start) (steps : List Step) → AreLegalSteps steps →
        exchanges_in (history_of start steps) ≤ 9170000 * length steps }
{
    round_laws();
}

/// Behind each past of the history of a scenario every tag is legal.
pub fn histories_keep_tags_legal()
    ensures { (scenario : Scenario) (later earlier : List Item) → IsScenario scenario
        → history scenario ≡ later ++ earlier →
        AreLegalTags (tags_behind (start_of scenario) earlier) }
{
    answers_are_replies();
    steps_keep_tags_legal();
    round_laws();
    operation_commands();
    copies_are_tags();
}

/// Each command of the history of a scenario has its numbers in their fields.
pub fn histories_send_legal_commands()
    ensures { (scenario : Scenario) (sent : Record) (earlier : List Item) → IsScenario scenario →
        IsRecordOf (history scenario) sent earlier → IsLegalCommand sent.command }
{
    answers_are_replies();
    steps_keep_tags_legal();
    round_laws();
    operation_commands();
    copies_are_tags();
}

/// What a history makes of a record is what is received of the levels that come, where a reply to an
/// inventory command or to a command of an operation is expected.
pub fn histories_hear_what_is_received()
    ensures inventory { (scenario : Scenario) (sent : Record) (earlier : List Item)
        (expect : Expect) (received : Received) → IsScenario scenario →
        IsRecordOf (history scenario) sent earlier → expectation_of sent.command ≡ Some expect
        → got_of scenario.link sent.given ≢ Silence →
        IsReceived (table_of scenario.link.code) scenario.link.trext expect
        (heard_levels scenario.link sent.given) received →
        reception_of expect sent.given ≡ reception_from received }
    ensures operations { (scenario : Scenario) (sent : Record) (earlier : List Item)
        (expect : Expect) (extended : Bool) (received : Received) → IsScenario scenario →
        IsRecordOf (history scenario) sent earlier → Expects sent.command expect extended
        → got_of scenario.link sent.given ≢ Silence →
        IsReceived (table_of scenario.link.code) (extended || scenario.link.trext) expect
        (heard_levels scenario.link sent.given) received →
        reception_with scenario.link.trext extended expect sent.given ≡ reception_from received }
{
    answers_are_replies();
    steps_keep_tags_legal();
    histories_keep_tags_legal();
    records_follow_from_the_past();
    reception_law();
}

/// Results of operations and ends of rounds say nothing that the events and the records don't: of two
/// pasts with the same events and records, which both grow by the next item alone, one is the other
/// behind further results and ends.
pub fn events_and_records_determine_a_past()
    ensures { (start : Start) (steps : List Step) (one other : List Item)
        → GrowsByNext start steps one → GrowsByNext start steps other →
        events_and_records_of one ≡ events_and_records_of other → IsConcluded one other
        ⊎ IsConcluded other one }
{}
