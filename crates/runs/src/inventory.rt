//! What an honest round of a run says of the tags that it lists.
ghost use Rattle.std.specs.List.{AllZip};
ghost use Rattle.std.specs.Prelude.{◌≡◌, ℕ, ◌+◌, Bool, List, [], ◌∷◌, ◌++◌, Some};
ghost use Rattle.access_ops.specs.declared.OpList.{OpList};
ghost use Rattle.air_model.specs.Channel.{raw};
ghost use Rattle.air_model.specs.Past.{Start, Record, Item};
ghost use Rattle.air_events.specs.Entries.{no_entry, entry_at};
ghost use Rattle.air_events.specs.declared.Several.TheVariants as severals;
ghost use Rattle.bit_strings.specs.declared.code.Code.{Code};
ghost use Rattle.runs.specs.Headline.{AreLegalSteps, HasNoRawStream, IsLegalRound, IsRecordOf, rounds_of};
ghost use Rattle.runs.specs.History.{history_of};
ghost use Rattle.runs.specs.ScenarioHistory.{history, start_of};
ghost use Rattle.runs.specs.CompleteRound.{CompleteInventory};
ghost use Rattle.runs.specs.CompleteRounds.{RoundsAreComplete};
ghost use Rattle.runs.specs.CountedTags.{CountedRound};
ghost use Rattle.runs.specs.EveryTag.{AllTakePart, HaveOwnEpcs, ListsEveryTag};
ghost use Rattle.runs.specs.Honest.{IsHonest, IsApart};
ghost use Rattle.runs.specs.ListLines.{IsEntryOf, IsOfRepliesIn, entries_in};
ghost use Rattle.runs.specs.Listed.{sender_listed_by, tags_listed_in};
ghost use Rattle.runs.specs.MomentsOfRound.{ending_of};
ghost use Rattle.q_round.specs.SpecValue.{SpecValue};
ghost use Rattle.q_round.specs.declared.round.RoundEnd.TheVariants as ends;
ghost use Rattle.scenario.specs.Limits.{IsScenario};
ghost use Rattle.scenario.specs.declared.values.Scenario.{Scenario};
ghost use Rattle.scenario.specs.declared.values.Step.{Step};
ghost use Rattle.scenario.specs.declared.values.Step.TheVariants as steps;

use crate::laws::{records_follow_from_the_past, scenario_steps_are_legal};
use crate::recounts::recounts_list_every_tag;
use q_round::{round_facts, round_laws};

/// Complete inventory. In an honest round of a run no tag is listed twice, and only tags that the Query
/// matched are; at each slot command the flag of the round's session is inverted for the tag that was
/// listed in the slot before, and no other flag of any tag changes; where the round ends quiet, exactly
/// the matched tags are listed; and where it ends by its limit, each matched tag that isn't listed has
/// its flags unchanged. Tags are told apart by their numbers, and not by their EPCs.
///
/// It holds for each rule for Q that an interrogator may have: of the rule it takes no more than what
/// `round_facts` says, and that a round has an end within its limit (`limit` of `round_laws`). Where the
/// channel gives one of several replies whole, the round is to be apart: two tags with one RN16 would both
/// answer its ACK.
pub fn complete_inventory()
    ensures run { (start : Start) (taken before after : List Step) (spec : SpecValue)
        (operations : OpList) → AreLegalSteps taken →
        taken ≡ before ++ steps.Round spec operations ∷ after
        → IsHonest (history_of start taken) (rounds_of before + 1) operations →
        (start.several ≡ severals.Capture
        → IsApart (history_of start taken) (rounds_of before + 1)) →
        CompleteInventory start (history_of start taken) (rounds_of before + 1) spec.session }
    ensures scenario { (scenario : Scenario) (before after : List Step) (spec : SpecValue)
        (operations : OpList) → IsScenario scenario →
        scenario.steps ≡ before ++ steps.Round spec operations ∷ after
        → IsHonest (history scenario) (rounds_of before + 1) operations →
        ((start_of scenario).several ≡ severals.Capture
        → IsApart (history scenario) (rounds_of before + 1)) →
        CompleteInventory (start_of scenario) (history scenario)
        (rounds_of before + 1) spec.session }
{
    scenario_steps_are_legal();
    round_laws();
    round_facts();
}

/// The same as a user sees it. An honest round of a run ended; each tag that it lists is one that is
/// present and whose flags the Query speaks to, and it is listed once; where the round ended quiet, each
/// such tag is listed. At its end the flag of the round's session is inverted for the tags that were
/// listed before the last slot, and no other flag, no memory and no lock of any tag has changed since
/// the Query.
pub fn honest_rounds_count_tags()
    ensures run { (start : Start) (taken before after : List Step) (spec : SpecValue)
        (operations : OpList) → AreLegalSteps taken →
        taken ≡ before ++ steps.Round spec operations ∷ after
        → IsHonest (history_of start taken) (rounds_of before + 1) operations →
        (start.several ≡ severals.Capture
        → IsApart (history_of start taken) (rounds_of before + 1)) →
        CountedRound start (history_of start taken) (rounds_of before + 1) spec }
    ensures scenario { (scenario : Scenario) (before after : List Step) (spec : SpecValue)
        (operations : OpList) → IsScenario scenario →
        scenario.steps ≡ before ++ steps.Round spec operations ∷ after
        → IsHonest (history scenario) (rounds_of before + 1) operations →
        ((start_of scenario).several ≡ severals.Capture
        → IsApart (history scenario) (rounds_of before + 1)) →
        CountedRound (start_of scenario) (history scenario) (rounds_of before + 1) spec }
{
    scenario_steps_are_legal();
    round_laws();
    round_facts();
}

/// A round without operations is honest where nothing is said of the exchange of any of its records, and
/// so where nothing is said of any exchange.
pub fn rounds_are_honest_where_nothing_is_said()
    ensures exchanges { (start : Start) (taken : List Step) (round : ℕ) (operations : OpList)
        → operations.ops ≡ [] →
        ((sent : Record) (earlier : List Item) → IsRecordOf (history_of start taken) sent earlier
        → sent.round ≡ round →
        entry_at start.entries sent.exchange ≡ no_entry) →
        IsHonest (history_of start taken) round operations }
    ensures run { (start : Start) (taken : List Step) (round : ℕ) (operations : OpList)
        → operations.ops ≡ [] → start.entries ≡ [] →
        IsHonest (history_of start taken) round operations }
{
    records_follow_from_the_past();
}

/// A run of one round in which nothing is said of any exchange, over tags that are ready, each with flags
/// that the Query speaks to, and no two with one EPC: where the round ends quiet, the run has as many
/// list lines as tags, and as many different pairs of PC and EPC.
pub fn quiet_runs_list_every_tag()
    ensures { (start : Start) (spec : SpecValue) (operations : OpList) (slots : ℕ)
        (past : List Item) → IsLegalRound spec operations →
        AllTakePart start spec → HaveOwnEpcs start → start.entries ≡ [] → operations.ops ≡ [] →
        (start.several ≡ severals.Capture
        → IsApart (history_of start (steps.Round spec operations ∷ [])) 1) →
        ending_of 1 (history_of start (steps.Round spec operations ∷ []))
        ≡ Some (record { end = ends.Quiet; slots = slots; past = past }) →
        ListsEveryTag start (history_of start (steps.Round spec operations ∷ [])) }
{
    round_laws();
    round_facts();
    rounds_are_honest_where_nothing_is_said();
}

/// The list lines of a round of a history in which no ACK is answered by a raw stream, in order, are those
/// of the tags that are listed in it: each line tells what a record of the round lists, and that tag sent
/// it.
pub fn list_lines_are_of_listed_tags()
    ensures { (history : List Item) (round : ℕ) → IsOfRepliesIn round history →
        AllZip (IsEntryOf history round) (entries_in round history) (tags_listed_in round history) }
{}

/// No ACK of a round is answered by a raw stream where none is chosen in the run, and none of an honest
/// round, of whose exchanges nothing is said. A raw stream names no sender: what a record lists of one is
/// no tag's.
pub fn rounds_go_by_replies()
    ensures run { (start : Start) (taken : List Step) (round : ℕ) → HasNoRawStream start.entries
        → IsOfRepliesIn round (history_of start taken) }
    ensures honest { (start : Start) (taken : List Step) (round : ℕ) (operations : OpList)
        → IsHonest (history_of start taken) round operations →
        IsOfRepliesIn round (history_of start taken) }
    ensures sender { (sent : Record) (code : Code) (trext : Bool) (levels : List Bool)
        → sent.given ≡ raw code trext levels → sender_listed_by sent ≡ [] }
{
    records_follow_from_the_past();
}

/// What the honest rounds of the run of a scenario prove, in one: each counts its tags, and leaves them, as
/// the three laws above say; and rounds that count the same tags again make up for spoiled ones among them, as
/// `recounts_list_every_tag` says.
pub fn rounds_are_complete()
    ensures { (scenario : Scenario) → IsScenario scenario → RoundsAreComplete scenario }
{
    complete_inventory();
    honest_rounds_count_tags();
    list_lines_are_of_listed_tags();
    recounts_list_every_tag();
}
