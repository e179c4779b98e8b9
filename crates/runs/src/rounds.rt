//! What a round of a plain run depends on.
ghost use Rattle.std.specs.Prelude.{◌≡◌, List, [], All, true};
ghost use Rattle.access_ops.specs.declared.OpList.{OpList};
ghost use Rattle.air_model.specs.Past.{Start, Item};
ghost use Rattle.q_round.specs.SpecValue.{SpecValue, IsLegalSpec};
ghost use Rattle.q_round.specs.declared.round.RoundEnd.TheVariants as ends;
ghost use Rattle.runs.specs.PortalHistories.{ArePortalsIndependent, IsOfPortals, portals_told, specs_of};
ghost use Rattle.runs.specs.RoundsTold.{GoesByTags, IsBetweenRounds, IsPlain, played_of};
ghost use Rattle.runs.specs.ScenarioHistory.{start_of};
ghost use Rattle.scenario.specs.Limits.{IsScenario};
ghost use Rattle.scenario.specs.declared.values.Scenario.{Scenario};
ghost use Rattle.tag_machine.specs.TagValue.{TagValue};
ghost use Rattle.two_portals.specs.Played.{AreReady, IsQuietRound, ListsItsTags};
ghost use Rattle.two_portals.specs.PortalLines.{portal_lines};

use crate::laws::scenario_steps_are_legal;
use q_round::round_laws;

/// A round without operations, in a run in which nothing is said of any exchange, depends on what is past through its
/// tags alone: it lists, ends and leaves the tags as the round of a run that begins with them. The link has no part in
/// it.
pub fn rounds_go_by_tags()
    ensures { (start : Start) (operations : OpList) (spec : SpecValue) (past : List Item)
        → IsPlain start → operations.ops ≡ [] → IsLegalSpec spec →
        IsBetweenRounds past → GoesByTags start operations spec past }
{
    round_laws();
}

/// What a round makes of tags, whichever way it ends: it lists different tags, each with its own PC and EPC. Where it ended
/// after a whole frame of silent slots, and the tags were ready before it, these are exactly the tags that its Query names;
/// then each tag is ready again, with the flag of the session inverted exactly where it was listed, and all else as
/// before.
pub fn rounds_list_their_tags()
    ensures senders { (tags : List TagValue) (spec : SpecValue) → IsLegalSpec spec
        → ListsItsTags tags (played_of tags spec) }
    ensures quiet { (tags : List TagValue) (spec : SpecValue) → IsLegalSpec spec → AreReady tags
        → (played_of tags spec).end ≡ ends.Quiet →
        IsQuietRound tags spec (played_of tags spec) }
{}

/// The lines of two portals, as the three histories of a scenario tell them, are those of its rounds as they are played
/// one after the other: in the hall that both share, and in that of each portal alone.
pub fn portal_rounds_are_played()
    ensures { (scenario : Scenario) → IsScenario scenario → IsOfPortals scenario →
        portals_told scenario
        ≡ portal_lines played_of (start_of scenario).tags (specs_of scenario.steps) }
{
    scenario_steps_are_legal();
}

/// Two portals don't disturb each other: where every round of the three histories of a scenario ended after a whole frame
/// of silent slots, each round of a portal has in the joint history the senders that it has in the history of that
/// portal alone, and lists the same pairs of PC and EPC. Tags are told apart by their numbers.
pub fn portals_are_independent()
    ensures { (scenario : Scenario) → IsScenario scenario → IsOfPortals scenario
        → All (λ line. line.quiet ≡ true) (portals_told scenario) →
        ArePortalsIndependent scenario }
{
    scenario_steps_are_legal();
}
