//! What the run of a made scenario lists.
ghost use Rattle.std.specs.Prelude.{◌≡◌, ℕ, true};
ghost use Rattle.made_runs.specs.CountsAll.{CountsAll};
ghost use Rattle.made_runs.specs.Made.{made_scenario};
ghost use Rattle.runs.specs.Summary.{summary_of};

use runs::{
    honest_rounds_count_tags, quiet_runs_list_every_tag, rounds_are_honest_where_nothing_is_said,
};

/// The run of a scenario that is made of a seed: where its summary says that the round ended quiet, a tag was
/// listed as often as there are tags, and as many different pairs of PC and EPC were.
pub fn quiet_made_runs_list_every_tag()
    ensures { (seed tags : ℕ) → (summary_of (made_scenario seed tags)).quiet ≡ true
        → CountsAll (summary_of (made_scenario seed tags)) tags }
{
    honest_rounds_count_tags();
    rounds_are_honest_where_nothing_is_said();
    quiet_runs_list_every_tag();
}
