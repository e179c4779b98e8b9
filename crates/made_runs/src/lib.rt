//! Scenarios made of a seed, and their runs: tags with numbered EPCs, whose random words come from a generator, and one
//! round, which lists every tag where it ended quiet. What is made is profile.
#![tactic(auto)]

mod laws;
mod link_and_round;
mod making;

pub use laws::quiet_made_runs_list_every_tag;
pub use making::{MOST_MADE_TAGS, made_scenario};
