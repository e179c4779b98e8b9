//! Runs of scenarios, as definitions and their laws: the one history of a run, its listing, its report and its summary, what two portals
//! list, and which tags an honest round counts (6.3.2.8 Inventorying Tag populations of the EPCglobal Class-1 Generation-2 standard, version
//! 1.2.0).
#![tactic(auto)]

mod inventory;
mod laws;
mod recounts;
mod rounds;
mod summary;

pub use inventory::{
    complete_inventory, honest_rounds_count_tags, list_lines_are_of_listed_tags,
    quiet_runs_list_every_tag, rounds_are_complete, rounds_are_honest_where_nothing_is_said,
    rounds_go_by_replies,
};
pub use laws::{
    events_and_records_determine_a_past, exchanges_are_few, headline,
    histories_grow_by_the_next_item, histories_hear_what_is_received, histories_keep_tags_legal,
    histories_send_legal_commands, operations_are_told, records_follow_from_the_past,
    scenario_steps_are_legal, upgraded_scenarios_run_the_same,
};
pub use recounts::recounts_list_every_tag;
pub use rounds::{
    portal_rounds_are_played, portals_are_independent, rounds_go_by_tags, rounds_list_their_tags,
};
pub use summary::Summary;
