//! What a run is made of, and the text that describes it, written and read. All of it is profile.
//!
//! A scenario has one spelling. The reader goes over the lines once, and refuses the first line that no
//! scenario can have there, with the first reason that applies.
#![tactic(auto)]

mod copies_and_upgrades;
mod draft;
mod printing;
mod progress;
mod reading;
mod round_trip;
mod text_laws;
mod upgrading;
mod values;

pub use access_ops::{Op, OpList};
pub use air_events::{Choice, Entry, Event, Several};
pub use checked_lines::{FaultReason, FaultyLine, Unread, fault_text};
pub use copies_and_upgrades::{copies_are_tags, upgraded_scenarios_are_legal};
pub use printing::print_scenario;
pub use q_round::RoundSpec;
pub use reading::read_scenario;
pub use round_trip::{print_and_read, read_and_print};
pub use scenario_lines::{TagSpec, Version};
pub use text_laws::{
    faulty_lines_begin_no_text, lines_begin_a_scenario, lines_say_a_scenario,
    reasons_tell_of_lines_before, scenario_texts_are_not_faulty, scenarios_are_said,
    scenarios_are_told_apart, texts_are_scenarios_or_faulty, texts_have_one_fault,
};
pub use upgrading::upgrade;
pub use values::{Scenario, Step, TagGroup};
