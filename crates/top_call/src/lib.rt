//! The top call of Siulanke: what the words of the command line ask for, read from a source and written to a sink.
//!
//! Here stand besides what `--help` and `--version` write, and the texts of two portals.
#![tactic(auto)]

mod ending;
mod forms;
mod help_and_version;
mod laws;
mod portal_faults;
mod portal_rounds;
mod portal_text;
mod program;
mod status;
mod words;

pub use ending::MOST_INPUT_BYTES;
pub use forms::{Form, form_of, form_of_one, form_of_three, form_of_two, reads_input};
pub use help_and_version::{help_text, version_number, version_text};
pub use laws::{
    forms_are_told_apart, grammatical_inputs_are_not_refused, inputs_have_one_text, jobs_are_lawful,
};
pub use portal_faults::portal_scenarios;
pub use program::{gen2run, gen2run_surely};
pub use status::Status;
pub use words::audit::{audit_inputs_have_a_text, audit_is_lawful};
pub use words::decode::decode_is_lawful;
pub use words::encode::encode_is_lawful;
pub use words::generate::gen_is_lawful;
pub use words::judge::{judge_inputs_have_a_text, judge_is_lawful};
pub use words::names::{names_are_lawful, names_inputs_have_a_text};
pub use words::objects::objects_are_lawful;
pub use words::own_texts::own_texts_are_lawful;
pub use words::portals::{portals_are_lawful, portals_inputs_have_a_text};
pub use words::probe::probe_is_lawful;
pub use words::run::{run_inputs_have_a_text, run_is_lawful};
pub use words::upgrade::{upgrade_inputs_have_a_text, upgrade_is_lawful};
