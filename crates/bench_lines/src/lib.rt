//! Texts of one tag at the bench: a probe, which says line by line what is done to it and is answered with what the tag answers and is then; and
//! a log, which is judged: whether it can be that of a tag that follows the standard's tables (Annex B and Annex C), whatever it drew. The lines
//! are profile.
#![tactic(auto)]

mod bench_reading;
mod effect;
mod events;
mod judging;
mod log_entries;
mod log_laws;
mod log_reading;
mod log_tag;
mod playing;
mod probe;
mod probe_laws;
mod probe_line;
mod probe_printing;
mod seen_fields;
mod stimuli;
mod verdict_printing;

pub use checked_lines::{FaultReason, FaultyLine, Unread, fault_text};
pub use judging::judge_log;
pub use log_laws::{
    log_texts_are_not_faulty, log_texts_have_one_fault, log_texts_have_one_verdict,
    logs_are_told_apart, texts_are_logs_or_faulty,
};
pub use playing::play;
pub use probe::{Probe, read_probe};
pub use probe_laws::{
    line_laws, probe_texts_are_not_faulty, probe_texts_have_one_fault, probes_are_told_apart,
    probes_have_one_text, stimuli_have_one_effect,
};
pub use verdict_printing::push_verdict;
