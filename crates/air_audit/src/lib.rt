//! Audit of traces: whether a trace is what the standard's tags and the channel make of the commands in it.
#![tactic(auto)]

mod auditor;
mod expected_lines;
mod fields;
mod heard_levels;
mod laws;
mod rounds;
mod rx_line;
mod scenario_and_trace;
mod sent_frame;
mod stop;
mod trace_line_words;
mod traces;
mod verdict;
mod verdict_lines;

pub use laws::{
    list_lines_are_received, own_traces_are_audited, refused_lines_end_the_beginnings,
    traces_have_a_verdict, traces_have_at_most_one_verdict,
};
pub use scenario_and_trace::{has_event_step, split_scenario};
pub use traces::audit;
pub use verdict::{AuditReason, Verdict};
pub use verdict_lines::{event_text, verdict_text};
