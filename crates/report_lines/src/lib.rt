//! What a run tells, line by line, and who hears it: the lines of its report, their text, and the counts of what was listed. All of it
//! is profile.
#![tactic(auto)]

mod exchange_lines;
mod json_shapes;
mod json_writing;
mod laws;
mod line;
mod line_fields;
mod line_writing;
mod listener;
mod member_texts;
mod mode;
mod mode_spelling;
mod naming;
mod operation_line;
mod rx_reading;
mod seen_counts;
mod spelling;
mod tag_line;
mod text_report;
mod tx_reading;

pub use exchange_lines::{push_answer_line, push_exchange_line, push_given_line, push_missed_line};
pub use json_writing::push_json_line;
pub use laws::{lines_have_names, objects_need_no_escape, seen_laws};
pub use line::Line;
pub use line_fields::first_field;
pub use line_writing::{
    push_blf_line, push_done_line, push_list_line, push_round_line, push_rx_line, push_seen_line,
    push_tx_line,
};
pub use listener::Listener;
pub use member_texts::MemberTexts;
pub use mode::{Mode, PlayFault};
pub use mode_spelling::ModeSpelling;
pub use naming::listed_sgtin;
pub use operation_line::push_op_line;
pub use rx_reading::read_rx_line;
pub use seen_counts::SeenCounts;
pub use spelling::{Spelling, push_line};
pub use tag_line::{push_next_flags, push_next_state, push_tag_line};
pub use text_report::TextReport;
pub use tx_reading::{MOST_INTERVALS, read_tx_line};
