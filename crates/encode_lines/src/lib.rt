//! Encode lines: what each line of a text asks to be encoded, and the line that is written for it, which `decode` reads back
//! (the texts are profile).
#![tactic(auto)]

mod checking;
mod encoder;
mod laws;
mod output;
mod request;

pub use checked_lines::{FaultReason, FaultyLine, fault_text};
pub use checking::check_lines;
pub use encoder::Encoder;
pub use laws::{
    encode_lines_are_not_faulty, encode_lines_have_a_text, encode_lines_have_one_text,
    requests_have_a_line,
};
pub use request::{Durations, LineKind, Request};
