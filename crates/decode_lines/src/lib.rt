//! Decode lines: what each line of a text of captures and bit strings asks for, and the line that answers it
//! (the texts are profile).
#![tactic(auto)]

mod answer;
mod answer_lines;
mod laws;
mod lines;
mod raw_field;
mod request;
mod source;

pub use checked_lines::{FaultReason, FaultyLine, fault_text};
pub use laws::{
    decode_lines_are_not_faulty, decode_lines_have_a_text, decode_lines_have_one_text,
    requests_have_an_answer,
};
pub use raw_field::RawField;
pub use request::{Request, RequestKind};
pub use source::answer_source;
