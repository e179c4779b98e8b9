//! What an interrogator makes of the levels that it hears: the reply that they carry, or where they carry none; and the four line
//! codes of a reply, by the name that a Query gives them.
#![tactic(auto)]

mod codes_by_name;
mod line_code_laws;
mod receive_reply;
mod received_laws;

pub use bit_strings::Code;
pub use codes_by_name::{decode_levels, encode_bits};
pub use line_code::LineRefusal;
pub use line_code_laws::{code_laws, stream_length};
pub use receive_reply::receive;
pub use received_laws::{kinds_received, one_received, reply_received};
pub use reply_grammar::{EpcWords, Expect, Received, Reply};
