//! What tags answer, as bits: each reply by what is expected of it.
#![tactic(auto)]

mod decode;
mod encode;
mod expected;
mod laws;
mod reply_words;

pub use decode::{decode_reply, decode_reply_to};
pub use encode::{
    encode_epc, encode_error, encode_handle, encode_header, encode_reply, encode_rn16, encode_words,
};
pub use expected::{Expect, Received, Reply, ReplyRefusal};
pub use laws::{reply_laws, reply_length, suiting_law};
pub use reply_words::{EpcWords, ReadWords, WordList};
