//! Line codes of the link from tag to interrogator, apart from any one code: the trait that a code
//! implements, the encoder, and the decoder, which is proved once for every code.
#![tactic(auto)]

mod code;
mod decoder;
mod encoder;
mod laws;
mod masks;
mod refusal;
mod states;

pub use code::LineCode;
pub use decoder::{decode, same_levels};
pub use encoder::encode;
pub use laws::{one_answer, states_begin_streams};
pub use masks::word_of_levels;
pub use refusal::LineRefusal;
pub use states::{Ended, Inside, Seeking, Sought, Within};
