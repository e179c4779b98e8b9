//! The flags of a tag, how a Select changes them, how its mask is compared with a bank, and the words
//! that a tag draws (6.3.2.2, 6.3.2.3, 6.3.2.5 and 6.3.2.11.1.1 of the EPCglobal Class-1 Generation-2
//! standard, version 1.2.0).
#![tactic(auto)]

mod draw_words;
mod flags;
mod mask;

pub use draw_words::DrawWords;
pub use flags::{Effect, Flags};
pub use mask::mask_matches;
