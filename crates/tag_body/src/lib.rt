//! What a tag of the EPCglobal Class-1 Generation-2 standard, version 1.2.0, holds in every state: memory, locks, flags and
//! draws (6.3.2.1 to 6.3.2.5), and what changes them; and what it counts with: slot counter and Q.
#![tactic(auto)]

mod body;
mod round_numbers;

pub use body::{Body, Parts};
pub use round_numbers::{Slot, q_after_adjust};
