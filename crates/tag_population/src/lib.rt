//! A population of tags with numbers: which of them wait for their slots, which hear a command, what becomes of each, and what they answer.
#![tactic(auto)]

mod answers;
mod floor;
mod participation;
mod population;
mod seat;
mod tag_set;
mod wheel;

pub use answers::{Answer, Answers};
pub use population::Population;
