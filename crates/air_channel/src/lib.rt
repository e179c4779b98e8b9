//! The air between one interrogator and a population of tags: what goes over it in an exchange, as frames and streams.
#![tactic(auto)]

mod air;
mod channel;
mod receiver;

pub use air::Air;
pub use air_model::Got;
pub use tag_population::{Answer, Answers, Population};
