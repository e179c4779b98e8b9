//! The waves of a run as a value change dump (IEEE 1364), an exchange after another. All of it is profile.
#![tactic(auto)]

mod dump;
mod exchanged;
mod signals;
mod times;
mod values;
mod waves;

pub use dump::{Dump, push_head};
pub use exchanged::{Exchanged, Gave};
