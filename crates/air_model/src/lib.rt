//! What one exchange makes of a population of tags, what the channel gives the interrogator of their replies, and what is past in a
//! run: definitions and their law, with no air behind them.
#![tactic(auto)]

mod got;
mod laws;

pub use got::Got;
pub use laws::reception_law;
