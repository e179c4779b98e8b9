//! A whole run: the history of a scenario on the air, and its report.
#![tactic(auto)]

mod hall;
mod playing;
mod portals;
mod receiving;
mod run;
mod seen_listener;
mod start;
mod summary;

pub use air_channel::Air;
pub use hall::AirHall;
pub use playing::play;
pub use portals::compare_portals;
pub use report_lines::{Mode, PlayFault};
pub use runs::Summary;
pub use start::{set_up, tags_at_start};
pub use summary::summarise;
