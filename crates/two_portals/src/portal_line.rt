//! What is said of one round of a portal.

use bit_strings::Session;

/// A round of a portal, as it went with the rounds of the other portal between, and as it went without them.
#[derive(Clone, Copy, Debug, PartialEq, Eq)]
pub struct PortalLine {
    /// The session of the portal.
    pub session: Session,
    /// The number of the round, counted from 1 over the rounds of the portal.
    pub number: u32,
    /// How many EPCs were listed with the other portal beside.
    pub joint: u32,
    /// How many were listed without it.
    pub alone: u32,
    /// Whether the round ended both times after a whole frame of silent slots.
    pub quiet: bool,
    /// Whether the same pairs of PC and EPC were listed both times, each as often.
    pub same: bool,
}
