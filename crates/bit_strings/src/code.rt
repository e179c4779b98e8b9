//! The line codes that an interrogator can ask for.

/// The code and the number of subcarrier cycles a bit that the M field of a Query sets for the
/// backscatter (6.3.2.11.2.1 Query).
#[derive(Clone, Copy, Debug, PartialEq, Eq)]
pub enum Code {
    /// M is 00: FM0 baseband, one cycle a bit.
    Fm0,
    /// M is 01: Miller-modulated subcarrier, two cycles a bit.
    M2,
    /// M is 10: four cycles a bit.
    M4,
    /// M is 11: eight cycles a bit.
    M8,
}
