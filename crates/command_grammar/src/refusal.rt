//! What comes of bits that are taken one at a time.

use thiserror::Error;

/// The field of a command that a bit stands in which no command has there.
#[derive(Clone, Copy, Debug, PartialEq, Eq, Error)]
pub enum Reason {
    /// The command code (6.3.2.11, Table 6.18).
    #[error("the command code")]
    Code,
    /// UpDn of a QueryAdjust: 110, 000 or 011.
    #[error("UpDn")]
    UpDn,
    /// Target of a Select: 000 to 100.
    #[error("Target")]
    Target,
    /// MemBank of a Select: 01 to 11 (profile: 00 is no bank for a mask).
    #[error("MemBank")]
    Bank,
    /// Pointer or WordPtr, an extensible bit vector: the shortest spelling, of at most four blocks
    /// (profile).
    #[error("an extensible bit vector")]
    Ebv,
    /// Truncate of a Select: 0 (profile).
    #[error("Truncate")]
    Truncate,
    /// The three bits of a Kill behind the covered half: 000.
    #[error("the three bits behind the half of a kill password")]
    KillBits,
    /// WordCount of a BlockWrite or BlockErase: 1 to 255 (profile: 0 is none).
    #[error("WordCount")]
    Count,
    /// CRC-5 of a Query.
    #[error("CRC-5")]
    Crc5,
    /// CRC-16.
    #[error("CRC-16")]
    Crc16,
    /// No field: the bits before are a whole command.
    #[error("a bit behind the command")]
    Extra,
}

/// Why bits are no command.
#[derive(Clone, Copy, Debug, PartialEq, Eq, Error)]
pub enum CommandRefusal {
    /// The bits before this place, counted from 0, begin some command, and with the bit there they
    /// begin none.
    #[error("no command goes on with the bit at place {0}: {1}")]
    At(u32, Reason),
    /// The bits, of this number, begin some command and are none.
    #[error("the {0} bits begin a command and are none")]
    Short(u32),
}

/// What the bits are that were pushed so far.
#[derive(Clone, Copy, Debug, PartialEq, Eq)]
pub enum Pushed {
    /// They begin some command and are none.
    More,
    /// They are a command.
    Whole,
    /// No command begins so: the first place, counted from 0, at which none goes on so, and the
    /// field there.
    Bad(u32, Reason),
}
