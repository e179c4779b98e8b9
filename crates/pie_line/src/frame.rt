//! What is said of a frame: which header it has, what is read from it, and why a list is none.
ghost use Rattle.std.specs.Prelude.{◌≡◌};

use thiserror::Error;

/// With which header a frame begins.
#[derive(Clone, Copy, Debug, PartialEq, Eq)]
pub enum Lead {
    /// The preamble, which begins a Query (6.3.1.2.8).
    Preamble,
    /// The frame-sync, which begins every other command.
    FrameSync,
}

/// The header that was read from a frame, with the durations that it set, in nanoseconds.
#[derive(Clone, Copy, Debug, PartialEq, Eq)]
pub enum FrameKind {
    /// A preamble, with a data-0, RTcal and TRcal.
    Preamble {
        /// The length of the data-0 behind the delimiter.
        tari: u32,
        /// RTcal, the length of a data-0 and a data-1.
        rtcal: u32,
        /// TRcal, by which the link from the tag is set.
        trcal: u32,
    },
    /// A frame-sync, with a data-0 and RTcal.
    FrameSync {
        /// The length of the data-0 behind the delimiter.
        tari: u32,
        /// RTcal, the length of a data-0 and a data-1.
        rtcal: u32,
    },
}

impl FrameKind {
    ghost use Rattle.pie_line.specs.FrameState.{rtcal_of};

    /// RTcal of the preamble or of the frame-sync, in nanoseconds.
    pub fn rtcal(self) -> u32
        ensures { result ≡ rtcal_of self }
    {
        match self {
            FrameKind::Preamble { rtcal, .. } => rtcal,
            FrameKind::FrameSync { rtcal, .. } => rtcal,
        }
    }
}

/// Why a list of intervals is no frame. All but `Unfinished` name the first interval with which the
/// list begins no frame any more, in whatever way it goes on (the names are profile).
#[derive(Clone, Copy, Debug, PartialEq, Eq, Error)]
pub enum PieRefusal {
    /// The delimiter, interval 0, lasts less than 11,875 or more than 13,125 nanoseconds.
    #[error("the delimiter is not 11,875 to 13,125 ns long")]
    Delimiter,
    /// Interval 1 or 2 makes no pair that could be the first data-0.
    #[error("the first pair is no data-0")]
    Tari,
    /// Interval 3 or 4 makes no pair that could be RTcal.
    #[error("the second pair is no RTcal")]
    RtCal,
    /// Interval 5 or 6, which is not 0, makes no pair that could be TRcal or a data symbol.
    #[error("the third pair is neither a TRcal nor a data symbol")]
    TrCal,
    /// The interval at this place is 0, at place 5 or 6, or makes no data symbol, at a later place.
    #[error("the interval at place {0} makes no data symbol")]
    Symbol(u32),
    /// All intervals, of which there are so many, begin a frame, and they are none.
    #[error("the {0} intervals begin a frame and are none")]
    Unfinished(u32),
}
