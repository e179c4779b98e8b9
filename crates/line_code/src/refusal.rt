//! Why a list of levels is no stream.

use thiserror::Error;

/// Why a list of levels is refused. Each comes at the first place where it is certain.
#[derive(Clone, Copy, Debug, PartialEq, Eq, Error)]
pub enum LineRefusal {
    /// The levels before this place, counted from 0, begin some stream, and with the level there
    /// they begin none.
    #[error("no stream goes on with the level at place {0}")]
    Invalid(u32),
    /// All the levels, this many, begin some stream, and are none.
    #[error("the {0} levels begin a stream and are none")]
    Unfinished(u32),
}
