//! The versions of a scenario's text.

/// The version of a scenario's text.
#[derive(Clone, Copy, Debug, PartialEq, Eq)]
pub enum Version {
    /// Version 1: each tag has a line of its own, and a round gives the number by which a slot moves Qfp.
    One,
    /// Version 2: one line may stand for several copies of a tag, and a round names its rule for Q.
    Two,
}
