//! What a run counts.

/// What a run counted.
#[derive(Clone, Copy, Debug, PartialEq, Eq)]
pub struct Summary {
    /// How many tags there are.
    pub tags: u32,
    /// How often an EPC was listed, whether a tag sent it or a raw stream brought it.
    pub listed: u64,
    /// How many different pairs of PC and EPC were listed.
    pub distinct: u64,
    /// How many slot commands all rounds had.
    pub slots: u64,
    /// Each round ended quiet, none by its limit.
    pub quiet: bool,
}
