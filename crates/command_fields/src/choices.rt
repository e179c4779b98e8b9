//! What the fields of a command may be.

/// Which tags a Query speaks to, by their selected flag (6.3.2.11.2.1 Query, Sel).
#[derive(Clone, Copy, Debug, PartialEq, Eq)]
pub enum Sel {
    /// All tags, spelled 00.
    All00,
    /// All tags, spelled 01.
    All01,
    /// The tags whose SL is deasserted.
    NotSl,
    /// The tags whose SL is asserted.
    Sl,
}

/// The value of an inventoried flag (6.3.2.2 Sessions and inventoried flags).
#[derive(Clone, Copy, Debug, PartialEq, Eq)]
pub enum Side {
    /// A, as the flags of a new tag are.
    A,
    /// B.
    B,
}

/// What a QueryAdjust does to Q (6.3.2.11.2.2 QueryAdjust).
#[derive(Clone, Copy, Debug, PartialEq, Eq)]
pub enum UpDn {
    /// Q rises by one.
    Up,
    /// Q stays.
    Same,
    /// Q falls by one.
    Down,
}

/// A bank of a tag's memory (6.3.2.1 Tag memory).
#[derive(Clone, Copy, Debug, PartialEq, Eq)]
pub enum Bank {
    /// The kill and access passwords (6.3.2.1.1 Reserved memory).
    Reserved,
    /// StoredCRC, PC and the EPC (6.3.2.1.2 EPC memory).
    Epc,
    /// What names the tag's maker and model (6.3.2.1.3 TID memory).
    Tid,
    /// The user's own words (6.3.2.1.4 User memory).
    User,
}

/// A bank that a Select may compare its mask with (6.3.2.11.1.1 Select): every bank but Reserved.
#[derive(Clone, Copy, Debug, PartialEq, Eq)]
pub enum MaskBank {
    /// The EPC bank.
    Epc,
    /// The TID bank.
    Tid,
    /// The User bank.
    User,
}

/// A flag that a Select may change (6.3.2.11.1.1 Select, Target): the inventoried flag of a session,
/// or the selected flag.
#[derive(Clone, Copy, Debug, PartialEq, Eq)]
pub enum FlagName {
    /// The inventoried flag of session S0.
    S0,
    /// The inventoried flag of session S1.
    S1,
    /// The inventoried flag of session S2.
    S2,
    /// The inventoried flag of session S3.
    S3,
    /// The selected flag SL.
    Sl,
}
