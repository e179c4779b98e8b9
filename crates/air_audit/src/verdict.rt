//! What is said of a trace.

/// Why a line is the first that no audited trace has, in the order in which the reasons are looked for.
#[derive(Clone, Copy, Debug, PartialEq, Eq)]
pub enum AuditReason {
    /// There is no such line, or it has no line feed.
    End,
    /// It stands behind the last line.
    Extra,
    /// It is the first line, and not that of the link.
    Blf,
    /// A list line must stand here and this is another line, or it is a list line that may not stand here.
    List,
    /// Its first field may not stand here.
    Word,
    /// The number of its fields is wrong.
    Shape,
    /// A field is not of its form.
    Number,
    /// It has not the number of the exchange.
    Exchange,
    /// The intervals are no frame, its bits are no command, or it has a preamble where the command is no Query, or none where
    /// it is one (6.3.1.2.8).
    Frame,
    /// Not so many tags replied.
    Count,
    /// Other levels came.
    Levels,
    /// It is not the line of the next tag.
    Tag,
}

/// The verdict on a trace.
#[derive(Clone, Copy, Debug, PartialEq, Eq)]
pub enum Verdict {
    /// It is audited.
    Yes,
    /// With the line of this number, counted from 1, no audited trace goes on, for this reason.
    No(u32, AuditReason),
}
