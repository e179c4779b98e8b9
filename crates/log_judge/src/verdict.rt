//! What is judged of a log.

use crate::answer::Answer;

/// What a tag had to answer. A number that it draws at the command may be any.
#[derive(Drop)]
pub enum Want {
    /// This; where it is no answer, the tag had to be silent.
    Exactly(Answer),
    /// An RN16 that it draws.
    AnyRn16,
    /// A handle that it draws, or a cover.
    AnyHandle,
    /// Nothing, or an RN16 that it draws.
    NothingOrAnyRn16,
}

/// What is judged of a log of one tag. The log's first line has the number 3, and each answer has a line of its own.
#[derive(Drop)]
pub enum Verdict {
    /// It can be that of a tag that follows the tables, whatever it drew.
    Yes,
    /// It can be that of a tag which takes two liberties besides that the standard leaves: it may answer an error with another code, and
    /// need not have Access, BlockWrite and BlockErase.
    Profile {
        /// The number of the line of the first answer up to which no draws explain the log by the tables.
        number: u32,
        /// What had to be answered there by the tables.
        want: Want,
    },
    /// It can't be that of such a tag.
    No {
        /// The number of the line of the first answer up to which no draws explain the log, liberties taken.
        number: u32,
        /// What had to be answered there by the tables.
        want: Want,
    },
}
