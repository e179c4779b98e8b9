//! What an interrogator does next with a tag, and what it is answered.

use command_grammar::Command;
use reply_grammar::{Expect, ReadWords, Received};

/// How an operation ended (profile).
#[derive(Drop, Debug, PartialEq, Eq)]
pub enum OpResult {
    /// The tag did it. These are the words of a Read, and else no words.
    Ok(ReadWords),
    /// The tag answered with this error code (Annex I).
    TagError(u8),
    /// No reply came.
    Silent,
    /// What came was refused.
    Broken,
    /// Nothing was sent, since the list is for another EPC.
    Denied,
}

/// What was heard of a command.
#[derive(Drop, Debug, PartialEq, Eq)]
pub enum Answer {
    /// No stream of levels.
    Silence,
    /// A stream, with what was made of it.
    Got(Received),
}

/// What an interrogator does next with the tag that it has singulated.
#[derive(Drop, Debug, PartialEq, Eq)]
pub enum OpNext {
    /// It sends a command.
    Send {
        /// The command.
        command: Command,
        /// The reply that it expects.
        expect: Expect,
        /// Whether the reply comes with the extended preamble, whatever the TRext of the Query says
        /// (6.3.2.11.3.3 Write).
        extended: bool,
    },
    /// It tells the result of the next operation.
    Result(OpResult),
    /// It has done all.
    End,
}
