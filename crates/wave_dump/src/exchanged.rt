//! An exchange that is over.
use bit_strings::Bits;
use command_grammar::Command;
use reply_grammar::Reply;

/// What the channel gave the interrogator.
#[derive(Drop, Debug, PartialEq, Eq)]
pub enum Gave {
    /// Nothing.
    Silence,
    /// The reply of the tag with this number, whole.
    Whole(u32, Reply),
    /// That of the tag with this number, with the level inverted that has this place in it, counted from 0.
    Broken(u32, u32),
    /// Levels that are no tag's reply.
    Raw,
}

/// What was sent in an exchange and what came of it.
#[derive(Clone, Copy)]
pub struct Exchanged<'a> {
    /// Its number, counted from 1 over the whole run.
    pub number: u64,
    /// The command.
    pub command: &'a Command,
    /// The intervals of the frame, in nanoseconds: a low, a high, and so on.
    pub intervals: &'a [u32],
    /// How many tags replied.
    pub replies: u32,
    /// What the channel gave.
    pub given: &'a Gave,
    /// The levels that came.
    pub levels: &'a Bits,
}
