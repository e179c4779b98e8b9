//! What befalls a tag or the channel besides commands: events of tags, and what a scenario says of one
//! exchange after another; and the numbers of tags. All of it is profile: the standard leaves power, time
//! and the channel to the world.
#![tactic(auto)]

mod cursor;
mod tag_number;

use bit_strings::List;
use command_fields::FlagName;
pub use cursor::{EntryCursor, empty_entry};
pub use tag_number::{MOST_TAGS, TagNumber};

/// What befalls one tag besides commands.
#[derive(Clone, Copy, Debug, PartialEq, Eq)]
pub enum Event {
    /// The time T2 passes in which a tag waits for its interrogator (6.3.1.6 Link timing).
    Timeout,
    /// The tag loses power.
    Off,
    /// The tag gets power.
    On,
    /// The persistence of a flag ends (6.3.2.2 Sessions and inventoried flags, the table of persistence).
    Expire(FlagName),
}

/// How many levels the longest stream has that a tag sends, which are as many as a raw stream has at most.
pub const LONGEST_STREAM: u32 = 131_968;

/// What the channel gives in an exchange, in place of its default.
#[derive(Drop)]
pub enum Choice {
    /// The stream of the reply with this number, counted from 0 in the order of the tags, or silence
    /// where there is none.
    Pick(u32),
    /// Silence.
    Silent,
    /// The first reply's stream with one level inverted: that at this number modulo the stream's length.
    Break(u32),
    /// Exactly these levels, whether or not a tag replies: those of a jammer, say, or of a reply that is
    /// played back. There is one for each half period of the backscatter link frequency, from the first
    /// on, and true is the high one. There are at most [`LONGEST_STREAM`] of them.
    Raw(List<bool>),
}

/// What the channel gives in each exchange where several tags reply and nothing is chosen for that exchange.
#[derive(Clone, Copy, Debug, PartialEq, Eq)]
pub enum Several {
    /// The first reply's stream with its first level inverted, so that no reply is received.
    Break,
    /// The first reply whole: that of the strongest tag, where tags are numbered by strength.
    Capture,
}

/// What a scenario says of one exchange.
#[derive(Drop)]
pub struct Entry {
    /// The events before the command, each with the number of its tag, in order.
    pub events: List<(Event, u32)>,
    /// The numbers of the tags that miss the command.
    pub missed: List<u32>,
    /// What the channel gives, where it isn't the default.
    pub choice: Option<Choice>,
}
