//! What a run is made of.

use access_ops::OpList;
use air_events::{Entry, Event, Several};
use bit_strings::List;
use command_grammar::Command;
use pie_line::Link;
use q_round::RoundSpec;
use scenario_lines::{TagSpec, Version};

/// One step of a run.
#[derive(Drop)]
pub enum Step {
    /// A Select is sent, in one exchange.
    Select(Command),
    /// A NAK is sent, in one exchange.
    Nak,
    /// Something befalls the tag of this number, between exchanges.
    Event(Event, u32),
    /// A round is run, with these operations on each tag that it lists.
    Round(RoundSpec, OpList),
}

/// Tags that differ in numbers alone: copies of one tag. Copy `j`, counted from 0, has the last word of the
/// EPC, the last word of the TID and each draw word raised by `j` modulo 65,536, and all else as the tag has it.
#[derive(Drop)]
pub struct TagGroup {
    /// How many copies there are: 1 in version 1.
    pub count: u32,
    /// The tag of which they are copies.
    pub spec: TagSpec,
}

/// What a run is made of.
#[derive(Drop)]
pub struct Scenario {
    /// The version of its text.
    pub version: Version,
    /// The parameters of the link.
    pub link: Link,
    /// What the channel gives where several tags reply and nothing is chosen: `Break` in version 1.
    pub several: Several,
    /// The tags. Those of the first group are numbered from 0 on, and those of each other group go on from
    /// there.
    pub groups: List<TagGroup>,
    /// What befalls tags and channel in exchanges, each with the number of its exchange, counted from 1
    /// over the whole run. The numbers rise.
    pub entries: List<(u64, Entry)>,
    /// The steps, in order.
    pub steps: List<Step>,
}
