//! The names in a scenario: the keywords, which are the first fields of its lines, and the kinds of its air, event and operation
//! lines.

/// The first field of a line, which says what the line is about.
#[derive(Clone, Copy)]
pub enum Keyword {
    /// `gen2`: the version of the text.
    Version,
    /// `link`: the parameters of the link.
    Link,
    /// `default`: what the channel gives where several tags reply and nothing is chosen.
    Default,
    /// `tag`: one tag.
    Tag,
    /// `copies`: several tags, which are copies of one.
    Copies,
    /// `air`: what befalls the tags or the channel in one exchange.
    Air,
    /// `select`: a step in which a Select is sent.
    Select,
    /// `nak`: a step in which a NAK is sent.
    Nak,
    /// `event`: a step in which something befalls a tag between exchanges.
    Event,
    /// `round`: a step in which a round is run.
    Round,
    /// `only`: the one EPC that the operations of a round are for.
    Only,
    /// `op`: an operation of a round.
    Op,
    /// `end`: the end of the scenario.
    End,
}

/// The kind of an event of a tag.
#[derive(Clone, Copy)]
pub enum EventKind {
    /// `timeout`: the time T2 passes in which the tag waits for its interrogator.
    Timeout,
    /// `off`: the tag loses power.
    Off,
    /// `on`: the tag gets power.
    On,
    /// `expire`: the persistence of a flag ends.
    Expire,
}

/// The kind of an operation, by the word behind `op`.
#[derive(Clone, Copy)]
pub enum OpKind {
    /// `read`: words of a bank are read.
    Read,
    /// `write`: one keyword is written.
    Write,
    /// `blockwrite`: several words are written at once.
    BlockWrite,
    /// `blockerase`: several words are erased at once.
    BlockErase,
    /// `lock`: the lock bits of fields are changed.
    Lock,
    /// `access`: the access password is shown.
    Access,
    /// `kill`: the tag is killed.
    Kill,
}

/// The kind of an air line, by the word behind the number of its exchange.
#[derive(Clone, Copy)]
pub enum AirKind {
    /// An event of a tag before the command.
    Event(EventKind),
    /// A tag misses the command.
    Miss,
    /// The channel gives the reply of this number.
    Pick,
    /// The channel gives silence.
    Silent,
    /// The channel breaks the first reply.
    Break,
    /// The channel gives these levels.
    Raw,
}
