//! What a run tells, as values.
use access_ops::OpResult;
use command_grammar::Command;
use q_round::RoundEnd;
use reply_grammar::{EpcWords, Reply};
use tag_machine::AnyTag;
use wave_dump::Exchanged;

/// What a run tells at one time. It borrows what it tells of.
#[derive(Clone, Copy)]
pub enum Line<'a> {
    /// The backscatter link frequency, as a fraction whose unit is one over a nanosecond.
    Blf {
        /// The divide ratio.
        numerator: u32,
        /// What it divides, in nanoseconds.
        denominator: u32,
    },
    /// A command was sent.
    Exchange {
        /// The number of the exchange, counted from 1 over the whole run.
        exchange: u64,
        /// The command.
        command: &'a Command,
    },
    /// A tag missed it, as the scenario says.
    Missed {
        /// The number of the exchange.
        exchange: u64,
        /// The number of the tag, counted from 0.
        tag: u32,
    },
    /// A tag answered it.
    Answer {
        /// The number of the exchange.
        exchange: u64,
        /// The number of the tag.
        tag: u32,
        /// With the extended preamble, whatever the TRext of the Query says (6.3.2.11.3).
        extended: bool,
        /// What it sent.
        reply: &'a Reply,
    },
    /// A frame was sent.
    Tx {
        /// The number of the exchange.
        exchange: u64,
        /// The intervals of the frame, in nanoseconds.
        intervals: &'a [u32],
    },
    /// What came back.
    Rx {
        /// The number of the exchange.
        exchange: u64,
        /// How many tags replied.
        count: u32,
        /// The levels that came.
        levels: &'a [bool],
    },
    /// An exchange is over.
    Given(Exchanged<'a>),
    /// A tag was listed.
    List {
        /// The number of the round, counted from 1 over the whole run.
        round: u32,
        /// The number of the slot, counted from 1 in the round.
        slot: u32,
        /// The protocol-control word (6.3.2.1.4).
        pc: u16,
        /// The EPC.
        epc: &'a EpcWords,
    },
    /// An operation with the tag that was listed in this slot has ended.
    Op {
        /// The number of the round.
        round: u32,
        /// The number of the slot.
        slot: u32,
        /// The number of the operation, counted from 1.
        index: u32,
        /// How it ended.
        ended: &'a OpResult,
    },
    /// A round has ended.
    Round {
        /// The number of the round.
        round: u32,
        /// How it ended.
        end: RoundEnd,
        /// How many slots it had.
        slots: u32,
    },
    /// How often a PC and an EPC were listed.
    Seen {
        /// How often.
        count: u64,
        /// The protocol-control word.
        pc: u16,
        /// The EPC.
        epc: &'a EpcWords,
    },
    /// What a tag is in the end.
    Tag {
        /// The number of the tag, counted from 0.
        number: u32,
        /// The tag.
        tag: &'a AnyTag,
    },
    /// That was all.
    Done,
}
