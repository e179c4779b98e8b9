//! What an interrogator may expect in reply to a command, and what came.

use crate::reply_words::{EpcWords, ReadWords};
use bit_strings::Count1;
use thiserror::Error;

/// Which replies a command allows. The number in it is the handle that the reply must carry.
#[derive(Clone, Copy, Debug, PartialEq, Eq)]
pub enum Expect {
    /// An RN16 alone, to a Query, QueryRep or QueryAdjust.
    Rn16,
    /// PC, EPC and CRC-16, to an ACK.
    Epc,
    /// A new handle or RN16 and CRC-16, to a Req_RN.
    Handle,
    /// This handle and CRC-16, to an Access and to the first half of a Kill.
    Same(u16),
    /// So many words, to a Read.
    Words(Count1, u16),
    /// From 1 to 512 words, to a Read with WordCount 0.
    AnyWords(u16),
    /// A header bit 0 alone, to a Write, Lock, BlockWrite, BlockErase and the second half of a Kill.
    Header(u16),
}

/// A reply, taken apart.
#[derive(Drop, Debug, PartialEq, Eq)]
pub enum Reply {
    /// The RN16.
    Rn16(u16),
    /// What an ACK brings.
    Epc {
        /// The protocol-control word; its first five bits are the number of EPC words.
        pc: u16,
        /// The EPC.
        epc: EpcWords,
    },
    /// The handle, or the new RN16.
    Handle(u16),
    /// The words that were read.
    Words(ReadWords),
    /// Success.
    Header,
    /// An error code (Annex I).
    Error(u8),
}

/// Why bits are no reply that is expected: the first of these that applies.
#[derive(Clone, Copy, Debug, PartialEq, Eq, Error)]
pub enum ReplyRefusal {
    /// The number of bits is none of those that are allowed.
    #[error("no reply that is expected has so many bits")]
    Length,
    /// The last 16 bits are not the CRC-16 of the rest.
    #[error("the last 16 bits are not the CRC-16 of the rest")]
    Crc,
    /// The header bit is 1 at a length of success, or 0 at the length of an error.
    #[error("the header bit does not fit the length")]
    Header,
    /// The handle is another.
    #[error("the handle is another")]
    Number,
}

/// What an interrogator made of a stream of levels.
#[derive(Drop, Debug, PartialEq, Eq)]
pub enum Received {
    /// A whole reply.
    Whole(Reply),
    /// The levels were refused at this place, counted from 0; the number of levels where they were a
    /// stream, and its bits no reply that is expected.
    Refused(u32),
}
