//! The commands.

use bit_strings::{Action, Code, Count1, Payload, Pointer, QValue, Session};
use command_fields::{Bank, BlockWords, FlagName, Mask, MaskBank, Sel, Side, UpDn};

/// A command of an interrogator to the tags in its field (6.3.2.11 Interrogator commands and tag
/// replies), with the values of its fields. Its check number is no field: the spelling adds it.
#[derive(Debug, PartialEq, Eq, Drop)]
pub enum Command {
    /// The tags of the session lower their slot counters (6.3.2.11.2.3 QueryRep).
    QueryRep {
        /// The session of the round.
        session: Session,
    },
    /// The tag that replied with this number replies with its EPC (6.3.2.11.2.4 ACK).
    Ack {
        /// The number that the tag sent: an RN16 or a handle.
        rn: u16,
    },
    /// Begins a round (6.3.2.11.2.1 Query).
    Query {
        /// The divide ratio DR: `false` is 8, `true` is 64/3.
        dr: bool,
        /// The line code and the cycles a symbol of the replies.
        code: Code,
        /// Whether the replies begin with a pilot tone.
        trext: bool,
        /// Which tags take part, by their selected flag.
        sel: Sel,
        /// The session of the round.
        session: Session,
        /// Which tags take part, by their inventoried flag of the session.
        target: Side,
        /// The number of slots is two to the power of Q.
        q: QValue,
    },
    /// The tags of the session change Q and draw again (6.3.2.11.2.2 QueryAdjust).
    QueryAdjust {
        /// The session of the round.
        session: Session,
        /// How Q changes.
        updn: UpDn,
    },
    /// Tags whose memory has the mask change a flag, others do as the action says (6.3.2.11.1.1
    /// Select).
    Select {
        /// The flag.
        target: FlagName,
        /// What matching and other tags do with it.
        action: Action,
        /// The bank that has the mask.
        bank: MaskBank,
        /// Which bit of the bank the mask's first bit is compared with, counted from 0.
        pointer: Pointer,
        /// The bits.
        mask: Mask,
    },
    /// All tags of the round go back to arbitrate (6.3.2.11.2.5 NAK).
    Nak,
    /// The tag sends a new number (6.3.2.11.3.1 Req_RN).
    ReqRn {
        /// The tag's RN16 or handle.
        rn: u16,
    },
    /// The tag sends words of its memory (6.3.2.11.3.2 Read).
    Read {
        /// The bank.
        bank: Bank,
        /// The first word, counted from 0.
        pointer: Pointer,
        /// How many words; 0 is all of them to the bank's end.
        count: u8,
        /// The tag's handle.
        rn: u16,
    },
    /// The tag writes a word (6.3.2.11.3.3 Write).
    Write {
        /// The bank.
        bank: Bank,
        /// Which word, counted from 0.
        pointer: Pointer,
        /// The word, covered by the tag's last RN16.
        covered: u16,
        /// The tag's handle.
        rn: u16,
    },
    /// Half of a kill password (6.3.2.11.3.4 Kill).
    Kill {
        /// The half, covered by the tag's last RN16.
        covered: u16,
        /// The tag's handle.
        rn: u16,
    },
    /// The tag locks or unlocks memory (6.3.2.11.3.5 Lock).
    Lock {
        /// The masks and the actions.
        payload: Payload,
        /// The tag's handle.
        rn: u16,
    },
    /// Half of an access password (6.3.2.11.3.6 Access).
    Access {
        /// The half, covered by the tag's last RN16.
        covered: u16,
        /// The tag's handle.
        rn: u16,
    },
    /// The tag writes words (6.3.2.11.3.7 BlockWrite).
    BlockWrite {
        /// The bank.
        bank: Bank,
        /// The first word, counted from 0.
        pointer: Pointer,
        /// The words, as they are.
        words: BlockWords,
        /// The tag's handle.
        rn: u16,
    },
    /// The tag erases words (6.3.2.11.3.8 BlockErase).
    BlockErase {
        /// The bank.
        bank: Bank,
        /// The first word, counted from 0.
        pointer: Pointer,
        /// How many words.
        count: Count1,
        /// The tag's handle.
        rn: u16,
    },
}
