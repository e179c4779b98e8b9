//! The operations that an interrogator does with a tag that it has singulated (6.3.2.11.3 of the
//! EPCglobal Class-1 Generation-2 standard, version 1.2.0).
#![tactic(auto)]

mod copies;
mod laws;
mod op_next;
mod op_run;
mod operation_results;
mod stage;

pub use bit_strings::{Count1, List, Payload, Pointer};
pub use command_grammar::{Bank, BlockWords, Command};
pub use laws::{operation_commands, operation_laws};
pub use op_next::{Answer, OpNext, OpResult};
pub use op_run::OpRun;
pub use reply_grammar::{EpcWords, Expect, ReadWords, Received, Reply};

/// One operation on a singulated tag.
#[derive(Drop)]
pub enum Op {
    /// Reads words of a bank (6.3.2.11.3.2 Read).
    Read {
        /// The bank.
        bank: Bank,
        /// The number of the first word that is read.
        pointer: Pointer,
        /// How many words are read. A count of 0 reads to the end of the bank, or in the EPC bank to
        /// the end of the EPC where it begins inside it.
        count: u8,
    },
    /// Writes one word (6.3.2.11.3.3 Write).
    Write {
        /// The bank.
        bank: Bank,
        /// The number of the word that is written.
        pointer: Pointer,
        /// What is written.
        word: u16,
    },
    /// Writes several words at once (6.3.2.11.3.7 BlockWrite).
    BlockWrite {
        /// The bank.
        bank: Bank,
        /// The number of the first word that is written.
        pointer: Pointer,
        /// What is written from there on.
        words: BlockWords,
    },
    /// Erases several words at once (6.3.2.11.3.8 BlockErase).
    BlockErase {
        /// The bank.
        bank: Bank,
        /// The number of the first word that is erased.
        pointer: Pointer,
        /// How many words are erased.
        count: Count1,
    },
    /// Changes the lock bits of the tag's fields (6.3.2.11.3.5 Lock).
    Lock {
        /// Which lock bits are changed, and what they become.
        payload: Payload,
    },
    /// Shows the access password, so that the tag goes to secured (6.3.2.11.3.6 Access).
    Access {
        /// The access password.
        password: u32,
    },
    /// Kills the tag by its kill password (6.3.2.11.3.4 Kill).
    Kill {
        /// The kill password.
        password: u32,
    },
}

/// The operations of a round, for each tag that it lists (profile).
#[derive(Drop)]
pub struct OpList {
    /// The only EPC to operate on, where one is named.
    pub only: Option<EpcWords>,
    /// The operations, in order.
    pub ops: List<Op>,
}
