//! Memories of a tag: which one is refused, and StoredCRC.

use bit_strings::List;
use command_grammar::Bank;
use std::alloc::Global;
use tag_memory::{BankImage, ImageRefusal, Memory};

/// StoredCRC of the memory with this PC and the EPC 1234, or why there is no such memory.
fn stored_crc(alloc: Global, pc: u16) -> Result<Option<u16>, ImageRefusal> {
    let image = BankImage {
        kill: 0,
        access: 0,
        epc: List::new(Vec::from_slice(alloc, &[pc, 0x1234])?),
        tid: List::new(Vec::from_slice(alloc, &[0xE200, 0x0001])?),
        user: List::new(Vec::new(alloc)),
    };
    let memory = Memory::new(alloc, &image)?;
    Ok(memory.get(Bank::Epc, 0))
}

/// PC 0800 announces one word, and 1000 two.
const MEMORIES: &[(u16, Result<Option<u16>, ImageRefusal>)] = &[
    (0x0800, Ok(Some(0xED3A))),
    (0x1000, Err(ImageRefusal::Pc)),
];

#[test]
fn memories_have_their_pc(rt: HostRuntime) {
    for &(pc, wanted) in MEMORIES {
        assert!(rt; stored_crc(rt.alloc(), pc) == wanted, "{pc}");
    }
}
