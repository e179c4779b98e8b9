//! The memory that a tag is made with.
ghost use Rattle.std.specs.Prelude.{◌≡◌, ◌≤◌, length};
ghost use Rattle.tag_memory.specs.Image.{sizes_fit, epc_fits, pc_fits};

use crate::memory::length_in_pc;
use bit_strings::List;
use std::alloc::AllocError;
use thiserror::Error;

/// What a tag's banks hold when it is made, but for StoredCRC, which is computed.
#[derive(Drop)]
pub struct BankImage {
    /// The kill password, words 0 and 1 of the Reserved bank.
    pub kill: u32,
    /// The access password, words 2 and 3 of the Reserved bank.
    pub access: u32,
    /// The EPC bank from its word 1 on: PC and what follows, 1 to 32 words.
    pub epc: List<u16>,
    /// The TID bank, 2 to 16 words.
    pub tid: List<u16>,
    /// The User bank, at most 512 words; a tag whose bank has none has no User bank.
    pub user: List<u16>,
}

/// Why a memory can't be made of an image.
#[derive(Clone, Copy, Debug, PartialEq, Eq, Error)]
pub enum ImageRefusal {
    /// A bank has more or fewer words than a tag's bank may have.
    #[error("a bank has more or fewer words than it may have")]
    Size,
    /// The EPC that PC announces would pass its bank.
    #[error("the EPC that PC announces passes its bank")]
    Pc,
    /// There was no memory.
    #[error("there was no memory")]
    OutOfMemory,
}

impl From<AllocError> for ImageRefusal {
    ghost use Rattle.tag_memory.specs.declared.image.ImageRefusal.TheVariants.{OutOfMemory};

    ghost from_gives = { λ _ refusal. refusal ≡ OutOfMemory };

    fn from(_error: AllocError) -> ImageRefusal {
        ImageRefusal::OutOfMemory
    }
}

/// Whether the banks of an image have the sizes that a tag's banks may have.
pub(crate) fn has_sizes(image: &BankImage) -> bool
    ensures { result ≡ sizes_fit image.now }
{
    (1..=32).contains(&image.epc.len())
        && (2..=16).contains(&image.tid.len())
        && image.user.len() <= 512
}

/// Whether the EPC that a PC announces lies inside an EPC bank of so many words, of which the first two are StoredCRC and PC.
pub fn epc_fits(pc: u16, count: usize) -> bool
    ensures { result ≡ epc_fits pc count }
{
    2 + length_in_pc(pc) <= count
}

/// Whether the EPC that the PC of an image announces lies inside its bank.
pub(crate) fn has_room_for_epc(image: &BankImage) -> bool
    requires { 1 ≤ length image.now.epc }
    ensures { result ≡ pc_fits image.now }
{
    let words = image.epc.as_slice();
    epc_fits(words[0], 1 + words.len())
}
