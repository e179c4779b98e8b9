//! The banks of a tag.
ghost use Rattle.std.specs.Prelude.{◌≡◌, ◌/◌, ◌%◌, ◌^◌, ◌<◌, ◌≤◌, ◌↔◌, ◌∷◌, length, true, false, Err, IsNone, IfOk, slice_get, slice_index};
ghost use Rattle.bit_strings.specs.NumbersInBits.{value_of};
ghost use Rattle.bit_strings.specs.Words.{bits_of_words};
ghost use Rattle.gen2_crc.specs.Crc.{crc16_of};
ghost use Rattle.reply_grammar.specs.Replies.{AreWords};
ghost use Rattle.tag_memory.specs.Memory.{IsLegalMemory, AreSound, bank_of, bank_named, pc_of, epc_of, kill_word_of, access_word_of, length_in, with_stored_crc};
ghost use Rattle.tag_memory.specs.Image.{sizes_fit, pc_fits, image_banks, banks_of, with_last_words};

mod reads_and_writes;

use crate::image::{BankImage, ImageRefusal, has_room_for_epc, has_sizes};
use command_fields::{Bank, MaskBank};
use gen2_crc::Crc16;
use reply_grammar::EpcWords;
use std::alloc::{AllocError, Global};
use std::marker::Model;

/// The memory of a tag. It takes all that its banks ever need when it is made, and no later call takes
/// any.
///
/// A contract sees it as the words of its four banks.
pub struct Memory {
    reserved: [u16; 4],
    epc: Vec<u16>,
    tid: Vec<u16>,
    user: Vec<u16>,
}

// Written out, so that a drop is one call in the proof of each function that owns a memory, and not one for each part.
impl Drop for Memory {
    fn drop(self) {
        let Memory {
            reserved: _,
            epc: _,
            tid: _,
            user: _,
        } = self;
    }
}

impl Model for Memory {
    ghost use Rattle.tag_memory.specs.Memory.{Banks, AreSound};

    ghost Value = { Banks };

    ghost view = { λ m. record { reserved = m.reserved; epc = m.epc.items; tid = m.tid.items; user = m.user.items } };

    ghost invariant = { λ m. AreSound
        (record { reserved = m.reserved; epc = m.epc.items; tid = m.tid.items; user = m.user.items }) };
}

/// How many words of EPC a PC announces, in its first five bits (6.3.2.1.2.2 Protocol-control bits).
pub(crate) fn length_in_pc(pc: u16) -> usize
    ensures value { result ≡ length_in pc }
    ensures few { result ≤ 31 }
{
    usize::from(pc >> 11)
}

/// The two words of a password, the upper half first (6.3.2.1.1).
fn halves(password: u32) -> (u16, u16)
    ensures upper { result.0 ≡ password / 2 ^ 16 }
    ensures lower { result.1 ≡ password % 2 ^ 16 }
{
    ((password >> 16) as u16, (password % 0x1_0000) as u16)
}

/// The CRC-16 of words.
fn crc16_of_words(words: &[u16]) -> u16
    ensures { result ≡ value_of (crc16_of (bits_of_words words.now)) }
{
    let mut crc = Crc16::new();
    crc.push_words(words);
    crc.value()
}

/// A bank with these words.
fn bank_with(alloc: Global, words: &[u16]) -> Result<Vec<u16>, AllocError>
    ensures { IfOk result (λ bank. (bank.items ≡ words.now) × AreWords bank.items) }
{
    Vec::from_slice(alloc, words)
}

/// An EPC bank with these words, of which there are at most 32, behind 0000h in the place of StoredCRC.
fn epc_bank_with(alloc: Global, words: &[u16]) -> Result<Vec<u16>, AllocError>
    ensures { IfOk result (λ bank. (bank.items ≡ 0 ∷ words.now) × AreWords bank.items) }
{
    let mut bank = Vec::with_capacity(alloc, 1 + words.len())?;
    bank.push(0)?;
    bank.extend_from_slice(words)?;
    Ok(bank)
}

impl Memory {
    /// The banks of an image, with 0000h in the place of StoredCRC, which [`Memory::power_on`] computes.
    fn without_crc(alloc: Global, image: &BankImage) -> Result<Memory, AllocError>
        requires sizes { sizes_fit image.now ≡ true }
        requires pc { pc_fits image.now ≡ true }
        ensures { IfOk result (λ memory. memory ≡ image_banks image.now) }
    {
        let epc = epc_bank_with(alloc, image.epc.as_slice())?;
        let tid = bank_with(alloc, image.tid.as_slice())?;
        let user = bank_with(alloc, image.user.as_slice())?;
        let (kill0, kill1) = halves(image.kill);
        let (access0, access1) = halves(image.access);
        Ok(Memory {
            reserved: [kill0, kill1, access0, access1],
            epc,
            tid,
            user,
        })
    }

    /// The memory of a tag that was just made, with StoredCRC computed. `Size` comes exactly where a
    /// bank of the image has a size that it may not have; `Pc` exactly where the sizes are right and the
    /// EPC that PC announces would pass its bank. No clause ties `OutOfMemory` to a cause.
    pub fn new(alloc: Global, image: &BankImage) -> Result<Memory, ImageRefusal>
        ensures size { (result ≡ Err ImageRefusal.Size) ↔ (sizes_fit image.now ≡ false) }
        ensures pc { (result ≡ Err ImageRefusal.Pc)
            ↔ ((sizes_fit image.now ≡ true) × (pc_fits image.now ≡ false)) }
        ensures ok { IfOk result (λ memory. memory ≡ banks_of image.now) }
    {
        if !has_sizes(image) {
            return Err(ImageRefusal::Size);
        }
        if !has_room_for_epc(image) {
            return Err(ImageRefusal::Pc);
        }
        let mut memory = Memory::without_crc(alloc, image)?;
        memory.power_on();
        Ok(memory)
    }

    /// The memory of a tag that was just made, of an image in which the last word of the EPC and the last of TID are these. They are
    /// written where they stand, before StoredCRC is computed, so that no memory is taken but that of the banks.
    pub fn with_last_words(
        alloc: Global,
        image: &BankImage,
        last_of_epc: u16,
        last_of_tid: u16,
    ) -> Result<Memory, AllocError>
        requires sizes { sizes_fit image.now ≡ true }
        requires pc { pc_fits image.now ≡ true }
        requires epc { 1 ≤ length_in (slice_index image.now.epc 0) }
        ensures { IfOk result
            (λ memory. memory ≡ banks_of (with_last_words image.now last_of_epc last_of_tid)) }
    {
        let mut memory = Memory::without_crc(alloc, image)?;
        let place_in_epc = 1 + length_in_pc(memory.pc());
        let place_in_tid = memory.bank(Bank::Tid).len() - 1;
        memory.put(Bank::Epc, place_in_epc, &[last_of_epc]);
        memory.put(Bank::Tid, place_in_tid, &[last_of_tid]);
        memory.power_on();
        Ok(memory)
    }

    /// What power-on does to the memory: StoredCRC is computed again, and nothing else changes
    /// (6.3.2.1.2.1; that it is computed at no other time is profile).
    pub fn power_on(&mut self)
        ensures value { self.new ≡ with_stored_crc self.old }
        ensures sound { AreSound self.new }
    {
        let end = 2 + length_in_pc(self.epc[1]);
        self.epc[0] = crc16_of_words(&self.epc[1..end]);
    }

    /// The whole of a bank.
    pub fn bank(&self, bank: Bank) -> &[u16]
        ensures value { result.now ≡ bank_of self.now bank }
        ensures legal { IsLegalMemory self.now }
        ensures sound { AreSound self.now }
    {
        match bank {
            Bank::Reserved => &self.reserved,
            Bank::Epc => &self.epc,
            Bank::Tid => &self.tid,
            Bank::User => &self.user,
        }
    }

    /// The whole of a bank that a Select may name.
    pub fn words(&self, bank: MaskBank) -> &[u16]
        ensures { result.now ≡ bank_of self.now (bank_named bank) }
    {
        match bank {
            MaskBank::Epc => &self.epc,
            MaskBank::Tid => &self.tid,
            MaskBank::User => &self.user,
        }
    }

    /// How many words a bank has.
    pub fn size(&self, bank: Bank) -> u32
        ensures count { result ≡ length (bank_of self.now bank) }
        ensures legal { IsLegalMemory self.now }
    {
        self.bank(bank).len() as u32
    }

    /// The word of a bank with the number `at`, counted from 0; none exactly past the bank.
    pub fn get(&self, bank: Bank, at: u32) -> Option<u16>
        ensures value { result ≡ slice_get (bank_of self.now bank) at }
        ensures none { IsNone result ↔ (length (bank_of self.now bank) ≤ at) }
    {
        self.bank(bank).get(at as usize).copied()
    }

    /// PC, word 1 of the EPC bank (6.3.2.1.2.2 Protocol-control bits).
    pub fn pc(&self) -> u16
        ensures value { result ≡ pc_of self.now }
        ensures legal { IsLegalMemory self.now }
    {
        self.epc[1]
    }

    /// The words of the EPC that PC announces, which stand behind PC.
    fn epc_words(&self) -> &[u16]
        ensures value { result.now ≡ epc_of self.now }
        ensures count { length result.now ≡ length_in (pc_of self.now) }
        ensures few { length result.now ≤ 31 }
    {
        let end = 2 + length_in_pc(self.epc[1]);
        &self.epc[2..end]
    }

    /// The EPC: the words behind PC, as many as PC announces (6.3.2.1.2.3 EPC).
    pub fn epc(&self) -> EpcWords
        ensures value { result ≡ epc_of self.now }
        ensures count { length result ≡ length_in (pc_of self.now) }
    {
        let mut epc = EpcWords::new();
        for word in self.epc_words() {
            epc.push_reserved(*word);
        }
        epc
    }

    /// The kill password (6.3.2.1.1.1).
    pub fn kill_word(&self) -> u32
        ensures { result ≡ kill_word_of self.now }
    {
        (u32::from(self.reserved[0]) << 16) + u32::from(self.reserved[1])
    }

    /// The access password (6.3.2.1.1.2).
    pub fn access_word(&self) -> u32
        ensures { result ≡ access_word_of self.now }
    {
        (u32::from(self.reserved[2]) << 16) + u32::from(self.reserved[3])
    }
}
