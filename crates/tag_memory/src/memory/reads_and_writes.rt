//! What Read, Write, BlockWrite and BlockErase do with the banks (6.3.2.11.3).
ghost use Rattle.std.specs.Prelude.{◌≡◌, ℕ, Bool, ◌+◌, ◌-◌, ◌<◌, ◌≤◌, ◌↔◌, Ok, Err, IfOk, IfErr, OnOk, OnErr, true, [], ◌∷◌, length, replicate, slice_index};
ghost use Rattle.reply_grammar.specs.Replies.{AreWords};
ghost use Rattle.tag_memory.specs.Memory.{AreSound, bank_of};
ghost use Rattle.tag_memory.specs.ReadsAndWrites.{lock_field_at, may_read_word, may_write_word, all_words, open_end, words_read, with_words_at, banks_with_words_at, length_fits, banks_after_write, banks_after_erase};

use super::{Memory, length_in_pc};
use crate::image::epc_fits;
use bit_strings::{Count1, Pointer};
use command_fields::{Bank, BlockWords};
use lock_rules::{ErrorCode, Field, Level, Locks};
use reply_grammar::ReadWords;

/// What an erased bank holds: as many words as a BlockErase can name.
const ERASED: [u16; 255] = [0; 255];

/// The words that a BlockErase of so many words writes.
fn erased_words(count: Count1) -> &'static [u16]
    ensures words { result.now ≡ replicate count 0 }
    ensures few { length result.now ≤ 255 }
{
    &ERASED[..usize::from(count.get())]
}

/// The field whose pair of lock bits a word of a bank goes by.
fn field_of_word(bank: Bank, place: usize) -> Field
    ensures { result ≡ lock_field_at bank place }
{
    match bank {
        Bank::Reserved if place < 2 => Field::KillWord,
        Bank::Reserved => Field::AccessWord,
        Bank::Epc => Field::Epc,
        Bank::Tid => Field::Tid,
        Bank::User => Field::User,
    }
}

/// Whether all words from one place up to another pass a test.
fn all_words<F: Fn(usize) -> bool>(from: usize, end: usize, passes: F) -> bool
    requires { F.IsAlwaysCallable passes }
    ensures { (test : ℕ → Bool)
        → ((place : ℕ) (passed : Bool) → place < end → F.post passes place passed
        → passed ≡ test place)
        → result ≡ all_words test from (end - from) }
{
    for place in from..end {
        if !passes(place) {
            return false;
        }
    }
    true
}

/// Whether a word of a bank may be written. StoredCRC may never.
fn may_write(bank: Bank, place: usize, level: Level, locks: &Locks) -> bool
    ensures { result ≡ may_write_word locks.now level bank place }
{
    let is_stored_crc = bank == Bank::Epc && place == 0;
    !is_stored_crc && locks.may_write(field_of_word(bank, place), level)
}

/// The word at a place after a write.
fn word_after(old: &[u16], from: usize, words: &[u16], place: usize) -> u16
    requires inside { from + length words.now ≤ length old.now }
    requires there { place < length old.now }
    ensures { result ≡ slice_index (with_words_at old.now from words.now) place }
{
    if place < from || from + words.len() <= place {
        old[place]
    } else {
        words[place - from]
    }
}

/// Writes words over those of a bank from a place on.
fn replace(old: &mut [u16], from: usize, words: &[u16])
    requires { from + length words.now ≤ length old.old }
    ensures value { old.new ≡ with_words_at old.old from words.now }
    ensures whole { length old.new ≡ length old.old }
    ensures words { AreWords old.new }
{
    let end = from + words.len();
    old[from..end].copy_from_slice(words);
}

impl Memory {
    /// The place behind the last word that a Read of no given number takes.
    fn open_end(&self, bank: Bank, pointer: usize) -> usize
        ensures { result ≡ open_end self.now bank pointer }
    {
        let end_of_epc = 2 + length_in_pc(self.pc());
        match bank {
            Bank::Epc if pointer < end_of_epc => end_of_epc,
            _ => self.bank(bank).len(),
        }
    }

    /// The words that a Read answers, as [`Memory::read`] says, where they stand in their bank.
    pub fn readable(
        &self,
        bank: Bank,
        pointer: Pointer,
        count: u8,
        level: Level,
        locks: &Locks,
    ) -> Result<&[u16], ErrorCode>
        ensures ok { IfOk result
            (λ words. words_read self.now locks.now level bank pointer count ≡ Ok words.now) }
        ensures err { IfErr result
            (λ code. words_read self.now locks.now level bank pointer count ≡ Err code) }
        ensures some { IfOk result (λ words. 1 ≤ length words.now) }
        ensures few { IfOk result (λ words. length words.now ≤ 512) }
    {
        let from = pointer.get() as usize;
        let end = if count == 0 {
            self.open_end(bank, from)
        } else {
            from + usize::from(count)
        };
        let words = self.bank(bank);
        if end <= from || words.len() < end {
            return Err(ErrorCode::Overrun);
        }
        let permitted = |place| locks.may_read(field_of_word(bank, place), level);
        if !all_words(from, end, permitted) {
            return Err(ErrorCode::Locked);
        }
        Ok(&words[from..end])
    }

    /// What a Read answers (6.3.2.11.3.2 Read): the words of a bank from the pointer on, into `out`. With
    /// the count 0 these are all words up to the bank's end; in the EPC bank they end with the EPC, or with
    /// PC where it announces no word, where the pointer is at or before that word. `Overrun` where there is
    /// no such word or they pass the bank, else `Locked` where one of them is of a password that may not be
    /// read at this level. After a refusal `out` is empty.
    pub fn read(
        &self,
        bank: Bank,
        pointer: Pointer,
        count: u8,
        level: Level,
        locks: &Locks,
        out: &mut ReadWords,
    ) -> Result<(), ErrorCode>
        ensures ok { OnOk result
            (words_read self.now locks.now level bank pointer count ≡ Ok out.new) }
        ensures err { IfErr result
            (λ code. words_read self.now locks.now level bank pointer count ≡ Err code) }
        ensures some { OnOk result (1 ≤ length out.new) }
        ensures empty { OnErr result (out.new ≡ []) }
    {
        out.clear();
        for word in self.readable(bank, pointer, count, level, locks)? {
            out.push_reserved(*word);
        }
        Ok(())
    }

    /// Whether the EPC that PC announces after a write lies inside its bank.
    fn keeps_length_inside(&self, bank: Bank, from: usize, words: &[u16]) -> bool
        requires { from + length words.now ≤ length (bank_of self.now bank) }
        ensures { result ≡ length_fits (banks_with_words_at self.now bank from words.now) }
    {
        match bank {
            Bank::Epc => epc_fits(word_after(&self.epc, from, words, 1), self.epc.len()),
            Bank::Reserved | Bank::Tid | Bank::User => true,
        }
    }

    /// Writes words over those of a bank from a place on, whatever the locks say. StoredCRC stays as it is.
    pub(super) fn put(&mut self, bank: Bank, from: usize, words: &[u16])
        requires inside { from + length words.now ≤ length (bank_of self.old bank) }
        requires length { length_fits (banks_with_words_at self.old bank from words.now) ≡ true }
        ensures value { self.new ≡ banks_with_words_at self.old bank from words.now }
        ensures sound { AreSound self.new }
    {
        match bank {
            Bank::Reserved => replace(&mut self.reserved, from, words),
            Bank::Epc => replace(&mut self.epc, from, words),
            Bank::Tid => replace(&mut self.tid, from, words),
            Bank::User => replace(&mut self.user, from, words),
        }
    }

    /// Writes words over those of a bank, all or none.
    fn change(
        &mut self,
        bank: Bank,
        pointer: Pointer,
        words: &[u16],
        level: Level,
        locks: &Locks,
    ) -> Result<(), ErrorCode>
        requires { length words.now ≤ 255 }
        ensures ok { OnOk result
            (banks_after_write self.old locks.now level bank pointer words.now ≡ Ok self.new) }
        ensures err { IfErr result
            (λ code. (banks_after_write self.old locks.now level bank pointer words.now ≡ Err code)
            × (self.new ≡ self.old)) }
        ensures sound { AreSound self.new }
    {
        let from = pointer.get() as usize;
        let end = from + words.len();
        if self.bank(bank).len() < end || !self.keeps_length_inside(bank, from, words) {
            return Err(ErrorCode::Overrun);
        }
        let permitted = |place| may_write(bank, place, level, locks);
        if !all_words(from, end, permitted) {
            return Err(ErrorCode::Locked);
        }
        self.put(bank, from, words);
        Ok(())
    }

    /// What a Write does (6.3.2.11.3.3 Write): the word at the pointer becomes this one. `Overrun` where
    /// the bank has no such word, or a new PC announces more words of EPC than the bank has; else `Locked`
    /// where the word is StoredCRC or its field may not be written at this level. A refusal changes
    /// nothing.
    pub fn write(
        &mut self,
        bank: Bank,
        pointer: Pointer,
        word: u16,
        level: Level,
        locks: &Locks,
    ) -> Result<(), ErrorCode>
        ensures ok { OnOk result
            (banks_after_write self.old locks.now level bank pointer (word ∷ []) ≡ Ok self.new) }
        ensures err { IfErr result
            (λ code. (banks_after_write self.old locks.now level bank pointer (word ∷ [])
            ≡ Err code) × (self.new ≡ self.old)) }
        ensures sound { AreSound self.new }
    {
        self.change(bank, pointer, &[word], level, locks)
    }

    /// What a BlockWrite does (6.3.2.11.3.7 BlockWrite): the words from the pointer on become these, all
    /// or none (profile). The refusals are those of [`Memory::write`], for any of the words.
    pub fn block_write(
        &mut self,
        bank: Bank,
        pointer: Pointer,
        words: &BlockWords,
        level: Level,
        locks: &Locks,
    ) -> Result<(), ErrorCode>
        ensures ok { OnOk result
            (banks_after_write self.old locks.now level bank pointer words.now ≡ Ok self.new) }
        ensures err { IfErr result
            (λ code. (banks_after_write self.old locks.now level bank pointer words.now ≡ Err code)
            × (self.new ≡ self.old)) }
        ensures sound { AreSound self.new }
    {
        self.change(bank, pointer, words.as_slice(), level, locks)
    }

    /// What a BlockErase does (6.3.2.11.3.8 BlockErase): as many words from the pointer on become 0000h
    /// (profile), all or none. The refusals are those of [`Memory::write`], for any of the words.
    pub fn block_erase(
        &mut self,
        bank: Bank,
        pointer: Pointer,
        count: Count1,
        level: Level,
        locks: &Locks,
    ) -> Result<(), ErrorCode>
        ensures ok { OnOk result
            (banks_after_erase self.old locks.now level bank pointer count ≡ Ok self.new) }
        ensures err { IfErr result
            (λ code. (banks_after_erase self.old locks.now level bank pointer count ≡ Err code)
            × (self.new ≡ self.old)) }
        ensures sound { AreSound self.new }
    {
        self.change(bank, pointer, erased_words(count), level, locks)
    }
}
