//! Lists of words in fixed room, which take no memory.
ghost use Rattle.std.specs.Prelude.{◌≡◌, ◌^◌, ◌<◌, ◌≤◌, ◌↔◌, [], ◌∷◌, ◌++◌, length, All, IsErr, IsNone, OnErr, slice_get};

use arrayvec::ArrayVec;
use bit_strings::Full;
use std::marker::Model;

/// Words, at most `MOST` of them.
///
/// A contract sees it as the list of its words.
#[derive(Clone, Drop, Debug, PartialEq, Eq, PartialOrd, Ord, Hash)]
pub struct WordList<const MOST: usize> {
    words: ArrayVec<u16, MOST>,
}

/// The words of an EPC, at most 31: what the five bits of a PC can count (6.3.2.1.2.2 Protocol-control
/// word).
pub type EpcWords = WordList<31>;

/// The words that a Read brings, at most 512: the most that a bank of this profile has.
pub type ReadWords = WordList<512>;

impl<const MOST: usize> Model for WordList<MOST> {
    ghost use Rattle.std.specs.Prelude.{ℕ, List, ◌^◌, ◌<◌, ◌≤◌, length, All};

    ghost Value = { List ℕ };

    ghost view = { λ a. a.words.items };

    ghost invariant = { λ a. (length a.words.items ≤ MOST)
        × (MOST < 2 ^ 32)
        × All (λ word. word < 2 ^ 16) a.words.items };

    ghost inverse = { λ words. record { words = record { items = words } } };
}

// No list is made but of these two limits, which are numbers of 32 bits, as `len` wants it.
impl WordList<31> {
    /// The list of no words of an EPC, with room for 31.
    pub fn new() -> EpcWords
        ensures { result ≡ [] }
    {
        WordList {
            words: ArrayVec::new(),
        }
    }

    /// The list of these words.
    pub fn of(words: &[u16]) -> EpcWords
        requires { length words.now ≤ 31 }
        ensures { result ≡ words.now }
    {
        let mut list = EpcWords::new();
        list.fill(words);
        list
    }
}

impl WordList<512> {
    /// The list of no words that a Read brings, with room for 512.
    pub fn new() -> ReadWords
        ensures { result ≡ [] }
    {
        WordList {
            words: ArrayVec::new(),
        }
    }

    /// The list of these words.
    pub fn of(words: &[u16]) -> ReadWords
        requires { length words.now ≤ 512 }
        ensures { result ≡ words.now }
    {
        let mut list = ReadWords::new();
        list.fill(words);
        list
    }
}

impl<const MOST: usize> WordList<MOST> {
    /// Puts these words into an empty list.
    fn fill(&mut self, words: &[u16])
        requires empty { self.old ≡ [] }
        requires within { length words.now ≤ MOST }
        ensures { self.new ≡ words.now }
    {
        // There is room for each word.
        let _ = self.words.try_extend_from_slice(words);
    }

    /// How many words the list has.
    pub fn len(&self) -> u32
        ensures count { result ≡ length self.now }
        ensures most { length self.now ≤ MOST }
    {
        self.words.len() as u32
    }

    /// The word at the place `at`, counted from 0; none exactly past the end.
    pub fn get(&self, at: u32) -> Option<u16>
        ensures value { result ≡ slice_get self.now at }
        ensures none { IsNone result ↔ (length self.now ≤ at) }
    {
        self.words.as_slice().get(at as usize).copied()
    }

    /// The words as a slice.
    pub fn as_slice(&self) -> &[u16]
        ensures value { result.now ≡ self.now }
        ensures most { length self.now ≤ MOST }
        ensures words { All (λ word. word < 2 ^ 16) self.now }
    {
        self.words.as_slice()
    }

    /// Takes all words off.
    pub fn clear(&mut self)
        ensures { self.new ≡ [] }
    {
        self.words.clear();
    }

    /// Adds a word at the end. `Full` comes exactly at `MOST` words, and changes nothing.
    pub fn push(&mut self, word: u16) -> Result<(), Full>
        ensures full { IsErr result ↔ (length self.old ≡ MOST) }
        ensures room { length self.old < MOST → self.new ≡ self.old ++ word ∷ [] }
        ensures err { OnErr result (self.new ≡ self.old) }
    {
        if self.words.is_full() {
            return Err(Full);
        }
        self.push_reserved(word);
        Ok(())
    }

    /// Adds a word at the end of a list that has room.
    pub fn push_reserved(&mut self, word: u16)
        requires { length self.old < MOST }
        ensures { self.new ≡ self.old ++ word ∷ [] }
    {
        self.words.push(word);
    }
}
