//! The lists that commands carry, in a room of their own.
ghost use Rattle.std.specs.Prelude.{◌≡◌, ◌<◌, ◌≤◌, ◌↔◌, [], ◌∷◌, ◌++◌, length, IsErr, IsTrue, IsNone, OnErr, slice_get};

use arrayvec::ArrayVec;
use bit_strings::Full;
use std::marker::Model;

/// The mask of a Select (6.3.2.11.1.1 Select): at most 255 bits. A contract sees the list of them.
#[derive(Clone, Debug, PartialEq, Eq, Drop)]
pub struct Mask {
    bits: ArrayVec<bool, 255>,
}

impl Model for Mask {
    ghost use Rattle.std.specs.Prelude.{List, Bool, ◌≤◌, length};

    ghost Value = { List Bool };

    ghost view = { λ mask. mask.bits.items };

    ghost invariant = { λ mask. length mask.bits.items ≤ 255 };

    ghost inverse = { λ bits. record { bits = record { items = bits } } };
}

impl Mask {
    /// The empty mask, which every tag matches that has the bit at its pointer.
    pub fn new() -> Mask
        ensures { result ≡ [] }
    {
        Mask {
            bits: ArrayVec::new(),
        }
    }

    /// Adds a bit at the end. `Full` comes exactly at 255 bits, and changes nothing.
    pub fn push(&mut self, bit: bool) -> Result<(), Full>
        ensures full { IsErr result ↔ (length self.old ≡ 255) }
        ensures room { length self.old < 255 → self.new ≡ self.old ++ bit ∷ [] }
        ensures err { OnErr result (self.new ≡ self.old) }
    {
        self.bits.try_push(bit).or(Err(Full))
    }

    /// Adds a bit at the end of a mask that has room.
    pub fn push_reserved(&mut self, bit: bool)
        requires { length self.old < 255 }
        ensures { self.new ≡ self.old ++ bit ∷ [] }
    {
        self.bits.push(bit);
    }

    /// How many bits the mask has.
    pub fn len(&self) -> u32
        ensures count { result ≡ length self.now }
        ensures within { length self.now ≤ 255 }
    {
        self.bits.len() as u32
    }

    /// Whether the mask has no bit.
    pub fn is_empty(&self) -> bool
        ensures { IsTrue result ↔ (self.now ≡ []) }
    {
        self.bits.is_empty()
    }

    /// The bit of the mask at the place `at`, counted from 0; none past the end of the mask.
    pub fn get(&self, at: u32) -> Option<bool>
        ensures value { result ≡ slice_get self.now at }
        ensures none { IsNone result ↔ (length self.now ≤ at) }
    {
        self.bits.get(at as usize).copied()
    }

    /// All bits of the mask of a Select, as a slice.
    pub fn as_slice(&self) -> &[bool]
        ensures value { result.now ≡ self.now }
        ensures within { length self.now ≤ 255 }
    {
        self.bits.as_slice()
    }
}

/// The words of a BlockWrite (6.3.2.11.3.7 BlockWrite): 1 to 255 words of 16 bits. A contract sees
/// the list of them.
#[derive(Clone, Debug, PartialEq, Eq, Drop)]
pub struct BlockWords {
    words: ArrayVec<u16, 255>,
}

impl Model for BlockWords {
    ghost use Rattle.std.specs.Prelude.{List, ℕ, ◌≤◌, length};

    ghost Value = { List ℕ };

    ghost view = { λ block. block.words.items };

    ghost invariant = { λ block. (1 ≤ length block.words.items)
        × (length block.words.items ≤ 255) };

    ghost inverse = { λ words. record { words = record { items = words } } };
}

impl BlockWords {
    /// The block of this one word.
    pub fn first(word: u16) -> BlockWords
        ensures { result ≡ word ∷ [] }
    {
        let mut block = ArrayVec::new();
        block.push(word);
        BlockWords { words: block }
    }

    /// The block of these words.
    pub fn of(words: &[u16]) -> BlockWords
        requires some { 1 ≤ length words.now }
        requires within { length words.now ≤ 255 }
        ensures { result ≡ words.now }
    {
        let mut block = ArrayVec::new();
        // There is room for each word.
        let _ = block.try_extend_from_slice(words);
        BlockWords { words: block }
    }

    /// Adds a word at the end. `Full` comes exactly at 255 words, and changes nothing.
    pub fn push(&mut self, word: u16) -> Result<(), Full>
        ensures full { IsErr result ↔ (length self.old ≡ 255) }
        ensures room { length self.old < 255 → self.new ≡ self.old ++ word ∷ [] }
        ensures err { OnErr result (self.new ≡ self.old) }
    {
        self.words.try_push(word).or(Err(Full))
    }

    /// Adds a word at the end of a block that has room.
    pub fn push_reserved(&mut self, word: u16)
        requires { length self.old < 255 }
        ensures { self.new ≡ self.old ++ word ∷ [] }
    {
        self.words.push(word);
    }

    /// How many words the block has.
    pub fn len(&self) -> u32
        ensures count { result ≡ length self.now }
        ensures within { length self.now ≤ 255 }
        ensures some { 1 ≤ length self.now }
    {
        self.words.len() as u32
    }

    /// The word at the place `at`, counted from 0; none past the end.
    pub fn get(&self, at: u32) -> Option<u16>
        ensures value { result ≡ slice_get self.now at }
        ensures none { IsNone result ↔ (length self.now ≤ at) }
    {
        self.words.get(at as usize).copied()
    }

    /// All words of the block of a BlockWrite, as a slice.
    pub fn as_slice(&self) -> &[u16]
        ensures value { result.now ≡ self.now }
        ensures within { length self.now ≤ 255 }
        ensures some { 1 ≤ length self.now }
    {
        self.words.as_slice()
    }
}
