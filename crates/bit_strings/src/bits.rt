//! A list of bits with a capacity.
ghost use Rattle.std.specs.Prelude.{◌≡◌, ◌+◌, ◌*◌, ◌<◌, ◌≤◌, ◌↔◌, List, [], ◌∷◌, ◌++◌, length, Bool, not, Some, IsErr, IsTrue, IsNone, IfSome, IfNone, OnErr, IfOk, slice_get, slice_set, map, ◌==◌};
ghost use Rattle.bit_strings.specs.Words.{bits_of_words};

use crate::list::List;
use std::alloc::{AllocError, Global};
use std::marker::Model;
use std::mem;
use thiserror::Error;

/// The answer of a call that wants memory where there is none. Nothing else is ever meant by it.
pub type OutOfMemory = AllocError;

/// The answer of a call that adds to a list whose free places don't suffice. Nothing was added.
#[derive(Clone, Copy, Debug, PartialEq, Eq, Error)]
#[error("the list has too few free places")]
pub struct Full;

/// How many bits are told of bytes at once.
const TOGETHER: usize = 64;

/// A list of bits. Its capacity, in bits, is fixed when it is made, and no later call takes memory.
///
/// A contract sees it as a record of the list `items` and the number `capacity`.
#[derive(Drop)]
pub struct Bits {
    bits: Vec<bool>,
    room: u32,
}

/// A list of levels, one for each half period of the backscatter link frequency: `true` is high.
pub type Levels = Bits;

impl Model for Bits {
    ghost use Rattle.std.specs.Prelude.{◌^◌, ◌<◌, ◌≤◌, vec_len, vec_capacity};
    ghost use Rattle.bit_strings.specs.BitString.{BitString};

    ghost Value = { BitString };

    ghost view = { λ a. record { items = a.bits.items; capacity = a.room } };

    ghost invariant = { λ a. (vec_len a.bits ≤ a.room) × (a.room ≤ vec_capacity a.bits)
        × (a.room < 2 ^ 32) };
}

impl Bits {
    /// The empty list with room for `capacity` bits.
    pub fn new(alloc: Global, capacity: u32) -> Result<Bits, OutOfMemory>
        ensures { IfOk result (λ bits. (bits.items ≡ []) × (bits.capacity ≡ capacity)) }
    {
        let bits = Vec::with_capacity(alloc, capacity as usize)?;
        Ok(Bits {
            bits,
            room: capacity,
        })
    }

    /// Takes the list out of its place, where an empty one without room stays.
    pub fn take(&mut self) -> Bits
        ensures taken { result ≡ self.old }
        ensures left { self.new ≡ record { items = []; capacity = 0 } }
    {
        let bits = Vec::new(*self.bits.allocator());
        mem::replace(self, Bits { bits, room: 0 })
    }

    /// How many bits the list has.
    pub fn len(&self) -> u32
        ensures count { result ≡ length self.now.items }
        ensures within { length self.now.items ≤ self.now.capacity }
    {
        self.bits.len() as u32
    }

    /// Whether the list has no bit.
    pub fn is_empty(&self) -> bool
        ensures { IsTrue result ↔ (self.now.items ≡ []) }
    {
        self.bits.is_empty()
    }

    /// How many bits the list has room for, those that it has included.
    pub fn capacity(&self) -> u32
        ensures room { result ≡ self.now.capacity }
        ensures within { length self.now.items ≤ self.now.capacity }
    {
        self.room
    }

    /// Takes all bits off. The capacity stays.
    pub fn clear(&mut self)
        ensures { self.new ≡ record self.old { items = [] } }
    {
        self.bits.clear();
    }

    /// The bit at the place `at` of the list of bits, counted from 0; none past its last one.
    pub fn get(&self, at: u32) -> Option<bool>
        ensures value { result ≡ slice_get self.now.items at }
        ensures none { IsNone result ↔ (length self.now.items ≤ at) }
    {
        self.bits.get(at as usize).copied()
    }

    /// The last bit; none where the list is empty.
    pub fn last(&self) -> Option<bool>
        ensures value { IfSome result
            (λ bit. (front : List Bool) × (self.now.items ≡ front ++ bit ∷ [])) }
        ensures none { IsNone result ↔ (self.now.items ≡ []) }
    {
        self.bits.last().copied()
    }

    /// All bits of the list, as a slice.
    pub fn as_slice(&self) -> &[bool]
        ensures value { result.now ≡ self.now.items }
        ensures within { length self.now.items ≤ self.now.capacity }
    {
        self.bits.as_slice()
    }

    /// Adds a bit at the end. `Full` comes exactly where the list has as many bits as it has room
    /// for, and changes nothing.
    pub fn push(&mut self, bit: bool) -> Result<(), Full>
        ensures full { IsErr result ↔ (length self.old.items ≡ self.old.capacity) }
        ensures room { length self.old.items < self.old.capacity
            → self.new ≡ record self.old { items = self.old.items ++ bit ∷ [] } }
        ensures err { OnErr result (self.new ≡ self.old) }
    {
        if self.bits.len() == self.room as usize {
            return Err(Full);
        }
        self.push_reserved(bit);
        Ok(())
    }

    /// Adds a bit at the end of a list that has room for it.
    pub fn push_reserved(&mut self, bit: bool)
        requires { length self.old.items < self.old.capacity }
        ensures { self.new ≡ record self.old { items = self.old.items ++ bit ∷ [] } }
    {
        self.bits.push_reserved(bit);
    }

    /// Adds these bits, all at once, to a list that has room for them.
    pub fn put_all_reserved(&mut self, bits: &[bool])
        requires { length self.old.items + length bits.now ≤ self.old.capacity }
        ensures { self.new ≡ record self.old { items = self.old.items ++ bits.now } }
    {
        // There is room for each bit.
        let _ = self.bits.extend_from_slice(bits);
    }

    /// Adds the bits of words, one word behind the other, to a list that has room for them.
    pub fn put_words_reserved(&mut self, words: &[u16])
        requires { length self.old.items + 16 * length words.now ≤ self.old.capacity }
        ensures { self.new ≡ record self.old { items = self.old.items ++ bits_of_words words.now } }
    {
        for word in words {
            self.put_u16_reserved(*word);
        }
    }

    /// Puts one bit for each byte in place of what the list holds: 1 where the byte is `one`, else 0.
    /// `Full` comes exactly where there are more bytes than the list has room for, and changes
    /// nothing.
    pub fn copy_bytes(&mut self, bytes: &[u8], one: u8) -> Result<(), Full>
        ensures full { IsErr result ↔ (self.old.capacity < length bytes.now) }
        ensures room { length bytes.now ≤ self.old.capacity
            → self.new ≡ record self.old { items = map (λ byte. byte == one) bytes.now } }
        ensures err { OnErr result (self.new ≡ self.old) }
    {
        if bytes.len() > self.room as usize {
            return Err(Full);
        }
        self.clear();
        self.put_matches_reserved(bytes, one);
        Ok(())
    }

    /// Adds, for each byte, whether it is `one`, to a list that has room for as many bits.
    fn put_matches_reserved(&mut self, bytes: &[u8], one: u8)
        requires { length self.old.items + length bytes.now ≤ self.old.capacity }
        ensures { self.new
            ≡ record self.old { items = self.old.items ++ map (λ byte. byte == one) bytes.now } }
    {
        // Many are written to a place of their own first and added at once, so that the list isn't filled before.
        let mut bits = [false; TOGETHER];
        let mut rest = bytes;
        while let Some((part, behind)) = rest.split_first_chunk::<TOGETHER>() {
            write_matches(part, one, &mut bits);
            self.put_all_reserved(&bits);
            rest = behind;
        }
        let last = &mut bits[..rest.len()];
        write_matches(rest, one, last);
        self.put_all_reserved(last);
    }

    /// Takes the last bit off and answers it; none where the list is empty, and then nothing changes.
    pub fn pop(&mut self) -> Option<bool>
        ensures some { IfSome result
            (λ bit. self.old ≡ record self.new { items = self.new.items ++ bit ∷ [] }) }
        ensures none { IsNone result ↔ (self.old.items ≡ []) }
        ensures unchanged { IfNone result (self.new ≡ self.old) }
    {
        self.bits.pop()
    }

    /// Inverts the bit at the place `at`, counted from 0.
    pub fn flip(&mut self, at: u32)
        requires { at < length self.old.items }
        ensures value { (bit : Bool) → slice_get self.old.items at ≡ Some bit
            → self.new ≡ record self.old { items = slice_set self.old.items at (not bit) } }
        ensures capacity { self.new.capacity ≡ self.old.capacity }
    {
        self.bits[at as usize] = !self.bits[at as usize];
    }

    /// The bits as a list without free places.
    pub fn into_list(self) -> List<bool>
        ensures { result ≡ self.items }
    {
        let Bits { bits, room: _ } = self;
        List::new(bits)
    }
}

/// Writes, for each byte, whether it is `one`.
fn write_matches(bytes: &[u8], one: u8, bits: &mut [bool])
    requires { length bytes.now ≡ length bits.old }
    ensures { bits.new ≡ map (λ byte. byte == one) bytes.now }
{
    for (at, byte) in bytes.iter().enumerate() {
        bits[at] = *byte == one;
    }
}
