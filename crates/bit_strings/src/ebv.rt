//! Extensible bit vectors in a list of bits.
ghost use Rattle.std.specs.Prelude.{◌≡◌, ◌+◌, ◌*◌, ◌^◌, ◌<◌, ◌≤◌, ◌↔◌, ◌++◌, length, IsErr, OnErr};
ghost use Rattle.bit_strings.specs.Ebv.{ebv_of};
ghost use Rattle.bit_strings.specs.EbvAnswers.{IsEbvAnswer};
ghost use Rattle.bit_strings.specs.declared.ebv.Ebv.{Ebv};

use crate::bits::{Bits, Full};
use crate::ebv_front::{EbvFront, EbvStep};

/// What stands at the place where an extensible bit vector is looked for (Annex A). Only the
/// shortest spelling, of at most four blocks, is one (profile).
#[derive(Clone, Copy, Debug, PartialEq, Eq)]
pub enum Ebv {
    /// An extensible bit vector, and the place behind it.
    Value {
        /// The number, below `2^28`.
        value: u32,
        /// The place of the first bit behind it, counted from 0.
        next: u32,
    },
    /// The list ends inside one.
    Short,
    /// The first block is 10000000, so a shorter spelling exists.
    NotShortest,
    /// Four blocks are begun and each says that another follows.
    TooLong,
}

impl Bits {
    /// Adds the extensible bit vector of a number. `Full` comes exactly where its bits have not
    /// enough free places, and changes nothing.
    pub fn put_ebv(&mut self, value: u32) -> Result<(), Full>
        requires { value < 2 ^ 28 }
        ensures full { IsErr result
            ↔ (self.old.capacity < length self.old.items + length (ebv_of value)) }
        ensures room { length self.old.items + length (ebv_of value) ≤ self.old.capacity
            → self.new ≡ record self.old { items = self.old.items ++ ebv_of value } }
        ensures err { OnErr result (self.new ≡ self.old) }
    {
        if self.capacity() - self.len() < 8 * blocks_of(value) {
            return Err(Full);
        }
        self.put_ebv_reserved(value);
        Ok(())
    }

    /// Adds the extensible bit vector of a number to a list that has room for it.
    pub fn put_ebv_reserved(&mut self, value: u32)
        requires fits { value < 2 ^ 28 }
        requires room { length self.old.items + length (ebv_of value) ≤ self.old.capacity }
        ensures { self.new ≡ record self.old { items = self.old.items ++ ebv_of value } }
    {
        let mut left = blocks_of(value);
        while left > 0 {
            left -= 1;
            self.push_reserved(left > 0);
            self.put_field_reserved((value >> (7 * left)) % 128, 7);
        }
    }

    /// Reads the extensible bit vector that begins at the place `from`.
    pub fn take_ebv(&self, from: u32) -> Ebv
        ensures answer { IsEbvAnswer result self.now.items from }
        ensures only { (other : Ebv) → IsEbvAnswer other self.now.items from → result ≡ other }
    {
        self.read_vector(from)
    }

    /// Reads bit by bit, until the vector is whole or refused, or the list ends.
    fn read_vector(&self, from: u32) -> Ebv
        ensures { IsEbvAnswer result self.now.items from }
    {
        let mut front = EbvFront::new();
        for at in from..self.len() {
            match front.take(self.as_slice()[at as usize]) {
                EbvStep::More(more) => front = more,
                EbvStep::Value(value) => return Ebv::Value {
                    value,
                    next: at + 1,
                },
                EbvStep::NotShortest => return Ebv::NotShortest,
                EbvStep::TooLong => return Ebv::TooLong,
            }
        }
        Ebv::Short
    }
}

/// How many blocks the shortest spelling of a number takes.
fn blocks_of(value: u32) -> u32
    requires { value < 2 ^ 28 }
    ensures count { 8 * result ≡ length (ebv_of value) }
    ensures few { result ≤ 4 }
{
    match value {
        0..=0x7f => 1,
        0x80..=0x3fff => 2,
        0x4000..=0x1f_ffff => 3,
        _ => 4,
    }
}
