//! Numbers in a list of bits, each most significant bit first (6.3.1.4 Transmission order).
ghost use Rattle.std.specs.Prelude.{◌≡◌, ◌+◌, ◌^◌, ◌<◌, ◌≤◌, ◌↔◌, ◌++◌, length, IsErr, IsNone, IfSome, OnErr, bit_xor};
ghost use Rattle.bit_strings.specs.NumbersInBits.{value_of, field_of, part_of};

use crate::bits::{Bits, Full};
use crate::words::{bits_of, word_of};

impl Bits {
    /// Adds the `width` bits of `value`. `Full` comes exactly where fewer than `width` places are
    /// free, and changes nothing.
    pub fn put_field(&mut self, value: u32, width: u32) -> Result<(), Full>
        requires narrow { width ≤ 31 }
        requires fits { value < 2 ^ width }
        ensures full { IsErr result ↔ (self.old.capacity < length self.old.items + width) }
        ensures room { length self.old.items + width ≤ self.old.capacity
            → self.new ≡ record self.old { items = self.old.items ++ field_of value width } }
        ensures err { OnErr result (self.new ≡ self.old) }
    {
        if self.capacity() - self.len() < width {
            return Err(Full);
        }
        self.put_field_reserved(value, width);
        Ok(())
    }

    /// Adds the `width` bits of `value` to a list that has room for them.
    pub fn put_field_reserved(&mut self, value: u32, width: u32)
        requires narrow { width ≤ 31 }
        requires fits { value < 2 ^ width }
        requires room { length self.old.items + width ≤ self.old.capacity }
        ensures { self.new ≡ record self.old { items = self.old.items ++ field_of value width } }
    {
        let mut places = width;
        while places > 0 {
            places -= 1;
            self.push_reserved((value >> places) % 2 == 1);
        }
    }

    /// Adds the 16 bits of a word. `Full` comes exactly where fewer than 16 places are free, and
    /// changes nothing.
    pub fn put_u16(&mut self, value: u16) -> Result<(), Full>
        ensures full { IsErr result ↔ (self.old.capacity < length self.old.items + 16) }
        ensures room { length self.old.items + 16 ≤ self.old.capacity
            → self.new ≡ record self.old { items = self.old.items ++ field_of value 16 } }
        ensures err { OnErr result (self.new ≡ self.old) }
    {
        self.put_field(u32::from(value), 16)
    }

    /// Adds the 16 bits of a word to a list that has room for them.
    pub fn put_u16_reserved(&mut self, value: u16)
        requires { length self.old.items + 16 ≤ self.old.capacity }
        ensures { self.new ≡ record self.old { items = self.old.items ++ field_of value 16 } }
    {
        self.put_all_reserved(&bits_of(value));
    }

    /// The number that the `width` bits from the place `from` on are. None comes exactly where
    /// fewer bits stand there.
    pub fn field(&self, from: u32, width: u32) -> Option<u32>
        requires { width ≤ 31 }
        ensures some { IfSome result
            (λ value. value ≡ value_of (part_of self.now.items from width)) }
        ensures none { IsNone result ↔ (length self.now.items < from + width) }
        ensures within { length self.now.items < 2 ^ 32 }
    {
        if self.len() < width || self.len() - width < from {
            return None;
        }
        Some(value_of_bits(&self.as_slice()[from as usize..(from + width) as usize]))
    }

    /// The word that the 16 bits from the place `from` on are. None comes exactly where fewer
    /// than 16 bits stand there.
    pub fn word(&self, from: u32) -> Option<u16>
        ensures some { IfSome result (λ word. word ≡ value_of (part_of self.now.items from 16)) }
        ensures none { IsNone result ↔ (length self.now.items < from + 16) }
    {
        let (_, behind) = self.as_slice().split_at_checked(from as usize)?;
        let (bits, _) = behind.split_at_checked(16)?;
        Some(word_of(bits))
    }
}

/// The number that at most 31 bits are, most significant bit first.
pub fn value_of_bits(bits: &[bool]) -> u32
    requires { length bits.now ≤ 31 }
    ensures { result ≡ value_of bits.now }
{
    let mut value = 0;
    for bit in bits {
        value = 2 * value + u32::from(*bit);
    }
    value
}

/// The word that has a 1 where just one of the two has one: how a word is covered by another and
/// uncovered by the same (6.3.2.11.3 cover-coding).
pub fn xor16(a: u16, b: u16) -> u16
    ensures { result ≡ bit_xor a b }
{
    a ^ b
}
