//! The CRC-16, bit by bit and word by word.
ghost use Rattle.std.specs.Prelude.{◌≡◌, ◌↔◌, List, Bool, false, [], ◌∷◌, ◌++◌, length, replicate, IsTrue};
ghost use Rattle.bit_strings.specs.NumbersInBits.{value_of, field_of};
ghost use Rattle.bit_strings.specs.Words.{bits_of_words};
ghost use Rattle.gen2_crc.specs.Crc.{crc16_of, register_of, remainder_of, others16, residue, RegisterStandsFor};

use crate::tables::{BEHIND_LOWER, BEHIND_UPPER};
use bit_strings::word_of;
use std::marker::Model;

/// The coefficients of `x^16 + x^12 + x^5 + 1` behind the leading one.
const POLYNOMIAL: u16 = 0x1021;

/// What the register of the CRC-16 holds before the first bit.
const PRESET: u16 = 0xffff;

/// What the register holds after a message and its CRC-16.
const RESIDUE: u16 = 0x1d0f;

/// The CRC-16 of the bits pushed so far, in one register and with constant work a bit (Annex F).
///
/// A contract sees it as the number in the register, and says which list of bits it stands for.
#[derive(Clone, Copy, Debug, PartialEq, Eq)]
pub struct Crc16 {
    register: u16,
}

impl Model for Crc16 {
    ghost use Rattle.std.specs.Prelude.{ℕ, ◌^◌, ◌<◌};

    ghost Value = { ℕ };

    ghost view = { λ a. a.register };

    ghost invariant = { λ a. a.register < 2 ^ 16 };

    ghost inverse = { λ n. record { register = n } };
}

impl Crc16 {
    /// The register of the CRC-16 that stands for no bits.
    pub fn new() -> Crc16
        ensures { RegisterStandsFor result [] }
    {
        Crc16 { register: PRESET }
    }

    /// Takes one bit more into the register of the CRC-16.
    pub fn push(&mut self, bit: bool)
        ensures { (bits : List Bool) → RegisterStandsFor self.old bits
            → RegisterStandsFor self.new (bits ++ bit ∷ []) }
    {
        self.register = shifted16(self.register, bit);
    }

    /// Stands for the 16 bits of a word more.
    pub fn push_word(&mut self, word: u16)
        ensures { (bits : List Bool) → RegisterStandsFor self.old bits
            → RegisterStandsFor self.new (bits ++ field_of word 16) }
    {
        self.register = shifted_by_word(self.register ^ word);
    }

    /// Stands for the 8 bits of an octet more.
    fn push_octet(&mut self, octet: u8)
        ensures { (bits : List Bool) → RegisterStandsFor self.old bits
            → RegisterStandsFor self.new (bits ++ field_of octet 8) }
    {
        self.register = shifted_by_octet(self.register ^ 256 * u16::from(octet));
    }

    /// Stands for the bits of these words more.
    pub fn push_words(&mut self, words: &[u16])
        ensures { (front : List Bool) → RegisterStandsFor self.old front
            → RegisterStandsFor self.new (front ++ bits_of_words words.now) }
    {
        for word in words {
            self.push_word(*word);
        }
    }

    /// Stands for these bits more. They are taken 16 at a time, as far as they go.
    pub fn push_all(&mut self, bits: &[bool])
        ensures { (front : List Bool) → RegisterStandsFor self.old front
            → RegisterStandsFor self.new (front ++ bits.now) }
    {
        let words = bits.len() / 16;
        for at in 0..words {
            self.push_word(word_of(&bits[16 * at..16 * at + 16]));
        }
        self.push_few(&bits[16 * words..]);
    }

    /// Stands for these bits more, which are fewer than 16. The first eight are taken at once, where there are as many.
    fn push_few(&mut self, bits: &[bool])
        ensures { (front : List Bool) → RegisterStandsFor self.old front
            → RegisterStandsFor self.new (front ++ bits.now) }
    {
        if bits.len() < 8 {
            return self.push_each(bits);
        }
        let (octet, rest) = bits.split_at(8);
        self.push_octet(octet_of(octet));
        self.push_each(rest);
    }

    /// Stands for these bits more, taken one by one.
    fn push_each(&mut self, bits: &[bool])
        ensures { (front : List Bool) → RegisterStandsFor self.old front
            → RegisterStandsFor self.new (front ++ bits.now) }
    {
        for bit in bits {
            self.push(*bit);
        }
    }

    /// The CRC-16 of the bits.
    pub fn value(&self) -> u16
        ensures { (bits : List Bool) → RegisterStandsFor self.now bits
            → result ≡ value_of (crc16_of bits) }
    {
        !self.register
    }

    /// Whether the register holds 1D0Fh.
    pub fn is_residue(&self) -> bool
        ensures { (bits : List Bool) → RegisterStandsFor self.now bits
            → (IsTrue result ↔ (register_of bits ≡ residue)) }
    {
        self.register == RESIDUE
    }
}

/// What the register of the CRC-16 holds one bit later.
fn shifted16(register: u16, bit: bool) -> u16
    ensures { field_of result 16 ≡ remainder_of (field_of register 16) others16 (bit ∷ []) }
{
    let moved = 2 * (register % 0x8000);
    if (register >= 0x8000) != bit {
        moved ^ POLYNOMIAL
    } else {
        moved
    }
}

/// The register 16 zeros later. Long division takes differences to differences, so that each byte has a table of its own.
fn shifted_by_word(register: u16) -> u16
    ensures { field_of result 16
        ≡ remainder_of (field_of register 16) others16 (replicate 16 false) }
{
    let upper = (register >> 8) as usize;
    let lower = (register % 256) as usize;
    BEHIND_UPPER[upper] ^ BEHIND_LOWER[lower]
}

/// The number that 8 bits are, read as a word whose upper 8 bits are 0.
fn octet_of(bits: &[bool]) -> u8
    requires { length bits.now ≡ 8 }
    ensures { result ≡ value_of bits.now }
{
    let word = [
        false, false, false, false, false, false, false, false, bits[0], bits[1], bits[2], bits[3],
        bits[4], bits[5], bits[6], bits[7],
    ];
    word_of(&word) as u8
}

/// The register 8 zeros later. Its lower byte is then the upper one.
fn shifted_by_octet(register: u16) -> u16
    ensures { field_of result 16
        ≡ remainder_of (field_of register 16) others16 (replicate 8 false) }
{
    let upper = (register >> 8) as usize;
    let lower = register % 256;
    BEHIND_LOWER[upper] ^ 256 * lower
}
