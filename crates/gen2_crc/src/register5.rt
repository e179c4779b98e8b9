//! The CRC-5 bit by bit.
ghost use Rattle.std.specs.Prelude.{◌≡◌, ◌<◌, List, Bool, [], ◌∷◌, ◌++◌};
ghost use Rattle.bit_strings.specs.NumbersInBits.{value_of, field_of};
ghost use Rattle.gen2_crc.specs.Crc.{crc5_of, remainder_of, others5};

use std::marker::Model;

/// The coefficients of `x^5 + x^3 + 1` behind the leading one.
const POLYNOMIAL: u8 = 0b01001;

/// What the register of the CRC-5 holds before the first bit.
const PRESET: u8 = 0b01001;

/// The CRC-5 of the bits pushed so far, in one register and with constant work a bit (Annex F).
///
/// A contract sees it as the number in the register.
#[derive(Clone, Copy, Debug, PartialEq, Eq)]
pub struct Crc5 {
    register: u8,
}

impl Model for Crc5 {
    ghost use Rattle.std.specs.Prelude.{ℕ, ◌<◌};

    ghost Value = { ℕ };

    ghost view = { λ a. a.register };

    ghost invariant = { λ a. a.register < 32 };

    ghost inverse = { λ n. record { register = n } };
}

impl Crc5 {
    /// The register of the CRC-5 that stands for no bits.
    pub fn new() -> Crc5
        ensures { result ≡ value_of (crc5_of []) }
    {
        Crc5 { register: PRESET }
    }

    /// Takes one bit more into the register of the CRC-5.
    pub fn push(&mut self, bit: bool)
        ensures { (bits : List Bool) → self.old ≡ value_of (crc5_of bits)
            → self.new ≡ value_of (crc5_of (bits ++ bit ∷ [])) }
    {
        self.register = shifted5(self.register, bit);
    }

    /// Stands for these bits more.
    pub fn push_all(&mut self, bits: &[bool])
        ensures { (front : List Bool) → self.old ≡ value_of (crc5_of front)
            → self.new ≡ value_of (crc5_of (front ++ bits.now)) }
    {
        for bit in bits {
            self.push(*bit);
        }
    }

    /// The CRC-5 of the bits, a number below 32.
    pub fn value(&self) -> u8
        ensures register { result ≡ self.now }
        ensures small { result < 32 }
    {
        self.register
    }
}

/// What the register of the CRC-5 holds one bit later.
fn shifted5(register: u8, bit: bool) -> u8
    requires { register < 32 }
    ensures small { result < 32 }
    ensures step { field_of result 5 ≡ remainder_of (field_of register 5) others5 (bit ∷ []) }
{
    let moved = 2 * (register % 16);
    if (register >= 16) != bit {
        moved ^ POLYNOMIAL
    } else {
        moved
    }
}
