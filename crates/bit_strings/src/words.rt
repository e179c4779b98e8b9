//! Words and the 16 bits of each, all at once (6.3.1.4 Transmission order).
ghost use Rattle.std.specs.Prelude.{◌≡◌, ◌*◌, length, map};
ghost use Rattle.bit_strings.specs.NumbersInBits.{digit_of, value_of, field_of};

use std::simd::prelude::{SimdPartialEq, u8x16};

/// The word that 16 bits are, most significant bit first.
pub fn word_of(bits: &[bool]) -> u16
    requires { length bits.now ≡ 16 }
    ensures { result ≡ value_of bits.now }
{
    mask_of(bits) as u16
}

/// The number that 16 bits are. They are compared as one vector, of whose mask the first lane gives the lowest bit.
fn mask_of(bits: &[bool]) -> u64
    requires { length bits.now ≡ 16 }
    ensures { result ≡ value_of bits.now }
{
    let lanes = u8x16::from_array([
        u8::from(bits[15]),
        u8::from(bits[14]),
        u8::from(bits[13]),
        u8::from(bits[12]),
        u8::from(bits[11]),
        u8::from(bits[10]),
        u8::from(bits[9]),
        u8::from(bits[8]),
        u8::from(bits[7]),
        u8::from(bits[6]),
        u8::from(bits[5]),
        u8::from(bits[4]),
        u8::from(bits[3]),
        u8::from(bits[2]),
        u8::from(bits[1]),
        u8::from(bits[0]),
    ]);
    lanes.simd_eq(u8x16::splat(1)).to_bitmask()
}

/// The place value of each bit within its byte, of two bytes.
const PLACES: [u8; 16] = [128, 64, 32, 16, 8, 4, 2, 1, 128, 64, 32, 16, 8, 4, 2, 1];

/// The 16 bits of a word as digits 0 and 1. All places are tried at once.
fn digits_of(word: u16) -> [u8; 16]
    ensures { result ≡ map digit_of (field_of word 16) }
{
    let [high, low] = word.to_be_bytes();
    let places = u8x16::from_array(PLACES);
    let bytes = u8x16::from_array([
        high, high, high, high, high, high, high, high, low, low, low, low, low, low, low, low,
    ]);
    (bytes & places)
        .simd_eq(places)
        .select(u8x16::splat(1), u8x16::splat(0))
        .to_array()
}

/// The 16 bits of a word.
pub fn bits_of(word: u16) -> [bool; 16]
    ensures { result ≡ field_of word 16 }
{
    let digits = digits_of(word);
    let mut bits = [false; 16];
    for at in 0..16 {
        bits[at] = digits[at] == 1;
    }
    bits
}
