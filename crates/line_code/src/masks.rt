//! Levels as the bits of a number.
ghost use Rattle.std.specs.Prelude.{◌≡◌, length, map};
ghost use Rattle.std.specs.Simd.Lanes.{mask_l};
ghost use Rattle.bit_strings.specs.NumbersInBits.{digit_of};

use std::simd::prelude::{SimdPartialEq, u8x16};

/// 16 levels as the bits of a number, of which the first level is the lowest.
pub fn word_of_levels(levels: &[bool]) -> u16
    requires { length levels.now ≡ 16 }
    ensures { result ≡ mask_l levels.now }
{
    digits_of(levels).simd_eq(u8x16::splat(1)).to_bitmask() as u16
}

/// 16 levels as digits.
fn digits_of(levels: &[bool]) -> u8x16
    requires { length levels.now ≡ 16 }
    ensures { result ≡ map digit_of levels.now }
{
    let mut digits = [0; 16];
    for at in 0..16 {
        digits[at] = u8::from(levels[at]);
    }
    u8x16::from_array(digits)
}
