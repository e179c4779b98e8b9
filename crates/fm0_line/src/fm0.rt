//! FM0 baseband and its preamble.
ghost use Rattle.std.specs.Prelude.{◌≡◌, ◌<◌, Some, ◌∷◌, [], true, Bool, List, length, map};
ghost use Rattle.std.specs.Simd.Lanes.{mask_l};
ghost use Rattle.bit_strings.specs.NumbersInBits.{digit_of, field_of};
ghost use Rattle.line_code.specs.Stream.{blocks};
ghost use Rattle.fm0_line.specs.Fm0.{fm0, fm0_second};
ghost use Rattle.fm0_line.specs.Stays.{stays, odds};
ghost use Rattle.fm0_line.specs.laws.Fm0.{fm0_even, fm0_has_lead, fm0_tells_bits, fm0_refuses_flips, fm0_hides_lead};

use line_code::{LineCode, word_of_levels};
use std::simd::prelude::{SimdPartialEq, u8x4, u8x16};

/// FM0 baseband (6.3.1.3.2.1 of the standard): the level inverts at each boundary of a symbol, and a
/// data-0 inverts in its middle too. A symbol has two levels.
#[derive(Clone, Copy, Debug, PartialEq, Eq)]
pub struct Fm0;

/// The FM0 symbol before a bit's block: its bit, and its last level.
#[derive(Clone, Copy, Debug, PartialEq, Eq)]
pub struct SymbolBefore {
    bit: bool,
    last_level: bool,
}

/// The preamble (6.3.1.3.2.2 of the standard): the symbols 1, 0, 1, 0, v, 1, where v lacks its
/// inversion at the boundary.
const PREAMBLE: [bool; 12] = [
    true, true, false, true, false, false, true, false, false, false, true, true,
];

/// The pilot of TRext 1, which is 12 data-0 symbols, and the preamble.
const LONG_LEAD: [bool; 36] = [
    true, false, true, false, true, false, true, false, true, false, true, false, true, false,
    true, false, true, false, true, false, true, false, true, false, true, true, false, true,
    false, false, true, false, false, false, true, true,
];

/// The levels of each symbol, by its first level and by its bit.
const SYMBOLS: [[[bool; 2]; 2]; 2] = [
    [[false, true], [false, false]],
    [[true, false], [true, true]],
];

/// The levels of four symbols, one behind the other. The level before them and their bits are the digits of the row's number.
const FOUR_SYMBOLS: [[bool; 8]; 32] = [
    [true, false, true, false, true, false, true, false],
    [true, false, true, false, true, false, true, true],
    [true, false, true, false, true, true, false, true],
    [true, false, true, false, true, true, false, false],
    [true, false, true, true, false, true, false, true],
    [true, false, true, true, false, true, false, false],
    [true, false, true, true, false, false, true, false],
    [true, false, true, true, false, false, true, true],
    [true, true, false, true, false, true, false, true],
    [true, true, false, true, false, true, false, false],
    [true, true, false, true, false, false, true, false],
    [true, true, false, true, false, false, true, true],
    [true, true, false, false, true, false, true, false],
    [true, true, false, false, true, false, true, true],
    [true, true, false, false, true, true, false, true],
    [true, true, false, false, true, true, false, false],
    [false, true, false, true, false, true, false, true],
    [false, true, false, true, false, true, false, false],
    [false, true, false, true, false, false, true, false],
    [false, true, false, true, false, false, true, true],
    [false, true, false, false, true, false, true, false],
    [false, true, false, false, true, false, true, true],
    [false, true, false, false, true, true, false, true],
    [false, true, false, false, true, true, false, false],
    [false, false, true, false, true, false, true, false],
    [false, false, true, false, true, false, true, true],
    [false, false, true, false, true, true, false, true],
    [false, false, true, false, true, true, false, false],
    [false, false, true, true, false, true, false, true],
    [false, false, true, true, false, true, false, false],
    [false, false, true, true, false, false, true, false],
    [false, false, true, true, false, false, true, true],
];

/// The first level of each of 16 symbols, of which each has two places of a word.
const BOUNDARIES: u32 = 0x5555_5555;

/// The place value of the second level of each of 16 symbols within its byte, which has four symbols.
const MIDDLES: [u8; 16] = [2, 8, 32, 128, 2, 8, 32, 128, 2, 8, 32, 128, 2, 8, 32, 128];

/// The second level of a symbol whose first level is this.
fn second_level(first: bool, bit: bool) -> bool
    ensures { result ≡ fm0_second first bit }
{
    if bit { first } else { !first }
}

/// The levels of four symbols, one behind the other, by the level before them and by their bits, which are the last four of a number.
fn four_symbols(before: bool, number: u16) -> &'static [bool; 8]
    ensures { result.now ≡ blocks fm0 (record { before = true; phase = before })
        (field_of number 4) }
{
    &FOUR_SYMBOLS[16 * (before as usize) + (number % 16) as usize]
}

/// 32 levels as the bits of a number, of which the first level is the lowest.
fn word_of(levels: &[bool]) -> u32
    requires { length levels.now ≡ 32 }
    ensures { result ≡ mask_l levels.now }
{
    let first = word_of_levels(&levels[..16]);
    let second = word_of_levels(&levels[16..]);
    u32::from(second) << 16 | u32::from(first)
}

/// Whether each of the 32 levels of a word is the same as the one before it, as the bits of a number. The first of them follows the level `before`.
fn stays_of(before: bool, word: u32) -> u32
    ensures { (levels : List Bool) → length levels ≡ 32 → word ≡ mask_l levels
        → result ≡ mask_l (stays before levels) }
{
    !(word ^ (word << 1 | u32::from(before)))
}

/// Whether the second level of each of 16 symbols is the same as its first, as digits. All are tried at once.
fn digits_of_middles(stays: u32) -> [u8; 16]
    ensures { (places : List Bool) → length places ≡ 32 → stays ≡ mask_l places
        → result ≡ map digit_of (odds places) }
{
    let middles = u8x16::from_array(MIDDLES);
    let bytes = u8x4::from_array(stays.to_le_bytes()).swizzle([
        0, 0, 0, 0, 1, 1, 1, 1, 2, 2, 2, 2, 3, 3, 3, 3,
    ]);
    (bytes & middles)
        .simd_eq(middles)
        .select(u8x16::splat(1), u8x16::splat(0))
        .to_array()
}

/// The bits of 16 symbols, by whether their second levels are the same as their first.
fn bits_of_middles(stays: u32) -> [bool; 16]
    ensures { (places : List Bool) → length places ≡ 32 → stays ≡ mask_l places
        → result ≡ odds places }
{
    let digits = digits_of_middles(stays);
    let mut bits = [false; 16];
    for at in 0..16 {
        bits[at] = digits[at] == 1;
    }
    bits
}

impl LineCode for Fm0 {
    type Mark = SymbolBefore;

    ghost CHIPS = { 2 };

    ghost table = { fm0 };

    ghost context_of = { λ mark. record { before = mark.bit; phase = mark.last_level } };

    const CHIPS: u32 = 2;

    fn lead_levels(trext: bool) -> &'static [bool] {
        if trext { &LONG_LEAD } else { &PREAMBLE }
    }

    fn after_lead() -> SymbolBefore {
        SymbolBefore {
            bit: true,
            last_level: true,
        }
    }

    fn block(mark: SymbolBefore, bit: bool) -> &'static [bool] {
        let first = !mark.last_level;
        &SYMBOLS[first as usize][bit as usize]
    }

    fn four_blocks(mark: SymbolBefore, number: u16) -> (&'static [bool], SymbolBefore) {
        let levels = four_symbols(mark.last_level, number);
        let last = SymbolBefore {
            bit: number % 2 == 1,
            last_level: levels[7],
        };
        (levels, last)
    }

    fn sixteen_bits(mark: SymbolBefore, levels: &[bool]) -> Option<([bool; 16], SymbolBefore)> {
        let word = word_of(levels);
        let stays = stays_of(mark.last_level, word);
        // Each symbol begins with an inversion.
        if stays & BOUNDARIES != 0 {
            return None;
        }
        // A data-1 has none in its middle.
        let bits = bits_of_middles(stays);
        let last = SymbolBefore {
            bit: bits[15],
            last_level: word >> 31 == 1,
        };
        Some((bits, last))
    }

    fn after(mark: SymbolBefore, bit: bool) -> SymbolBefore {
        let last_level = second_level(!mark.last_level, bit);
        SymbolBefore { bit, last_level }
    }

    ghost even = { fm0_even };

    ghost has_lead = { fm0_has_lead };

    ghost tells_bits = { fm0_tells_bits };

    ghost refuses_flips = { fm0_refuses_flips };

    ghost hides_lead = { fm0_hides_lead };
}
