//! Symbols that are read four at a time: two levels of each tell what its bit may be, and the bits hold where all the levels are those of their
//! symbols.
ghost use Rattle.std.specs.Prelude.{◌≡◌, ◌<◌, ◌≤◌, ◌*◌, ◌++◌, length, IfSome};
ghost use Rattle.bit_strings.specs.NumbersInBits.{field_of};
ghost use Rattle.line_code.specs.Stream.{blocks};
ghost use Rattle.line_code.specs.States.{context_after};
ghost use Rattle.miller_line.specs.Miller.{miller, IsOneOfThree};
ghost use Rattle.miller_line.specs.SymbolContext.{context};

use crate::subcarrier::{SymbolBefore, four_blocks};
use bit_strings::bits_of;
use line_code::same_levels;

/// The number that four bits are, if the levels are their symbols: a data-1 inverts the phase in the middle of its symbol.
fn likely_number(m: usize, levels: &[bool]) -> u16
    requires some { 1 ≤ m }
    requires whole { length levels.now ≡ 8 * m }
    ensures { result < 16 }
{
    8 * u16::from(levels[0] != levels[m])
        + 4 * u16::from(levels[2 * m] != levels[3 * m])
        + 2 * u16::from(levels[4 * m] != levels[5 * m])
        + u16::from(levels[6 * m] != levels[7 * m])
}

/// The number of the four bits whose symbols, one behind the other, the levels begin with, what stands before the bit that follows them, and the levels that are
/// left. It may be none for any levels, which are then taken one by one.
fn next_four<'a>(
    m: u32,
    before: SymbolBefore,
    levels: &'a [bool],
) -> Option<(u16, SymbolBefore, &'a [bool])>
    requires { IsOneOfThree m }
    ensures { IfSome result
        (λ it. (it.0 < 16)
        × (levels.now ≡ blocks (miller m) (context before) (field_of it.0 4) ++ it.2.now)
        × (context it.1 ≡ context_after (miller m) (context before) (field_of it.0 4))) }
{
    let count = (8 * m) as usize;
    if levels.len() < count {
        return None;
    }
    let (front, rest) = levels.split_at(count);
    let number = likely_number(m as usize, front);
    let (symbols, last) = four_blocks(m, before, number);
    if !same_levels(front, symbols) {
        return None;
    }
    Some((number, last, rest))
}

/// The sixteen bits whose symbols, one behind the other, the levels are, and what stands before the bit that follows them. It may be none for any
/// levels, which are then taken one by one.
#[inline(always)]
pub fn sixteen_bits(
    m: u32,
    before: SymbolBefore,
    levels: &[bool],
) -> Option<([bool; 16], SymbolBefore)>
    requires { IsOneOfThree m }
    ensures { IfSome result
        (λ it. (levels.now ≡ blocks (miller m) (context before) it.0)
        × (context it.1 ≡ context_after (miller m) (context before) it.0)) }
{
    let (first, mark, rest) = next_four(m, before, levels)?;
    let (second, mark, rest) = next_four(m, mark, rest)?;
    let (third, mark, rest) = next_four(m, mark, rest)?;
    let (fourth, last, rest) = next_four(m, mark, rest)?;
    if !rest.is_empty() {
        return None;
    }
    let number = 4096 * first + 256 * second + 16 * third + fourth;
    Some((bits_of(number), last))
}
