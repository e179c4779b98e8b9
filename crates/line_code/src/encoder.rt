//! The encoder.
ghost use Rattle.std.specs.Prelude.{◌≡◌, ◌≤◌, ◌+◌, ◌*◌, length};
ghost use Rattle.bit_strings.specs.NumbersInBits.{value_of};
ghost use Rattle.line_code.specs.Stream.{IsStream};

use crate::code::LineCode;
use crate::decoder::put_bits;
use bit_strings::{Bits, Levels};

/// Writes the stream of the bits (6.3.1.3.2 of the standard) to `out`, which is emptied first: the
/// lead, a block of [`LineCode::CHIPS`] levels for each bit, and the block of a dummy data-1.
pub fn encode<C: LineCode>(trext: bool, bits: &Bits, out: &mut Levels)
    requires { length (C.table.lead trext) + C.CHIPS * (length bits.now.items + 1)
        ≤ out.old.capacity }
    ensures stream { IsStream C.table trext bits.now.items out.new.items }
    ensures capacity { out.new.capacity ≡ out.old.capacity }
{
    out.clear();
    out.put_all_reserved(C::lead_levels(trext));
    // In a list of its own, where each level is put singly, the compiler keeps in registers where the next one goes, and writes a block at once.
    let mut levels = out.take();
    let mut mark = C::after_lead();
    let bits = bits.as_slice();
    let mut next = 0;
    while let Some(four) = bits[next..].first_chunk::<4>() {
        let (blocks, behind) = C::four_blocks(mark, number_of(four));
        put_bits(blocks, &mut levels);
        mark = behind;
        next += 4;
    }
    while next < bits.len() {
        let bit = bits[next];
        put_bits(C::block(mark, bit), &mut levels);
        mark = C::after(mark, bit);
        next += 1;
    }
    put_bits(C::block(mark, true), &mut levels);
    *out = levels;
}

/// The number that four bits are, the first of them its highest digit.
fn number_of(bits: &[bool; 4]) -> u16
    ensures { result ≡ value_of bits.now }
{
    8 * u16::from(bits[0]) + 4 * u16::from(bits[1]) + 2 * u16::from(bits[2]) + u16::from(bits[3])
}
