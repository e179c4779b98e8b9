//! Bits to frames.
ghost use Rattle.std.specs.Prelude.{◌≡◌, ◌+◌, ◌-◌, ◌*◌, ◌≤◌, ◌++◌, ⊤, length, All, false, true, if◌then◌else◌};
ghost use Rattle.pie_line.specs.Pie.{IsFrame, sum_of, symbols_with, wave_of, frame_kind_of, longest_interval};

use crate::sender::{FrameTaker, send_header};
use crate::{Intervals, Lead, Link};
use bit_strings::Bits;
use std::simd::prelude::u32x16;

/// Writes the one frame of these bits (6.3.1.2.3, 6.3.1.2.8) in place of what `out` had: the delimiter,
/// the header, and a symbol for each bit. Each low lasts PW.
pub fn encode_frame(link: &Link, lead: Lead, bits: &Bits, out: &mut Intervals)
    requires room { 7 + 2 * length bits.now.items ≤ out.old.capacity }
    ensures wave { out.new.items ≡ wave_of link.now lead bits.now.items }
    ensures frame { IsFrame (frame_kind_of link.now lead) bits.now.items out.new.items }
    // The list can be read again.
    ensures each { All (λ interval. interval ≤ longest_interval) out.new.items }
    ensures count { length out.new.items ≤ 7 + 2 * length bits.now.items }
    ensures capacity { out.new.capacity ≡ out.old.capacity }
{
    send_header(link, lead, out, &mut Nobody);
    // What no bit changes is computed once.
    let (zero, one) = highs(link);
    put_symbols(zero, one, link.pw(), bits.as_slice(), out);
}

/// Takes nothing: the frame goes nowhere.
#[derive(Drop)]
struct Nobody;

impl FrameTaker for Nobody {
    ghost took = { λ first intervals now. ⊤ };

    ghost count = { λ taker. 0 };

    fn take(&mut self, _interval: u32) {}

    fn take_symbol(&mut self, _high: u32, _low: u32) {}
}

/// Adds a symbol for each bit: the high of a data-0 or of a data-1, and the low of each, in nanoseconds.
fn put_symbols(zero: u32, one: u32, low: u32, bits: &[bool], out: &mut Intervals)
    requires order { zero ≤ one }
    requires room { length out.old.items + 2 * length bits.now ≤ out.old.capacity }
    ensures { out.new ≡ record
        out.old { items = out.old.items ++ symbols_with zero one low bits.now } }
{
    let mut rest = bits;
    // All but a few are written by eight, which takes fewer steps for each.
    while rest.len() >= 8 {
        let (eight, behind) = rest.split_at(8);
        out.push_all_reserved(&pairs_of(zero, one, low, eight));
        rest = behind;
    }
    for &bit in rest {
        out.push_reserved(high_of(zero, one, bit));
        out.push_reserved(low);
    }
}

/// The symbols of eight bits, all at once: for each the high of a data-0, and where the bit is 1 what the high of a data-1 has more.
fn pairs_of(zero: u32, one: u32, low: u32, bits: &[bool]) -> [u32; 16]
    requires order { zero ≤ one }
    requires eight { length bits.now ≡ 8 }
    ensures { result ≡ symbols_with zero one low bits.now }
{
    let digits = u32x16::from_array([
        u32::from(bits[0]),
        u32::from(bits[0]),
        u32::from(bits[1]),
        u32::from(bits[1]),
        u32::from(bits[2]),
        u32::from(bits[2]),
        u32::from(bits[3]),
        u32::from(bits[3]),
        u32::from(bits[4]),
        u32::from(bits[4]),
        u32::from(bits[5]),
        u32::from(bits[5]),
        u32::from(bits[6]),
        u32::from(bits[6]),
        u32::from(bits[7]),
        u32::from(bits[7]),
    ]);
    let more = one - zero;
    let differences = u32x16::from_array([
        more, 0, more, 0, more, 0, more, 0, more, 0, more, 0, more, 0, more, 0,
    ]);
    let zeros = u32x16::from_array([
        zero, low, zero, low, zero, low, zero, low, zero, low, zero, low, zero, low, zero, low,
    ]);
    (zeros + digits * differences).to_array()
}

/// The highs of a data-0 and of a data-1, in nanoseconds (6.3.1.2.3).
pub(crate) fn highs(link: &Link) -> (u32, u32)
    ensures zero { result.0 ≡ sum_of link.now false - link.now.pw }
    ensures one { result.1 ≡ sum_of link.now true - link.now.pw }
    ensures order { result.0 ≤ result.1 }
    ensures bounded { result.1 ≤ longest_interval }
{
    let zero = link.tari();
    let one = link.rtcal() - zero;
    (zero - link.pw(), one - link.pw())
}

/// The high of the symbol of a bit, of those of a data-0 and of a data-1.
pub(crate) fn high_of(zero: u32, one: u32, bit: bool) -> u32
    ensures { result ≡ if bit then one else zero }
{
    if bit { one } else { zero }
}
