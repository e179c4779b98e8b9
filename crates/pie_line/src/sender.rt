//! Frames that are taken while they are written.
ghost use Rattle.std.specs.Prelude.{◌≡◌, ◌+◌, ◌*◌, ◌≤◌, ◌++◌, ◌∷◌, [], ℕ, List, length, All};
ghost use Rattle.bit_strings.specs.BitString.{most_counted};
ghost use Rattle.pie_line.specs.Link.{IsLegalLink};
ghost use Rattle.pie_line.specs.Pie.{IsFrame, symbols_with, header_of, wave_of, frame_kind_of, longest_interval};

use crate::encoder::{high_of, highs};
use crate::{Intervals, Lead, Link};
use bit_strings::Bits;

/// How long a delimiter lasts that is written, in nanoseconds.
const DELIMITER: u32 = 12_500;

/// Takes the intervals of a frame one after another, as they are made.
pub trait FrameTaker {
    // it became what it is now by taking these intervals, in their order
    ghost took: { Self → List ℕ → Self → Type 0 };

    // how many intervals it took, or more
    ghost count: { Self → ℕ };

    /// Takes the next interval of a frame that is written, in nanoseconds.
    fn take(&mut self, interval: u32)
        requires interval { interval ≤ longest_interval }
        requires count { count self.old + 1 ≤ most_counted }
        ensures took { (first : Self) (intervals : List ℕ) → took first intervals self.old
            → took first (intervals ++ interval ∷ []) self.new }
        ensures count { count self.new ≤ count self.old + 1 };

    /// Takes the high and the low of one more symbol, in nanoseconds.
    fn take_symbol(&mut self, high: u32, low: u32)
        requires high { high ≤ longest_interval }
        requires low { low ≤ longest_interval }
        requires count { count self.old + 2 ≤ most_counted }
        ensures took { (first : Self) (intervals : List ℕ) → took first intervals self.old
            → took first (intervals ++ high ∷ low ∷ []) self.new }
        ensures count { count self.new ≤ count self.old + 2 };
}

/// Writes the frame of these bits as [`encode_frame`](crate::encode_frame) does, and has each interval taken as it is made.
pub fn send_frame<T: FrameTaker>(
    link: &Link,
    lead: Lead,
    bits: &Bits,
    frame: &mut Intervals,
    taker: &mut T,
)
    requires room { 7 + 2 * length bits.now.items ≤ frame.old.capacity }
    requires count { T.count taker.old + 7 + 2 * length bits.now.items ≤ most_counted }
    requires begun { T.took taker.old [] taker.old }
    ensures wave { frame.new.items ≡ wave_of link.now lead bits.now.items }
    ensures frame { IsFrame (frame_kind_of link.now lead) bits.now.items frame.new.items }
    ensures each { All (λ interval. interval ≤ longest_interval) frame.new.items }
    ensures length { length frame.new.items ≤ 7 + 2 * length bits.now.items }
    ensures capacity { frame.new.capacity ≡ frame.old.capacity }
    ensures took { T.took taker.old frame.new.items taker.new }
{
    send_header(link, lead, frame, taker);
    // What no bit changes is computed once.
    let (zero, one) = highs(link);
    send_symbols(zero, one, link.pw(), bits.as_slice(), frame, taker);
}

/// Sends the delimiter and the header (6.3.1.2.8), in place of what the frame had.
pub(crate) fn send_header<T: FrameTaker>(
    link: &Link,
    lead: Lead,
    frame: &mut Intervals,
    taker: &mut T,
)
    requires room { 7 ≤ frame.old.capacity }
    requires count { T.count taker.old + 7 ≤ most_counted }
    ensures header { frame.new.items ≡ 12500 ∷ header_of link.now lead }
    ensures written { length frame.new.items ≤ 7 }
    ensures legal { IsLegalLink link.now }
    ensures capacity { frame.new.capacity ≡ frame.old.capacity }
    ensures took { (first : T) → T.took first [] taker.old
        → T.took first frame.new.items taker.new }
    ensures count { T.count taker.new ≤ T.count taker.old + 7 }
{
    frame.clear();
    let low = link.pw();
    send(DELIMITER, frame, taker);
    send_symbol(link.tari() - low, low, frame, taker);
    send_symbol(link.rtcal() - low, low, frame, taker);
    if lead == Lead::Preamble {
        send_symbol(link.trcal() - low, low, frame, taker);
    }
}

/// Sends a symbol for each bit: the high of a data-0 or of a data-1, and the low of each, in nanoseconds.
fn send_symbols<T: FrameTaker>(
    zero: u32,
    one: u32,
    low: u32,
    bits: &[bool],
    frame: &mut Intervals,
    taker: &mut T,
)
    requires order { zero ≤ one }
    requires one { one ≤ longest_interval }
    requires low { low ≤ longest_interval }
    requires room { length frame.old.items + 2 * length bits.now ≤ frame.old.capacity }
    requires count { T.count taker.old + 2 * length bits.now ≤ most_counted }
    ensures frame { frame.new
        ≡ record frame.old { items = frame.old.items ++ symbols_with zero one low bits.now } }
    ensures took { (first : T) → T.took first frame.old.items taker.old
        → T.took first frame.new.items taker.new }
{
    for &bit in bits {
        send_symbol(high_of(zero, one, bit), low, frame, taker);
    }
}

/// Sends one more interval, in nanoseconds.
fn send<T: FrameTaker>(interval: u32, frame: &mut Intervals, taker: &mut T)
    requires interval { interval ≤ longest_interval }
    requires room { length frame.old.items + 1 ≤ frame.old.capacity }
    requires count { T.count taker.old + 1 ≤ most_counted }
    ensures frame { frame.new ≡ record frame.old { items = frame.old.items ++ interval ∷ [] } }
    ensures took { (first : T) → T.took first frame.old.items taker.old
        → T.took first frame.new.items taker.new }
    ensures count { T.count taker.new ≤ T.count taker.old + 1 }
{
    frame.push_reserved(interval);
    taker.take(interval);
}

/// Sends the high and the low of one more symbol, in nanoseconds.
#[inline(always)]
fn send_symbol<T: FrameTaker>(high: u32, low: u32, frame: &mut Intervals, taker: &mut T)
    requires high { high ≤ longest_interval }
    requires low { low ≤ longest_interval }
    requires room { length frame.old.items + 2 ≤ frame.old.capacity }
    requires count { T.count taker.old + 2 ≤ most_counted }
    ensures frame { frame.new ≡ record frame.old { items = frame.old.items ++ high ∷ low ∷ [] } }
    ensures took { (first : T) → T.took first frame.old.items taker.old
        → T.took first frame.new.items taker.new }
    ensures count { T.count taker.new ≤ T.count taker.old + 2 }
{
    frame.push_reserved(high);
    frame.push_reserved(low);
    taker.take_symbol(high, low);
}
