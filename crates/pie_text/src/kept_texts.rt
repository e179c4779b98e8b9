//! Intervals with their text as fields.
ghost use Rattle.std.specs.Prelude.{◌≡◌, ◌+◌, ◌*◌, ◌≤◌, ◌++◌, ◌∷◌, length, map, take, IsTrue};
ghost use Rattle.std.specs.Fmt.{decimal};
ghost use Rattle.std.specs.Str.{IsAscii};
ghost use Rattle.text_fields.specs.Lines.{fields_behind, space};

use arrayvec::ArrayString;
use itoa::Buffer;
use std::simd::prelude::*;

/// How many bytes the text of an interval has at most: it is a space and the digits of a number of 32 bits.
pub(crate) const LONGEST: usize = 11;

/// How many bytes a vector has, which are put without a call.
pub(crate) const VECTOR: usize = 64;

/// Intervals, in nanoseconds, and their text as fields, for which so many bytes are stored, whatever its length.
#[derive(Clone, Copy)]
pub(crate) struct KeptText<const COUNT: usize, const STORED: usize> {
    intervals: [u32; COUNT],
    /// Their text, and what fills it up.
    text: [u8; STORED],
    /// How long their text is.
    length: usize,
    ghost short: { length ≤ STORED },
    ghost spelled: { take length text ≡ fields_behind (map decimal intervals) },
    ghost ascii: { IsAscii (take length text) },
}

impl<const COUNT: usize, const STORED: usize> KeptText<COUNT, STORED> {
    /// These intervals with their text.
    pub(crate) fn new(intervals: &[u32; COUNT]) -> KeptText<COUNT, STORED>
        requires few { COUNT ≤ 100 }
        requires room { 11 * COUNT ≤ STORED }
        requires small { STORED ≤ 1000 }
        ensures { result.intervals ≡ intervals.now }
    {
        let mut spelled = ArrayString::<STORED>::new();
        for interval in intervals {
            spell_next(&mut spelled, *interval);
        }
        let length = spelled.len();
        let mut text = [b' '; STORED];
        text[..length].copy_from_slice(spelled.as_bytes());
        KeptText {
            intervals: *intervals,
            text,
            length,
        }
    }

    /// Whether these intervals are kept.
    fn is(&self, intervals: &[u32; COUNT]) -> bool
        ensures { IsTrue result → self.now.intervals ≡ intervals.now }
    {
        // All intervals are looked at, so that no jump depends on one of them.
        let mut same = true;
        for at in 0..COUNT {
            same &= self.intervals[at] == intervals[at];
        }
        same
    }

    /// Keeps these intervals, where they aren't kept.
    pub(crate) fn keep(&mut self, intervals: &[u32; COUNT])
        requires few { COUNT ≤ 100 }
        requires room { 11 * COUNT ≤ STORED }
        requires small { STORED ≤ 1000 }
        ensures { self.new.intervals ≡ intervals.now }
    {
        if !self.is(intervals) {
            self.replace(intervals);
        }
    }

    /// Keeps these intervals in place of those that were kept. It is a call of its own, so that the room of a new text is filled only here.
    #[cold]
    #[inline(never)]
    fn replace(&mut self, intervals: &[u32; COUNT])
        requires few { COUNT ≤ 100 }
        requires room { 11 * COUNT ≤ STORED }
        requires small { STORED ≤ 1000 }
        ensures { self.new.intervals ≡ intervals.now }
    {
        *self = KeptText::new(intervals);
    }

    /// The text of the intervals as fields, without what fills it up.
    pub(crate) fn text(&self) -> &[u8]
        ensures text { result.now ≡ fields_behind (map decimal self.now.intervals) }
        ensures ascii { IsAscii result.now }
    {
        &self.text[..self.length]
    }
}

/// Adds an interval as the next field to a text that has room for it.
fn spell_next<const ROOM: usize>(spelled: &mut ArrayString<ROOM>, interval: u32)
    requires { length spelled.old.bytes + LONGEST ≤ ROOM }
    ensures text { spelled.new.bytes ≡ spelled.old.bytes ++ space ∷ decimal interval }
    ensures short { length spelled.new.bytes ≤ length spelled.old.bytes + LONGEST }
    ensures ascii { IsAscii spelled.old.bytes → IsAscii spelled.new.bytes }
{
    spelled.push(' ');
    spelled.push_str(Buffer::new().format(interval));
}

impl<const COUNT: usize> KeptText<COUNT, VECTOR> {
    /// Puts the text behind what fills the room up to a place, and tells where the text ends. What stands behind that end may
    /// change.
    pub(crate) fn put(&self, room: &mut [u8], filled: usize) -> usize
        requires { filled + VECTOR ≤ length room.old }
        ensures end { result ≤ filled + VECTOR }
        ensures text { take result room.new ≡ take filled room.old
            ++ fields_behind (map decimal self.now.intervals) }
        ensures length { length room.new ≡ length room.old }
    {
        u8x64::from_array(self.text).copy_to_slice(&mut room[filled..]);
        filled + self.length
    }
}
