//! Intervals as fields of a line, of which those that came before are kept as texts.
ghost use Rattle.std.specs.Prelude.{◌≡◌, ◌+◌, ◌<◌, ◌≤◌, ◌++◌, map, take, IfOk, OnOk};
ghost use Rattle.std.specs.String.{string_bytes};
ghost use Rattle.std.specs.Fmt.{decimal};
ghost use Rattle.std.specs.Str.{IsAscii};
ghost use Rattle.text_fields.specs.Lines.{fields_behind};

use crate::kept_frames::KeptFrames;
use crate::kept_texts::{KeptText, LONGEST, VECTOR};
use bit_strings::OutOfMemory;
use text_fields::{push_ascii, push_next_numbers};

/// Room for texts that are put one behind another.
const ROOM: usize = 512;

/// How many intervals a frame has before its bits, or before TRcal: the delimiter, and a high and a low each of data-0 and RTcal.
const LEAD: usize = 5;

/// How many intervals two bits have: a high and a low each.
const TWO_BITS: usize = 4;

/// How many pairs of bits there are.
const PAIRS: usize = 4;

/// How many intervals the frame of a QueryRep has, and of each command of 4 bits.
const OF_QUERY_REP: usize = LEAD + 2 * 4;

/// How many bytes their text has at most.
const QUERY_REP_ROOM: usize = LONGEST * OF_QUERY_REP;

/// How many intervals the frame of a QueryAdjust has, and of each command of 9 bits.
const OF_QUERY_ADJUST: usize = LEAD + 2 * 9;

/// How many bytes their text has at most.
const QUERY_ADJUST_ROOM: usize = LONGEST * OF_QUERY_ADJUST;

/// The frames of slot commands, and the leads and the pairs of bits of other frames, that were written, with their texts. The lines of
/// frames have few others, and most of their text is copied.
#[derive(Drop)]
pub struct KeptIntervals {
    query_reps: KeptFrames<OF_QUERY_REP, QUERY_REP_ROOM>,
    query_adjusts: KeptFrames<OF_QUERY_ADJUST, QUERY_ADJUST_ROOM>,
    lead: KeptText<LEAD, VECTOR>,
    /// The pairs of bits, each at a place of its own.
    pairs: [KeptText<TWO_BITS, VECTOR>; PAIRS],
    /// Where texts are put one behind another.
    room: [u8; ROOM],
}

impl KeptIntervals {
    /// Intervals before the first line.
    pub fn new() -> KeptIntervals {
        KeptIntervals {
            query_reps: KeptFrames::new(),
            query_adjusts: KeptFrames::new(),
            lead: KeptText::new(&[0; LEAD]),
            pairs: [KeptText::new(&[0; TWO_BITS]); PAIRS],
            room: [b' '; ROOM],
        }
    }

    /// Writes intervals as the next fields, in decimal digits. After an error the text may hold a part of them.
    pub fn push_next(&mut self, text: &mut String, intervals: &[u32]) -> Result<(), OutOfMemory>
        ensures { OnOk result
            (string_bytes text.new ≡ string_bytes text.old
            ++ fields_behind (map decimal intervals.now)) }
    {
        if let Ok(frame) = <&[u32; OF_QUERY_REP]>::try_from(intervals) {
            return self.query_reps.push_next(text, frame);
        }
        if let Ok(frame) = <&[u32; OF_QUERY_ADJUST]>::try_from(intervals) {
            return self.query_adjusts.push_next(text, frame);
        }
        self.push_parts(text, intervals)
    }

    /// Writes intervals as the next fields, a lead and the bits behind it two by two.
    #[inline(never)]
    fn push_parts(&mut self, text: &mut String, intervals: &[u32]) -> Result<(), OutOfMemory>
        ensures { OnOk result
            (string_bytes text.new ≡ string_bytes text.old
            ++ fields_behind (map decimal intervals.now)) }
    {
        let Some((lead, behind)) = intervals.split_first_chunk::<LEAD>() else {
            return push_next_numbers(text, intervals);
        };
        let filled = self.put_lead(lead);
        self.push_pairs(text, behind, lead[1], filled)
    }

    /// Puts the text of a lead at the beginning of the room, and tells where it ends.
    fn put_lead(&mut self, lead: &[u32; LEAD]) -> usize
        ensures end { result ≤ VECTOR }
        ensures text { take result self.new.room ≡ fields_behind (map decimal lead.now) }
        ensures ascii { IsAscii (take result self.new.room) }
    {
        self.lead.keep(lead);
        self.lead.put(&mut self.room, 0)
    }

    /// Writes what fills the room, and intervals as the next fields, where the high of a data-0 is so long.
    fn push_pairs(
        &mut self,
        text: &mut String,
        intervals: &[u32],
        short: u32,
        filled: usize,
    ) -> Result<(), OutOfMemory>
        requires few { filled ≤ ROOM }
        requires ascii { IsAscii (take filled self.old.room) }
        ensures { OnOk result
            (string_bytes text.new ≡ string_bytes text.old
            ++ (take filled self.old.room ++ fields_behind (map decimal intervals.now))) }
    {
        let mut filled = filled;
        let mut rest = intervals;
        while let Some((pair, behind)) = rest.split_first_chunk::<TWO_BITS>() {
            filled = make_place(text, &self.room, filled)?;
            filled = self.put_pair(pair, short, filled);
            rest = behind;
        }
        push_ascii(text, &self.room[..filled])?;
        push_next_numbers(text, rest)
    }

    /// Puts the text of two bits behind what fills the room up to a place, and tells where it ends.
    fn put_pair(&mut self, pair: &[u32; TWO_BITS], short: u32, filled: usize) -> usize
        requires { filled + VECTOR ≤ ROOM }
        ensures end { result ≤ filled + VECTOR }
        ensures text { take result self.new.room ≡ take filled self.old.room
            ++ fields_behind (map decimal pair.now) }
        ensures ascii { IsAscii (take filled self.old.room) → IsAscii (take result self.new.room) }
    {
        let kept = &mut self.pairs[place_of(pair, short)];
        kept.keep(pair);
        kept.put(&mut self.room, filled)
    }
}

/// Where two bits are kept, where the high of a data-0 is so long.
fn place_of(pair: &[u32; TWO_BITS], short: u32) -> usize
    ensures { result < PAIRS }
{
    2 * usize::from(pair[0] == short) + usize::from(pair[2] == short)
}

/// Writes what fills the room where it has no place for a text behind it, and tells what fills the room then.
fn make_place(text: &mut String, room: &[u8; ROOM], filled: usize) -> Result<usize, OutOfMemory>
    requires few { filled ≤ ROOM }
    requires ascii { IsAscii (take filled room.now) }
    ensures place { IfOk result (λ left. left + VECTOR ≤ ROOM) }
    ensures text { IfOk result
        (λ left. string_bytes text.new ++ take left room.now ≡ string_bytes text.old
        ++ take filled room.now) }
    ensures ascii { IfOk result (λ left. IsAscii (take left room.now)) }
{
    if filled + VECTOR <= ROOM {
        return Ok(filled);
    }
    push_ascii(text, &room[..filled])?;
    Ok(0)
}
