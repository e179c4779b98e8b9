//! Whole frames of one length, of which those that came before are kept as texts.
ghost use Rattle.std.specs.Prelude.{◌≡◌, ◌*◌, ◌<◌, ◌≤◌, ◌++◌, map, OnOk};
ghost use Rattle.std.specs.String.{string_bytes};
ghost use Rattle.std.specs.Fmt.{decimal};
ghost use Rattle.text_fields.specs.Lines.{fields_behind};

use crate::kept_texts::KeptText;
use bit_strings::OutOfMemory;
use text_fields::push_ascii;

/// How many frames are kept: one for each way in which the last three bits may stand.
const PLACES: usize = 8;

/// Frames of so many intervals that were written, with their texts. So the frames of a slot command for each session, or each change of
/// Q, are kept beside each other.
#[derive(Drop)]
pub(crate) struct KeptFrames<const COUNT: usize, const STORED: usize> {
    /// The frames, each at the place of its last three bits.
    frames: [KeptText<COUNT, STORED>; PLACES],
}

impl<const COUNT: usize, const STORED: usize> KeptFrames<COUNT, STORED> {
    /// Frames before the first one.
    pub(crate) fn new() -> KeptFrames<COUNT, STORED>
        requires few { COUNT ≤ 100 }
        requires room { 11 * COUNT ≤ STORED }
        requires small { STORED ≤ 1000 }
    {
        KeptFrames {
            frames: [KeptText::new(&[0; COUNT]); PLACES],
        }
    }

    /// Writes the intervals of a frame as the next fields, in decimal digits. After an error the text may hold a part of them.
    pub(crate) fn push_next(
        &mut self,
        text: &mut String,
        frame: &[u32; COUNT],
    ) -> Result<(), OutOfMemory>
        requires many { 6 ≤ COUNT }
        requires few { COUNT ≤ 100 }
        requires room { 11 * COUNT ≤ STORED }
        requires small { STORED ≤ 1000 }
        ensures { OnOk result
            (string_bytes text.new ≡ string_bytes text.old
            ++ fields_behind (map decimal frame.now)) }
    {
        let kept = &mut self.frames[place_of(frame)];
        kept.keep(frame);
        push_ascii(text, kept.text())
    }
}

/// Where a frame is kept: the number of its last three bits, where a high as long as that of data-0 is a 1.
fn place_of<const COUNT: usize>(frame: &[u32; COUNT]) -> usize
    requires { 6 ≤ COUNT }
    ensures { result < PLACES }
{
    let short = frame[1];
    let third = usize::from(frame[COUNT - 6] == short);
    let second = usize::from(frame[COUNT - 4] == short);
    let last = usize::from(frame[COUNT - 2] == short);
    4 * third + 2 * second + last
}
