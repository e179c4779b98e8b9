//! Frames and refusals, written without a line feed.
ghost use Rattle.std.specs.Prelude.{◌≡◌, ◌++◌, OnOk};
ghost use Rattle.std.specs.String.{string_bytes};
ghost use Rattle.pie_text.specs.PieText.{frame_line, pie_refusal_line};

use bit_strings::{Bits, OutOfMemory};
use pie_line::{FrameKind, PieRefusal};
use text_fields::{push_named_number, push_next_bits, push_next_number};

/// Writes a frame at the end of the text: `sync TARI RTCAL BITS` or `preamble TARI RTCAL TRCAL BITS`,
/// the durations in nanoseconds. After an error the text may hold a part of it.
pub fn push_frame(text: &mut String, kind: &FrameKind, bits: &Bits) -> Result<(), OutOfMemory>
    ensures { OnOk result (string_bytes text.new ≡ string_bytes text.old
        ++ frame_line kind.now bits.now.items) }
{
    match kind {
        FrameKind::FrameSync { tari, rtcal } => {
            push_named_number(text, "sync", *tari)?;
            push_next_number(text, *rtcal)?;
        }
        FrameKind::Preamble { tari, rtcal, trcal } => {
            push_named_number(text, "preamble", *tari)?;
            push_next_number(text, *rtcal)?;
            push_next_number(text, *trcal)?;
        }
    }
    push_next_bits(text, bits.as_slice())
}

/// Writes at the end of the text why intervals are no frame: `refused` with the part of the frame that
/// is wrong, for a symbol with the place of the wrong interval, or `unfinished` with the number of
/// intervals. After an error the text may hold a part of it.
pub fn push_pie_refusal(text: &mut String, refusal: PieRefusal) -> Result<(), OutOfMemory>
    ensures { OnOk result (string_bytes text.new ≡ string_bytes text.old
        ++ pie_refusal_line refusal) }
{
    match refusal {
        PieRefusal::Delimiter => text.push_str("refused delimiter"),
        PieRefusal::Tari => text.push_str("refused tari"),
        PieRefusal::RtCal => text.push_str("refused rtcal"),
        PieRefusal::TrCal => text.push_str("refused trcal"),
        PieRefusal::Symbol(place) => push_named_number(text, "refused symbol", place),
        PieRefusal::Unfinished(count) => push_named_number(text, "unfinished", count),
    }
}
