//! The waves of an exchange, written.
ghost use Rattle.std.specs.Prelude.{◌≡◌, ◌++◌, false, IfOk, OnOk};
ghost use Rattle.std.specs.String.{string_bytes};
ghost use Rattle.wave_dump.specs.Waves.{frame_end, frame_moments, moments_text, stream_moments};
ghost use Rattle.wave_dump.specs.Borrowed.{signals_of};

use crate::signals::{Signals, push_moment};
use crate::times::{later, level_begin};
use bit_strings::{Bits, OutOfMemory};
use pie_line::Link;

/// Writes a frame that begins at a time, and gives its end.
pub(crate) fn push_frame(
    text: &mut String,
    begin: u64,
    intervals: &[u32],
    old: &Signals<'_>,
    sent: &Signals<'_>,
) -> Result<u64, OutOfMemory>
    ensures text { OnOk result (string_bytes text.new ≡ string_bytes text.old
        ++ moments_text (signals_of old.now)
        (frame_moments (signals_of sent.now) begin false intervals.now)) }
    ensures end { IfOk result (λ end. end ≡ frame_end begin intervals.now) }
{
    let mut time = begin;
    let mut high = false;
    let mut last = *old;
    for interval in intervals {
        let now = Signals {
            reader: high,
            ..*sent
        };
        push_moment(text, time, &last, &now)?;
        last = now;
        high = !high;
        time = later(time, u64::from(*interval));
    }
    push_moment(text, time, &last, sent)?;
    Ok(time)
}

/// Writes the levels of a stream that begins at a time. Each begins where its number says.
pub(crate) fn push_stream(
    text: &mut String,
    link: &Link,
    begin: u64,
    levels: &Bits,
    sent: &Signals<'_>,
    heard: &Signals<'_>,
) -> Result<(), OutOfMemory>
    ensures { OnOk result (string_bytes text.new ≡ string_bytes text.old
        ++ moments_text (signals_of sent.now)
        (stream_moments link.now (signals_of sent.now)
        (signals_of heard.now) begin 0 levels.now.items)) }
{
    let count = levels.len();
    let mut number = 0;
    let mut last = *sent;
    for level in levels.as_slice() {
        let now = Signals {
            tag: Some(*level),
            ..*heard
        };
        push_moment(text, level_begin(link, begin, number), &last, &now)?;
        last = now;
        number += 1;
    }
    push_moment(text, level_begin(link, begin, count), &last, sent)
}
