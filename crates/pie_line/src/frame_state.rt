//! Where a decoder stands in a frame.
ghost use Rattle.std.specs.Prelude.{◌≡◌, ◌+◌, ◌≤◌, ◌↔◌, IsTrue, IfSome, IfNone, Bool, List, []};
ghost use Rattle.pie_line.specs.FrameState.{IsHigh, IsSoundState, Completes, Moves, Stops};
ghost use Rattle.pie_line.specs.Pie.{longest_interval};

use crate::FrameKind;
use crate::ranges::{TARI_MOST, bit_of_sum, is_delimiter, is_rtcal, is_tari, is_trcal};

/// What a decoder has read of a frame, as far as that decides what may follow. Durations are in
/// nanoseconds; `high` is that of the high of a pair whose low is still to come.
#[derive(Clone, Copy)]
pub(crate) enum FrameState {
    /// Before the delimiter.
    Delimiter,
    /// Before the first data-0, which sets Tari.
    TariHigh,
    /// Before the low of the first data-0.
    TariLow { high: u32 },
    /// Before RTcal.
    RtCalHigh { tari: u32 },
    /// Before the low of RTcal.
    RtCalLow { tari: u32, high: u32 },
    /// Before the first pair after RTcal, which is TRcal or a data symbol.
    FirstHigh { tari: u32, rtcal: u32 },
    /// Before the low of this pair.
    FirstLow { tari: u32, rtcal: u32, high: u32 },
    /// Before a data symbol.
    High { kind: FrameKind },
    /// Before the low of a data symbol.
    Low { kind: FrameKind, high: u32 },
}

/// Whether a low of at least one nanosecond may follow such a high in a pair that lasts at most `most`.
fn is_high(interval: u32, most: u32) -> bool
    ensures { IsTrue result ↔ IsHigh interval most }
{
    0 < interval && interval < most
}

impl FrameState {
    /// Where the decoder stands after one more interval, and the bit of the symbol that it ended;
    /// none where no frame goes on with this interval.
    #[inline(always)]
    pub fn after(self, interval: u32) -> Option<(FrameState, Option<bool>)>
        requires sound { IsSoundState self }
        requires interval { interval ≤ longest_interval }
        ensures moves { IfSome result (λ next. Moves self interval next.0 next.1) }
        ensures stops { IfNone result (Stops self interval) }
    {
        match self {
            FrameState::Delimiter => {
                if !is_delimiter(interval) {
                    return None;
                }
                Some((FrameState::TariHigh, None))
            }
            FrameState::TariHigh => {
                if !is_high(interval, TARI_MOST) {
                    return None;
                }
                Some((FrameState::TariLow { high: interval }, None))
            }
            FrameState::TariLow { high } => {
                let tari = high + interval;
                if interval == 0 || !is_tari(tari) {
                    return None;
                }
                Some((FrameState::RtCalHigh { tari }, None))
            }
            FrameState::RtCalHigh { tari } => {
                if !is_high(interval, 3 * tari) {
                    return None;
                }
                let high = interval;
                Some((FrameState::RtCalLow { tari, high }, None))
            }
            FrameState::RtCalLow { tari, high } => {
                let rtcal = high + interval;
                if interval == 0 || !is_rtcal(tari, rtcal) {
                    return None;
                }
                Some((FrameState::FirstHigh { tari, rtcal }, None))
            }
            FrameState::FirstHigh { tari, rtcal } => {
                if !is_high(interval, 3 * rtcal) {
                    return None;
                }
                let high = interval;
                Some((FrameState::FirstLow { tari, rtcal, high }, None))
            }
            FrameState::FirstLow { tari, rtcal, high } => {
                if interval == 0 {
                    return None;
                }
                let sum = high + interval;
                if sum <= rtcal {
                    let kind = FrameKind::FrameSync { tari, rtcal };
                    return Some((FrameState::High { kind }, Some(bit_of_sum(rtcal, sum))));
                }
                let trcal = sum;
                if !is_trcal(rtcal, trcal) {
                    return None;
                }
                let kind = FrameKind::Preamble { tari, rtcal, trcal };
                Some((FrameState::High { kind }, None))
            }
            FrameState::High { kind } => {
                if !is_high(interval, 4 * kind.rtcal()) {
                    return None;
                }
                let high = interval;
                Some((FrameState::Low { kind, high }, None))
            }
            FrameState::Low { kind, high } => {
                let rtcal = kind.rtcal();
                let sum = high + interval;
                if interval == 0 || 4 * rtcal < sum {
                    return None;
                }
                Some((FrameState::High { kind }, Some(bit_of_sum(rtcal, sum))))
            }
        }
    }

    /// The kind of the frame that ends here; none where a frame that has come so far goes on.
    pub fn kind(self) -> Option<FrameKind>
        requires { IsSoundState self }
        ensures ends { IfSome result (λ kind. Completes self kind [] []) }
        ensures goes_on { IfNone result
            ((kind : FrameKind) (bits : List Bool) → ¬ Completes self kind bits []) }
    {
        match self {
            FrameState::Delimiter => None,
            FrameState::TariHigh => None,
            FrameState::TariLow { .. } => None,
            FrameState::RtCalHigh { .. } => None,
            FrameState::RtCalLow { .. } => None,
            FrameState::FirstHigh { tari, rtcal } => Some(FrameKind::FrameSync { tari, rtcal }),
            FrameState::FirstLow { .. } => None,
            FrameState::High { kind } => Some(kind),
            FrameState::Low { .. } => None,
        }
    }
}
