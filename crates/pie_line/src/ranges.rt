//! Tests of the ranges of durations, all in nanoseconds, and the bits that durations stand for.
ghost use Rattle.std.specs.Prelude.{◌≡◌, ◌↔◌, ◌+◌, ◌*◌, ◌≤◌, IsTrue, IfSome, IfNone};
ghost use Rattle.pie_line.specs.Link.{IsTari, IsRtCal, IsTrCal, IsPw};
ghost use Rattle.pie_line.specs.Pie.{IsDelimiter, bit_of_symbol, longest_interval};
ghost use Rattle.pie_line.specs.Edges.{IsDataSymbol};

/// The longest Tari that a link may have, in nanoseconds (6.3.1.2.4).
pub const TARI_MOST: u32 = 25_000;

/// Whether a delimiter may last so long.
pub fn is_delimiter(interval: u32) -> bool
    ensures { IsTrue result ↔ IsDelimiter interval }
{
    11_875 <= interval && interval <= 13_125
}

/// Whether Tari is in its range.
pub fn is_tari(tari: u32) -> bool
    ensures { IsTrue result ↔ IsTari tari }
{
    6_250 <= tari && tari <= TARI_MOST
}

/// Whether RTcal is in its range for a Tari.
pub fn is_rtcal(tari: u32, rtcal: u32) -> bool
    ensures { IsTrue result ↔ IsRtCal tari rtcal }
{
    5 * tari as u64 <= 2 * rtcal as u64 && rtcal as u64 <= 3 * tari as u64
}

/// Whether TRcal is in its range for an RTcal.
pub fn is_trcal(rtcal: u32, trcal: u32) -> bool
    ensures { IsTrue result ↔ IsTrCal rtcal trcal }
{
    11 * rtcal as u64 <= 10 * trcal as u64 && trcal as u64 <= 3 * rtcal as u64
}

/// Whether PW is in its range for a Tari.
pub fn is_pw(tari: u32, pw: u32) -> bool
    ensures { IsTrue result ↔ IsPw tari pw }
{
    let thousandths = 1_000 * pw as u64;
    pw >= 2_000 && 265 * tari as u64 <= thousandths && thousandths <= 525 * tari as u64
}

/// The bit of a symbol that lasts `sum`: 0 where it is shorter than the pivot, half of RTcal (6.3.1.2.8), else 1.
pub fn bit_of_sum(rtcal: u32, sum: u32) -> bool
    ensures { result ≡ bit_of_symbol rtcal sum }
{
    rtcal as u64 <= 2 * sum as u64
}

/// The bit of the data symbol that has this high and this low; none exactly where they make no data symbol (6.3.1.2.3).
pub fn bit_of_symbol(rtcal: u32, high: u32, low: u32) -> Option<bool>
    requires rtcal { rtcal ≤ 75000 }
    requires high { high ≤ longest_interval }
    requires low { low ≤ longest_interval }
    ensures bit { IfSome result (λ bit. bit ≡ bit_of_symbol rtcal (high + low)) }
    ensures symbol { IfSome result (λ _. IsDataSymbol rtcal high low) }
    ensures none { IfNone result (¬ IsDataSymbol rtcal high low) }
{
    let sum = high + low;
    if high == 0 || low == 0 || 4 * rtcal < sum {
        return None;
    }
    Some(bit_of_sum(rtcal, sum))
}
