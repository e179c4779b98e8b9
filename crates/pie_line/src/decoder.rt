//! Frames to bits.
ghost use Rattle.std.specs.Prelude.{◌≡◌, ◌≤◌, Bool, List, [], All, IfOk, IfErr, OnErr, Ok, length};
ghost use Rattle.pie_line.specs.Pie.{IsFrame, longest_interval};
ghost use Rattle.pie_line.specs.declared.frame.FrameKind.{FrameKind};
ghost use Rattle.pie_line.specs.Refusal.{RefusesFrame};
ghost use Rattle.pie_line.specs.Edges.{EdgesHaveReadTo};
ghost use Rattle.bit_strings.specs.BitString.{most_counted};

use crate::edges::{Edge, Edges};
use crate::{FrameKind, Intervals, PieRefusal};
use bit_strings::Bits;

/// Reads a frame (6.3.1.2.3, 6.3.1.2.8): its kind, and its bits into `out`, which is cleared first and
/// is empty after a refusal.
///
/// The intervals are in nanoseconds. A list that is no frame is refused at the first interval with
/// which it begins no frame, or as `Unfinished` with its length where it begins one.
pub fn decode_frame(intervals: &Intervals, out: &mut Bits) -> Result<FrameKind, PieRefusal>
    requires room { length intervals.now.items ≤ out.old.capacity }
    requires each { All (λ interval. interval ≤ longest_interval) intervals.now.items }
    requires count { length intervals.now.items ≤ most_counted }
    ensures ok { IfOk result (λ kind. IsFrame kind out.new.items intervals.now.items) }
    ensures refused { IfErr result (λ refusal. RefusesFrame refusal intervals.now.items) }
    ensures err { OnErr result (out.new.items ≡ []) }
    // A frame is read as what it is.
    ensures only { (kind : FrameKind) (bits : List Bool) → IsFrame kind bits intervals.now.items →
        (result ≡ Ok kind) × (out.new.items ≡ bits) }
    ensures capacity { out.new.capacity ≡ out.old.capacity }
{
    out.clear();
    let result = decode_intervals(intervals.as_slice(), out);
    if result.is_err() {
        out.clear();
    }
    result
}

/// Reads a frame as [`decode_frame`] does, into an empty list, and leaves there what it had read before
/// a refusal.
fn decode_intervals(intervals: &[u32], out: &mut Bits) -> Result<FrameKind, PieRefusal>
    requires empty { out.old.items ≡ [] }
    requires room { length intervals.now ≤ out.old.capacity }
    requires each { All (λ interval. interval ≤ longest_interval) intervals.now }
    requires count { length intervals.now ≤ most_counted }
    ensures ok { IfOk result (λ kind. IsFrame kind out.new.items intervals.now) }
    ensures refused { IfErr result (λ refusal. RefusesFrame refusal intervals.now) }
    ensures capacity { out.new.capacity ≡ out.old.capacity }
{
    let mut edges = Edges::new();
    let mut at = 0;
    while at < intervals.len() {
        match edges.push(intervals[at]) {
            Edge::More => {}
            Edge::Bit(bit) => out.push_reserved(bit),
            Edge::Refused(refusal) => return Err(refusal),
        }
        at = take_symbols(&mut edges, intervals, at + 1, out);
    }
    edges.finish()
}

/// Gives a decoder the data symbols that stand from a place on, one by one, as most intervals are those of data symbols.
/// Gives the place behind them.
fn take_symbols(edges: &mut Edges, intervals: &[u32], from: usize, out: &mut Bits) -> usize
    requires given { EdgesHaveReadTo edges.old out.old.items intervals.now from }
    requires room { length intervals.now ≤ out.old.capacity }
    requires each { All (λ interval. interval ≤ longest_interval) intervals.now }
    requires count { length intervals.now ≤ most_counted }
    ensures given { EdgesHaveReadTo edges.new out.new.items intervals.now result }
    ensures further { from ≤ result }
    ensures capacity { out.new.capacity ≡ out.old.capacity }
{
    let mut at = from;
    while at + 1 < intervals.len() {
        let Some(bit) = edges.push_symbol(intervals[at], intervals[at + 1]) else {
            return at;
        };
        out.push_reserved(bit);
        at += 2;
    }
    at
}
