//! A decoder that takes one interval at a time.
ghost use Rattle.std.specs.Prelude.{◌≡◌, ◌+◌, ◌<◌, ◌≤◌, ℕ, Bool, List, [], ◌∷◌, ◌++◌, MatchResult, Ok, Err, IfSome, IfNone};
ghost use Rattle.pie_line.specs.Refusal.{refusal_at};
ghost use Rattle.bit_strings.specs.BitString.{most_counted};
ghost use Rattle.pie_line.specs.Pie.{longest_interval};

use crate::frame_state::FrameState;
use crate::ranges::bit_of_symbol;
use crate::{FrameKind, PieRefusal};
use std::marker::Model;

/// What an interval brought.
#[derive(Clone, Copy, Debug, PartialEq, Eq)]
pub enum Edge {
    /// The frame goes on, and no data symbol ended.
    More,
    /// The interval ended the symbol of this bit.
    Bit(bool),
    /// The intervals so far begin no frame.
    Refused(PieRefusal),
}

/// A decoder that takes one interval at a time and keeps none of them. After a refusal it answers the
/// same refusal.
///
/// A contract sees it as a record of where it stands and of how many intervals it took.
#[derive(Drop)]
pub struct Edges {
    standing: Result<FrameState, PieRefusal>,
    count: u32,
}

impl Model for Edges {
    ghost use Rattle.std.specs.Prelude.{IfOk};
    ghost use Rattle.pie_line.specs.FrameState.{IsSoundState};
    ghost use Rattle.pie_line.specs.Edges.{EdgesValue};

    ghost Value = { EdgesValue };

    ghost view = { λ a. record { standing = a.standing; count = a.count } };

    ghost invariant = { λ a. IfOk a.standing IsSoundState };
}

/// The name of a bad place, counted from 0, at which this interval stands.
fn refusal_of(place: u32, interval: u32) -> PieRefusal
    ensures { result ≡ refusal_at place interval }
{
    if place == 0 {
        PieRefusal::Delimiter
    } else if place <= 2 {
        PieRefusal::Tari
    } else if place <= 4 {
        PieRefusal::RtCal
    } else if place >= 7 || interval == 0 {
        PieRefusal::Symbol(place)
    } else {
        PieRefusal::TrCal
    }
}

impl Edges {
    ghost use Rattle.pie_line.specs.Pie.{IsFrame};
    ghost use Rattle.pie_line.specs.Refusal.{RefusesFrame, IsFrameRefusedAt};
    ghost use Rattle.pie_line.specs.declared.frame.FrameKind.{FrameKind};
    ghost use Rattle.pie_line.specs.declared.frame.PieRefusal.{PieRefusal};
    ghost use Rattle.pie_line.specs.declared.edges.Edge.TheVariants.{Refused};
    ghost use Rattle.pie_line.specs.Edges.{EdgesValue, EdgesStandFor, IsBeforeSymbol, IsEdgesAnswer};

    /// A decoder that was given no interval.
    pub fn new() -> Edges
        ensures stands { EdgesStandFor result [] [] }
        ensures count { result.count ≡ 0 }
    {
        Edges {
            standing: Ok(FrameState::Delimiter),
            count: 0,
        }
    }

    /// Gives the decoder of frames one more interval, in nanoseconds.
    #[inline(always)]
    pub fn push(&mut self, interval: u32) -> Edge
        requires interval { interval ≤ longest_interval }
        requires count { self.old.count < most_counted }
        // The decoder stands for a list of intervals and for the bits that were read from it.
        ensures answer { (bits : List Bool) (intervals : List ℕ)
            → EdgesStandFor self.old bits intervals →
            IsEdgesAnswer result self.new bits (intervals ++ interval ∷ []) }
        // Where the intervals are refused, so they are here.
        ensures only { (bits : List Bool) (intervals : List ℕ) (refusal : PieRefusal) (place : ℕ)
            → EdgesStandFor self.old bits intervals →
            IsFrameRefusedAt refusal (intervals ++ interval ∷ []) place → result ≡ Refused refusal }
        ensures count { self.new.count ≤ self.old.count + 1 }
    {
        let place = match self.standing {
            Ok(place) => place,
            Err(refusal) => return Edge::Refused(refusal),
        };
        let Some((next, bit)) = place.after(interval) else {
            let refusal = refusal_of(self.count, interval);
            self.standing = Err(refusal);
            return Edge::Refused(refusal);
        };
        self.standing = Ok(next);
        self.count += 1;
        match bit {
            Some(bit) => Edge::Bit(bit),
            None => Edge::More,
        }
    }

    /// Takes the high and the low of a data symbol, in nanoseconds, where the decoder stands before one, and gives its bit.
    /// It takes nothing where it stands elsewhere, or where the two make no data symbol: `push` takes them then.
    pub fn push_symbol(&mut self, high: u32, low: u32) -> Option<bool>
        requires high { high ≤ longest_interval }
        requires low { low ≤ longest_interval }
        requires count { self.old.count + 2 ≤ most_counted }
        ensures bit { IfSome result
            (λ bit. (bits : List Bool) (intervals : List ℕ)
            → EdgesStandFor self.old bits intervals →
            EdgesStandFor self.new (bits ++ bit ∷ []) (intervals ++ high ∷ low ∷ [])) }
        ensures some { IfSome result (λ _. IsBeforeSymbol self.old high low) }
        ensures stays { IfSome result (λ _. self.new.standing ≡ self.old.standing) }
        ensures none { IfNone result (¬ IsBeforeSymbol self.old high low) }
        ensures same { IfNone result (self.new ≡ self.old) }
        ensures count { self.new.count ≤ self.old.count + 2 }
    {
        let Ok(FrameState::High { kind }) = self.standing else {
            return None;
        };
        let bit = bit_of_symbol(kind.rtcal(), high, low)?;
        self.count += 2;
        Some(bit)
    }

    /// The kind of the frame that the intervals are, or why they are none.
    pub fn finish(self) -> Result<FrameKind, PieRefusal>
        ensures answer { (bits : List Bool) (intervals : List ℕ)
            → EdgesStandFor self bits intervals →
            MatchResult result (λ kind. IsFrame kind bits intervals)
            (λ refusal. RefusesFrame refusal intervals) }
        // What the intervals are is answered.
        ensures only { (bits read : List Bool) (intervals : List ℕ) (kind : FrameKind)
            → EdgesStandFor self bits intervals →
            IsFrame kind read intervals → (result ≡ Ok kind) × (bits ≡ read) }
        ensures first { (bits : List Bool) (intervals : List ℕ) (refusal : PieRefusal)
            → EdgesStandFor self bits intervals →
            RefusesFrame refusal intervals → result ≡ Err refusal }
    {
        let Edges { standing, count } = self;
        let place = match standing {
            Ok(place) => place,
            Err(refusal) => return Err(refusal),
        };
        match place.kind() {
            Some(kind) => Ok(kind),
            None => Err(PieRefusal::Unfinished(count)),
        }
    }
}
