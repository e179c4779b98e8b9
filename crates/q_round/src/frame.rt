//! Q, and the slots since the command that set it.
ghost use Rattle.std.specs.Prelude.{◌≡◌, ◌==◌, ◌^◌, ◌*◌, ◌≤◌, ◌&&◌, true, IfSome};
ghost use Rattle.q_round.specs.Rounds.{qfp_after, q_nearest, goes_up, goes_down};
ghost use Rattle.q_round.specs.SpecValue.{IsLegalRule};
ghost use Rattle.q_round.specs.RoundValue.{IsSoundFrame, IsCounted, IsMovable, frame_after_outcome, change_of, frame_begun_by};

use crate::{QValue, Rule, UpDn};

/// What came back for a slot command, received as an RN16.
#[derive(Clone, Copy, Debug, PartialEq, Eq)]
pub enum Outcome {
    /// Nothing.
    Silence,
    /// One whole RN16.
    Whole,
    /// A stream that is no RN16. It counts as a collision (profile).
    Refused,
}

/// What is known of the slots since the last Query or QueryAdjust.
#[derive(Clone, Copy)]
pub(crate) struct Frame {
    /// Two to the power of this is the number of slots of a whole frame.
    q: u32,
    /// The moving value that rounds to Q, in thousandths (Annex D). Only `Rule::Float` moves it.
    qfp: u32,
    /// How many slots the frame has so far.
    slots: u32,
    /// How many of them were collisions.
    refused: u32,
    /// Whether all of them were silent.
    silent: bool,
}

impl Frame {
    /// The frame that a Query begins.
    pub(crate) fn new(q: QValue) -> Frame
        ensures value { result
            ≡ record { q = q; qfp = 1000 * q; slots = 0; refused = 0; silent = true } }
        ensures sound { IsSoundFrame result }
    {
        let q = u32::from(q.get());
        Frame {
            q,
            qfp: 1000 * q,
            slots: 0,
            refused: 0,
            silent: true,
        }
    }

    /// The frame with the outcome of one more slot.
    pub(crate) fn counting(self, outcome: Outcome, rule: Rule) -> Frame
        requires sound { IsSoundFrame self }
        requires rule { IsLegalRule rule }
        ensures value { result ≡ frame_after_outcome rule outcome self }
        ensures counted { IsCounted result }
    {
        Frame {
            q: self.q,
            qfp: self.qfp_after(outcome, rule),
            slots: self.slots + 1,
            refused: self.refused + u32::from(outcome == Outcome::Refused),
            silent: outcome == Outcome::Silence && self.silent,
        }
    }

    /// Qfp behind one more slot.
    fn qfp_after(self, outcome: Outcome, rule: Rule) -> u32
        requires range { self.qfp ≤ 15000 }
        requires rule { IsLegalRule rule }
        ensures { result ≡ qfp_after rule outcome self.qfp }
    {
        let Rule::Float(step) = rule else {
            return self.qfp;
        };
        match outcome {
            Outcome::Silence => self.qfp.saturating_sub(step),
            Outcome::Whole => self.qfp,
            Outcome::Refused => (self.qfp + step).min(15000),
        }
    }

    /// How many slots a whole frame has.
    fn whole_slots(self) -> u32
        requires { self.q ≤ 15 }
        ensures { result ≡ 2 ^ self.q }
    {
        1 << self.q
    }

    /// Whether the frame has all its slots.
    fn is_whole(self) -> bool
        requires { self.q ≤ 15 }
        ensures { result ≡ (self.slots == 2 ^ self.q) }
    {
        self.slots == self.whole_slots()
    }

    /// Whether the frame has all its slots, and each was silent.
    pub(crate) fn is_whole_and_silent(self) -> bool
        requires { self.q ≤ 15 }
        ensures { result ≡ (self.slots == 2 ^ self.q && self.silent) }
    {
        self.is_whole() && self.silent
    }

    /// How a QueryAdjust changes Q, where one is due: as the rule says, and where Q stays, a whole frame
    /// is begun again.
    pub(crate) fn change(self, rule: Rule) -> Option<UpDn>
        requires { IsCounted self }
        ensures value { result ≡ change_of rule self }
        ensures movable { IfSome result (λ updn. IsMovable updn self.q) }
    {
        if self.goes_up(rule) {
            Some(UpDn::Up)
        } else if self.goes_down(rule) {
            Some(UpDn::Down)
        } else if self.is_whole() {
            Some(UpDn::Same)
        } else {
            None
        }
    }

    /// Whether the rule raises Q.
    fn goes_up(self, rule: Rule) -> bool
        requires { IsCounted self }
        ensures { result ≡ goes_up rule self.q self.qfp self.slots self.refused }
    {
        match rule {
            Rule::Fixed => false,
            Rule::Float(_) => self.rounded_qfp() > self.q,
            Rule::Frame => {
                self.is_whole() && 2 * self.refused > self.whole_slots() && self.q < 15
            }
        }
    }

    /// Whether the rule lowers Q.
    fn goes_down(self, rule: Rule) -> bool
        requires { IsCounted self }
        ensures { result ≡ goes_down rule self.q self.qfp self.slots self.refused }
    {
        match rule {
            Rule::Fixed => false,
            Rule::Float(_) => self.rounded_qfp() < self.q,
            Rule::Frame => self.is_whole() && 4 * self.refused < self.whole_slots() && self.q > 0,
        }
    }

    /// The whole number that is nearest to Qfp; a half rounds up.
    fn rounded_qfp(self) -> u32
        requires { self.qfp ≤ 15000 }
        ensures { result ≡ q_nearest self.qfp }
    {
        (self.qfp + 500) / 1000
    }

    /// The frame that a QueryAdjust begins.
    pub(crate) fn begin(self, updn: UpDn) -> Frame
        requires counted { IsCounted self }
        requires movable { IsMovable updn self.q }
        ensures value { result ≡ frame_begun_by updn self }
        ensures sound { IsSoundFrame result }
    {
        let q = match updn {
            UpDn::Up => self.q + 1,
            UpDn::Same => self.q,
            UpDn::Down => self.q - 1,
        };
        Frame {
            q,
            qfp: self.qfp,
            slots: 0,
            refused: 0,
            silent: true,
        }
    }
}
