//! The inventoried flags of the four sessions and the selected flag.
ghost use Rattle.std.specs.Prelude.{◌≡◌};
ghost use Rattle.session_flags.specs.Actions.{effect_of};
ghost use Rattle.session_flags.specs.Flags.{new_flags, side_of, side_after, sl_after, flags_after_effect, flags_after_select, flags_after_inversion, matches, flags_after_power_loss, flags_after_expiry};

use bit_strings::{Action, Session};
use command_fields::{FlagName, Sel, Side};

/// The flags of a tag: an inventoried flag for each session (6.3.2.2 Sessions and inventoried flags),
/// and the selected flag SL (6.3.2.3 Selected flag).
#[derive(Clone, Copy, Debug, PartialEq, Eq)]
pub struct Flags {
    /// The inventoried flag of session S0.
    pub s0: Side,
    /// The inventoried flag of session S1.
    pub s1: Side,
    /// The inventoried flag of session S2.
    pub s2: Side,
    /// The inventoried flag of session S3.
    pub s3: Side,
    /// Whether SL is asserted.
    pub sl: bool,
}

/// What a Select does to the flag that it names.
#[derive(Clone, Copy, Debug, PartialEq, Eq)]
pub enum Effect {
    /// Nothing.
    Keep,
    /// Assert SL, or set an inventoried flag to A.
    Assert,
    /// Deassert SL, or set an inventoried flag to B.
    Deassert,
    /// Negate SL, or swap A and B.
    Negate,
}

impl Effect {
    /// The effect of an action at a tag that matches the mask, or doesn't.
    fn of(action: Action, matching: bool) -> Effect
        ensures { result ≡ effect_of action matching }
    {
        let (at_match, at_mismatch) = match action.get() {
            0 => (Effect::Assert, Effect::Deassert),
            1 => (Effect::Assert, Effect::Keep),
            2 => (Effect::Keep, Effect::Deassert),
            3 => (Effect::Negate, Effect::Keep),
            4 => (Effect::Deassert, Effect::Assert),
            5 => (Effect::Deassert, Effect::Keep),
            6 => (Effect::Keep, Effect::Assert),
            _ => (Effect::Keep, Effect::Negate),
        };
        if matching { at_match } else { at_mismatch }
    }

    /// The side of an inventoried flag after the effect.
    fn on_side(self, side: Side) -> Side
        ensures { result ≡ side_after self side }
    {
        match (self, side) {
            (Effect::Keep, _) => side,
            (Effect::Assert, _) | (Effect::Negate, Side::B) => Side::A,
            (Effect::Deassert, _) | (Effect::Negate, Side::A) => Side::B,
        }
    }

    /// Whether SL is asserted after the effect.
    fn on_sl(self, sl: bool) -> bool
        ensures { result ≡ sl_after self sl }
    {
        match self {
            Effect::Keep => sl,
            Effect::Assert => true,
            Effect::Deassert => false,
            Effect::Negate => !sl,
        }
    }
}

impl Flags {
    /// The flags of a new tag: A in every session, SL deasserted.
    pub fn new() -> Flags
        ensures { result ≡ new_flags }
    {
        Flags {
            s0: Side::A,
            s1: Side::A,
            s2: Side::A,
            s3: Side::A,
            sl: false,
        }
    }

    /// The inventoried flag of the tag for this session (6.3.2.2 Sessions and inventoried flags).
    pub fn side(&self, session: Session) -> Side
        ensures { result ≡ side_of self.now session }
    {
        match session.get() {
            0 => self.s0,
            1 => self.s1,
            2 => self.s2,
            _ => self.s3,
        }
    }

    /// Whether the selected flag is asserted.
    pub fn sl(&self) -> bool
        ensures { result ≡ self.now.sl }
    {
        self.sl
    }

    /// Lets the flag of this name take the effect.
    fn change(&mut self, target: FlagName, effect: Effect)
        ensures { self.new ≡ flags_after_effect self.old target effect }
    {
        match target {
            FlagName::S0 => self.s0 = effect.on_side(self.s0),
            FlagName::S1 => self.s1 = effect.on_side(self.s1),
            FlagName::S2 => self.s2 = effect.on_side(self.s2),
            FlagName::S3 => self.s3 = effect.on_side(self.s3),
            FlagName::Sl => self.sl = effect.on_sl(self.sl),
        }
    }

    /// What a Select does to the flag that it names, at a tag that matches its mask or doesn't
    /// (6.3.2.11.1.1 Select).
    pub fn select(&mut self, target: FlagName, action: Action, matching: bool)
        ensures { self.new ≡ flags_after_select self.old target action matching }
    {
        self.change(target, Effect::of(action, matching));
    }

    /// Whether a Query with these fields speaks to the tag (6.3.2.11.2.1 Query).
    pub fn matches(&self, sel: Sel, session: Session, target: Side) -> bool
        ensures { result ≡ matches sel session target self.now }
    {
        let selected = match sel {
            Sel::All00 | Sel::All01 => true,
            Sel::NotSl => !self.sl,
            Sel::Sl => self.sl,
        };
        selected && self.side(session) == target
    }

    /// Changes the inventoried flag of a session from A to B or from B to A.
    pub fn invert(&mut self, session: Session)
        ensures { self.new ≡ flags_after_inversion self.old session }
    {
        let flag = match session.get() {
            0 => FlagName::S0,
            1 => FlagName::S1,
            2 => FlagName::S2,
            _ => FlagName::S3,
        };
        self.change(flag, Effect::Negate);
    }

    /// What a loss of power does at once: the inventoried flag of S0 becomes A.
    pub fn lose_power(&mut self)
        ensures { self.new ≡ flags_after_power_loss self.old }
    {
        self.s0 = Side::A;
    }

    /// What the end of a flag's persistence does, at a tag with power or without, which takes part in
    /// a round or doesn't. S1 becomes A unless the tag takes part; S2 and S3 become A, and SL is
    /// deasserted, where there is no power; S0 has no such end (6.3.2.2; that S1 stays in a round is profile).
    pub fn expire(&mut self, flag: FlagName, powered: bool, takes_part: bool)
        ensures { self.new ≡ flags_after_expiry self.old flag powered takes_part }
    {
        match flag {
            FlagName::S1 if !takes_part => self.s1 = Side::A,
            FlagName::S2 if !powered => self.s2 = Side::A,
            FlagName::S3 if !powered => self.s3 = Side::A,
            FlagName::Sl if !powered => self.sl = false,
            _ => {}
        }
    }
}
