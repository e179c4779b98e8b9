//! The rules for Q.
ghost use Rattle.std.specs.Prelude.{◌↔◌, IsTrue};

/// How an interrogator changes Q from slot to slot. The standard leaves the rule free (6.3.2.8
/// Inventorying Tag populations); what each rule counts as a collision is a stream that is no RN16
/// (profile).
#[derive(Clone, Copy, Debug, PartialEq, Eq)]
pub enum Rule {
    /// Q stays that of the Query, and a whole frame is begun again (profile).
    Fixed,
    /// Q is Qfp rounded, which a silent slot lowers and a collision raises by this number of thousandths,
    /// from 100 to 500 (Annex D, in whole numbers of this profile).
    Float(u32),
    /// Q changes behind a whole frame alone: it rises by 1 where more than half of the slots were
    /// collisions, and falls by 1 where less than a quarter were (profile).
    Frame,
}

impl Rule {
    ghost use Rattle.q_round.specs.SpecValue.{IsLegalRule};

    /// Whether the number of thousandths is in its range.
    pub(crate) fn is_in_range(self) -> bool
        ensures { IsTrue result ↔ IsLegalRule self }
    {
        match self {
            Rule::Float(step) => (100..=500).contains(&step),
            Rule::Fixed | Rule::Frame => true,
        }
    }
}
