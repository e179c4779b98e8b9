//! The parameters of a round.
ghost use Rattle.std.specs.Prelude.{◌≡◌, ◌↔◌, IsNone, IfSome};

use crate::{QValue, Rule, Sel, Session, Side};
use std::marker::Model;

/// The parameters of a round: the fields of its Query (6.3.2.11.2.1 Query), the rule for Q, and the limit
/// of slot commands. They are always in their ranges.
///
/// A contract sees it as a record of its parameters.
#[derive(Clone, Copy, Debug, PartialEq, Eq)]
pub struct RoundSpec {
    sel: Sel,
    session: Session,
    target: Side,
    q: QValue,
    rule: Rule,
    limit: u32,
}

impl Model for RoundSpec {
    ghost use Rattle.q_round.specs.SpecValue.{SpecValue, IsLegalSpec};

    ghost Value = { SpecValue };

    ghost view = { λ a. record { sel = a.sel; session = a.session; target = a.target; q = a.q; rule = a.rule; limit = a.limit } };

    ghost invariant = { λ a. IsLegalSpec
        (record { sel = a.sel; session = a.session; target = a.target; q = a.q; rule = a.rule; limit = a.limit }) };

    ghost inverse = { λ v. record { sel = v.sel; session = v.session; target = v.target; q = v.q; rule = v.rule; limit = v.limit } };
}

impl RoundSpec {
    ghost use Rattle.q_round.specs.SpecValue.{SpecValue, IsLegalRule, IsLimit, IsLegalSpec};

    /// A round with these parameters: which tags take part, by their SL and by their inventoried flag of
    /// the session, the first Q, the rule for Q, and the number of slot commands after which the round ends
    /// at the latest, from 1 to 70,000. None comes exactly where this number, or that of `Rule::Float`, is
    /// out of its range. Both ranges are profile.
    pub fn new(
        sel: Sel,
        session: Session,
        target: Side,
        q: QValue,
        rule: Rule,
        limit: u32,
    ) -> Option<RoundSpec>
        ensures spec { IfSome result
            (λ spec. spec ≡ record {
              sel = sel;
              session = session;
              target = target;
              q = q;
              rule = rule;
              limit = limit;
            }) }
        ensures legal { IfSome result IsLegalSpec }
        ensures none { IsNone result ↔ ¬ (IsLegalRule rule × IsLimit limit) }
    {
        prove!(session.get() <= 3 && q.get() <= 15);
        if !rule.is_in_range() || limit < 1 || limit > 70000 {
            return None;
        }
        Some(RoundSpec {
            sel,
            session,
            target,
            q,
            rule,
            limit,
        })
    }

    /// Which tags take part, by their selected flag.
    pub fn sel(&self) -> Sel
        ensures value { result ≡ self.now.sel }
        ensures legal { IsLegalSpec self.now }
    {
        self.sel
    }

    /// The session of the round.
    pub fn session(&self) -> Session
        ensures value { result ≡ self.now.session }
        ensures legal { IsLegalSpec self.now }
    {
        self.session
    }

    /// Which tags take part, by their inventoried flag of the session.
    pub fn target(&self) -> Side
        ensures value { result ≡ self.now.target }
        ensures legal { IsLegalSpec self.now }
    {
        self.target
    }

    /// Q of the Query.
    pub fn q(&self) -> QValue
        ensures value { result ≡ self.now.q }
        ensures legal { IsLegalSpec self.now }
    {
        self.q
    }

    /// The rule for Q.
    pub fn rule(&self) -> Rule
        ensures value { result ≡ self.now.rule }
        ensures legal { IsLegalSpec self.now }
    {
        self.rule
    }

    /// The number of slot commands after which the round ends at the latest.
    pub fn limit(&self) -> u32
        ensures value { result ≡ self.now.limit }
        ensures legal { IsLegalSpec self.now }
    {
        self.limit
    }
}
