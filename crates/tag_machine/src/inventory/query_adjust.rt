//! QueryAdjust (6.3.2.11.2.2).
ghost use Rattle.std.specs.Prelude.{◌≡◌, ◌≢◌, ◌+◌, ◌≤◌, IfSome, IfNone};
ghost use Rattle.tag_machine.specs.Inventory.{q_after_adjust, query_adjust};
ghost use Rattle.tag_machine.specs.Hearing.{GivesOutcome, tag_value_of};
ghost use Rattle.reply_grammar.specs.Replies.{reply_room};

use crate::abilities::{InRound, Present};
use crate::any_tag::{AnyTag, Heard};
use crate::step_counter::Steps;
use crate::tag::Tag;
use crate::transitions::{enter, stay_silent};
use bit_strings::{Bits, QValue, Session};
use command_grammar::UpDn;
use std::sync::ledger::Ledger;
use tag_body::q_after_adjust;

/// The Q with which a tag in arbitrate or reply draws its slot again: it rises or falls by one or stays. None at a QueryAdjust
/// of another session, which changes nothing.
pub fn q_of_redraw(own: Session, q: QValue, session: Session, updn: UpDn) -> Option<QValue>
    ensures redraws { IfSome result (λ new. (own ≡ session) × (new ≡ q_after_adjust updn q)) }
    ensures stays { IfNone result (own ≢ session) }
{
    if own != session {
        return None;
    }
    Some(q_after_adjust(updn, q))
}

impl AnyTag {
    /// QueryAdjust, in each state.
    pub(crate) fn query_adjust(self, session: Session, updn: UpDn, out: &mut Bits) -> Heard
        requires room { reply_room ≤ out.old.capacity }
        ensures { GivesOutcome
            (query_adjust session updn (tag_value_of self).state (tag_value_of self).body) result
            out.old out.new }
    {
        match self {
            AnyTag::Arbitrate(Tag { state, body }) => {
                let Some(q) = q_of_redraw(state.session, state.q, session, updn) else {
                    return stay_silent(state.tag(body), out);
                };
                enter(body, session, q, out)
            }
            AnyTag::InReply(Tag { state, body }) => {
                let Some(q) = q_of_redraw(state.session, state.q, session, updn) else {
                    return stay_silent(state.tag(body), out);
                };
                enter(body, session, q, out)
            }
            // The turn of a tag that was inventoried ends as at a QueryRep.
            AnyTag::Acknowledged(tag) => AnyTag::Acknowledged(tag).query_rep(session, out),
            AnyTag::Opened(tag) => AnyTag::Opened(tag).query_rep(session, out),
            AnyTag::Secured(tag) => AnyTag::Secured(tag).query_rep(session, out),
            AnyTag::Ready(tag) => stay_silent(AnyTag::Ready(tag), out),
            AnyTag::Killed(tag) => stay_silent(AnyTag::Killed(tag), out),
            AnyTag::Unpowered(tag) => stay_silent(AnyTag::Unpowered(tag), out),
        }
    }
}

impl<S: InRound> Tag<S> {
    /// In arbitrate and reply Q rises or falls by one or stays, and the tag draws its slot again. In acknowledged, open and
    /// secured the tag was inventoried: its flag is inverted, and it is ready; with an unfinished Kill or Access it goes back
    /// to arbitrate. A QueryAdjust of another session changes nothing.
    pub fn query_adjust<L: Ledger>(
        self,
        session: Session,
        updn: UpDn,
        out: &mut Bits,
        steps: &mut Steps<L>,
    ) -> Heard
        requires room { reply_room ≤ out.old.capacity }
        ensures step { GivesOutcome
            (query_adjust session updn self.state self.body) result out.old out.new }
        ensures counted { steps.new ≡ steps.old + 1 }
    {
        self.one_step(steps).query_adjust(session, updn, out)
    }
}
