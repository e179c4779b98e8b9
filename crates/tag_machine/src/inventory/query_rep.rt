//! QueryRep (6.3.2.11.2.3).
ghost use Rattle.std.specs.Prelude.{◌≡◌, ◌+◌, ◌≤◌, IfNone, IfSome};
ghost use Rattle.tag_machine.specs.Answers.{silent};
ghost use Rattle.tag_machine.specs.Draws.{back, begin_reply, close};
ghost use Rattle.tag_machine.specs.Inventory.{query_rep, unless_half};
ghost use Rattle.tag_machine.specs.Hearing.{GivesOutcome, tag_value_of};
ghost use Rattle.tag_machine.specs.States.{arbitrate_state};
ghost use Rattle.tag_machine.specs.TagValue.{BodyValue};
ghost use Rattle.reply_grammar.specs.Replies.{reply_room};

use crate::abilities::{InRound, Present};
use crate::any_tag::{AnyTag, Heard};
use crate::states::{Arbitrate, Half, Ready};
use crate::step_counter::Steps;
use crate::tag::Tag;
use crate::transitions::{begin_reply, go_back, stay_silent};
use bit_strings::{Bits, QValue, Session};
use std::sync::ledger::Ledger;
use tag_body::{Body, Slot};

/// The end of the turn of a tag that was inventoried: its flag of the session is inverted, and it is ready (CLOSE), or BACK where a
/// Kill or Access is not finished.
fn end_turn(
    mut body: Body,
    session: Session,
    q: QValue,
    half: Option<Half>,
    out: &mut Bits,
) -> Heard
    ensures { GivesOutcome
        (unless_half half (back session q body) (close session body)) result out.old out.new }
{
    if half.is_some() {
        return go_back(body, session, q, out);
    }
    body.parts.flags.invert(session);
    stay_silent(AnyTag::Ready(Tag { state: Ready, body }), out)
}

impl Arbitrate {
    /// The state behind a QueryRep, or none where the slot of the tag comes, which then replies.
    pub(crate) fn behind_query_rep(self, session: Session) -> Option<Arbitrate>
        ensures waits { IfSome result
            (λ state. (body : BodyValue) → query_rep session (arbitrate_state self) body
            ≡ silent (arbitrate_state state) body) }
        ensures replies { IfNone result
            ((body : BodyValue) → query_rep session (arbitrate_state self) body
            ≡ begin_reply session self.q body) }
    {
        if self.session != session {
            return Some(self);
        }
        let q = self.q;
        let slot = self.slot.below();
        if slot.get() == 0 {
            return None;
        }
        Some(Arbitrate { session, q, slot })
    }
}

impl AnyTag {
    /// QueryRep, in each state.
    pub(crate) fn query_rep(self, session: Session, out: &mut Bits) -> Heard
        requires room { reply_room ≤ out.old.capacity }
        ensures { GivesOutcome
            (query_rep session (tag_value_of self).state (tag_value_of self).body) result out.old
            out.new }
    {
        match self {
            AnyTag::Arbitrate(Tag { state, body }) => {
                let q = state.q;
                match state.behind_query_rep(session) {
                    Some(state) => stay_silent(state.tag(body), out),
                    None => begin_reply(body, session, q, out),
                }
            }
            AnyTag::InReply(Tag { state, body }) => {
                if state.session != session {
                    return stay_silent(state.tag(body), out);
                }
                let q = state.q;
                let slot = Slot::new(0x7FFF);
                stay_silent(Arbitrate { session, q, slot }.tag(body), out)
            }
            AnyTag::Acknowledged(Tag { state, body }) => {
                if state.session != session {
                    return stay_silent(state.tag(body), out);
                }
                end_turn(body, session, state.q, None, out)
            }
            AnyTag::Opened(Tag { state, body }) => {
                if state.held.session != session {
                    return stay_silent(state.tag(body), out);
                }
                end_turn(body, session, state.held.q, state.held.half, out)
            }
            AnyTag::Secured(Tag { state, body }) => {
                if state.held.session != session {
                    return stay_silent(state.tag(body), out);
                }
                end_turn(body, session, state.held.q, state.held.half, out)
            }
            AnyTag::Ready(tag) => stay_silent(AnyTag::Ready(tag), out),
            AnyTag::Killed(tag) => stay_silent(AnyTag::Killed(tag), out),
            AnyTag::Unpowered(tag) => stay_silent(AnyTag::Unpowered(tag), out),
        }
    }
}

impl<S: InRound> Tag<S> {
    /// In arbitrate the slot counter falls by one, and where it becomes 0 the tag answers an RN16. In reply the RN16 was not
    /// acknowledged, and the tag is in arbitrate with slot 7FFFh. In acknowledged, open and secured the tag was inventoried:
    /// its flag is inverted, and it is ready; with an unfinished Kill or Access it goes back to arbitrate. A QueryRep of
    /// another session changes nothing.
    pub fn query_rep<L: Ledger>(
        self,
        session: Session,
        out: &mut Bits,
        steps: &mut Steps<L>,
    ) -> Heard
        requires room { reply_room ≤ out.old.capacity }
        ensures step { GivesOutcome
            (query_rep session self.state self.body) result out.old out.new }
        ensures counted { steps.new ≡ steps.old + 1 }
    {
        self.one_step(steps).query_rep(session, out)
    }
}
