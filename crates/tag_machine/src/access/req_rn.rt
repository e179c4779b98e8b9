//! Req_RN (6.3.2.11.3.1).
ghost use Rattle.std.specs.Prelude.{◌≡◌, ◌+◌, ◌≤◌};
ghost use Rattle.tag_machine.specs.Access.{give_handle, req_rn, req_rn_outcome};
ghost use Rattle.tag_machine.specs.Hearing.{GivesOutcome, tag_value_of};
ghost use Rattle.reply_grammar.specs.Replies.{reply_room};

use super::rules::TagWithHandle;
use crate::abilities::{InTurn, Present};
use crate::any_tag::{AnyTag, Heard};
use crate::states::Held;
use crate::step_counter::Steps;
use crate::tag::Tag;
use crate::transitions::{answer_handle, go_back, stay_silent};
use bit_strings::{Bits, QValue, Session};
use lock_rules::Level;
use std::sync::ledger::Ledger;
use tag_body::Body;

/// Draws a handle and answers it: the tag is in secured where the access password is 0, else in open.
fn give_handle(mut body: Body, session: Session, q: QValue, out: &mut Bits) -> Heard
    requires { reply_room ≤ out.old.capacity }
    ensures { GivesOutcome (give_handle session q body) result out.old out.new }
{
    let level = if body.parts.memory.access_word() == 0 {
        Level::Secured
    } else {
        Level::Opened
    };
    let handle = body.draw();
    let held = Held {
        session,
        q,
        handle,
        cover: None,
        half: None,
    };
    let tag = TagWithHandle { level, held, body };
    answer_handle(tag.tag(), handle, out)
}

impl TagWithHandle {
    /// Req_RN in open and secured: with the handle the tag draws a cover and answers it, and a first half stays.
    fn req_rn(mut self, rn: u16, out: &mut Bits) -> Heard
        requires { reply_room ≤ out.old.capacity }
        ensures { GivesOutcome
            (req_rn_outcome self.level rn self.held self.body) result out.old out.new }
    {
        if self.held.handle != rn {
            return stay_silent(self.tag(), out);
        }
        let cover = self.body.draw();
        self.held.cover = Some(cover);
        answer_handle(self.tag(), cover, out)
    }
}

impl AnyTag {
    /// Req_RN, in each state.
    pub(crate) fn req_rn(self, rn: u16, out: &mut Bits) -> Heard
        requires room { reply_room ≤ out.old.capacity }
        ensures { GivesOutcome
            (req_rn rn (tag_value_of self).state (tag_value_of self).body) result out.old out.new }
    {
        match self {
            AnyTag::InReply(Tag { state, body }) => go_back(body, state.session, state.q, out),
            AnyTag::Acknowledged(Tag { state, body }) => {
                if state.rn != rn {
                    return stay_silent(state.tag(body), out);
                }
                give_handle(body, state.session, state.q, out)
            }
            AnyTag::Opened(Tag { state, body }) => {
                let held = state.held;
                let level = Level::Opened;
                TagWithHandle { level, held, body }.req_rn(rn, out)
            }
            AnyTag::Secured(Tag { state, body }) => {
                let held = state.held;
                let level = Level::Secured;
                TagWithHandle { level, held, body }.req_rn(rn, out)
            }
            AnyTag::Ready(tag) => stay_silent(AnyTag::Ready(tag), out),
            AnyTag::Arbitrate(tag) => stay_silent(AnyTag::Arbitrate(tag), out),
            AnyTag::Killed(tag) => stay_silent(AnyTag::Killed(tag), out),
            AnyTag::Unpowered(tag) => stay_silent(AnyTag::Unpowered(tag), out),
        }
    }
}

impl<S: InTurn> Tag<S> {
    /// In reply the tag goes back to arbitrate, whatever the number. In acknowledged, with the RN16 that was acknowledged, it
    /// draws a handle and answers it, and is in secured where the access password is 0, else in open. With the handle in open
    /// and secured it draws a cover and answers it; a first half stays. Another number changes nothing.
    pub fn req_rn<L: Ledger>(self, rn: u16, out: &mut Bits, steps: &mut Steps<L>) -> Heard
        requires room { reply_room ≤ out.old.capacity }
        ensures step { GivesOutcome (req_rn rn self.state self.body) result out.old out.new }
        ensures counted { steps.new ≡ steps.old + 1 }
    {
        self.one_step(steps).req_rn(rn, out)
    }
}
