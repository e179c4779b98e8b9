//! Query (6.3.2.11.2.1).
ghost use Rattle.std.specs.Prelude.{◌≡◌, ◌+◌, ◌≤◌};
ghost use Rattle.tag_machine.specs.Inventory.{query, take_part};
ghost use Rattle.tag_machine.specs.Hearing.{GivesOutcome, tag_value_of};
ghost use Rattle.reply_grammar.specs.Replies.{reply_room};

use crate::abilities::Present;
use crate::any_tag::{AnyTag, Heard};
use crate::states::Ready;
use crate::step_counter::Steps;
use crate::tag::Tag;
use crate::transitions::{enter, stay_silent};
use bit_strings::{Bits, Code, QValue, Session};
use command_grammar::{Sel, Side};
use std::sync::ledger::Ledger;
use tag_body::Body;

/// What a Query does once the tag's flag was inverted where it had to be: a tag that matches takes the
/// session and Q and draws its slot, another is ready.
fn take_part(
    body: Body,
    sel: Sel,
    session: Session,
    target: Side,
    q: QValue,
    out: &mut Bits,
) -> Heard
    requires room { reply_room ≤ out.old.capacity }
    ensures { GivesOutcome (take_part sel session target q body) result out.old out.new }
{
    if !body.parts.flags.matches(sel, session, target) {
        return stay_silent(AnyTag::Ready(Tag { state: Ready, body }), out);
    }
    enter(body, session, q, out)
}

impl AnyTag {
    /// Query, in each state.
    pub(crate) fn query(
        self,
        sel: Sel,
        session: Session,
        target: Side,
        q: QValue,
        out: &mut Bits,
    ) -> Heard
        requires room { reply_room ≤ out.old.capacity }
        ensures { GivesOutcome
            (query sel session target q (tag_value_of self).state (tag_value_of self).body) result
            out.old out.new }
    {
        match self {
            AnyTag::Ready(Tag { state: _, body })
            | AnyTag::Arbitrate(Tag { state: _, body })
            | AnyTag::InReply(Tag { state: _, body }) => {
                take_part(body, sel, session, target, q, out)
            }
            AnyTag::Acknowledged(Tag { state, body }) => {
                let body = body.after_close(state.session, session);
                take_part(body, sel, session, target, q, out)
            }
            AnyTag::Opened(Tag { state, body }) => {
                let body = body.after_close(state.held.session, session);
                take_part(body, sel, session, target, q, out)
            }
            AnyTag::Secured(Tag { state, body }) => {
                let body = body.after_close(state.held.session, session);
                take_part(body, sel, session, target, q, out)
            }
            AnyTag::Killed(tag) => stay_silent(AnyTag::Killed(tag), out),
            AnyTag::Unpowered(tag) => stay_silent(AnyTag::Unpowered(tag), out),
        }
    }
}

impl<S: Present> Tag<S> {
    /// In acknowledged, open and secured the flag of the tag's session is inverted first, where it is the session of the
    /// Query. Then a tag that matches takes part in the new round: it draws its slot, and answers an RN16 where that is 0.
    /// Another is ready.
    pub fn query<L: Ledger>(
        self,
        _dr: bool,
        _code: Code,
        _trext: bool,
        sel: Sel,
        session: Session,
        target: Side,
        q: QValue,
        out: &mut Bits,
        steps: &mut Steps<L>,
    ) -> Heard
        requires room { reply_room ≤ out.old.capacity }
        ensures step { GivesOutcome
            (query sel session target q self.state self.body) result out.old out.new }
        ensures counted { steps.new ≡ steps.old + 1 }
    {
        self.one_step(steps).query(sel, session, target, q, out)
    }
}
