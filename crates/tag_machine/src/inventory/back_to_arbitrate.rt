//! BACK: a tag that answered waits again.
ghost use Rattle.std.specs.Prelude.{◌≡◌, ◌+◌};
ghost use Rattle.tag_machine.specs.Draws.{tag_gone_back};

use crate::abilities::InTurn;
use crate::any_tag::AnyTag;
use crate::states::Arbitrate;
use crate::step_counter::Steps;
use crate::tag::Tag;
use crate::transitions::back;
use std::sync::ledger::Ledger;

impl<S: InTurn> Tag<S> {
    /// The tag is in arbitrate with slot 0, in its session and with its Q.
    pub fn back<L: Ledger>(self, steps: &mut Steps<L>) -> Tag<Arbitrate>
        ensures step { result ≡ tag_gone_back self.state self.body }
        ensures counted { steps.new ≡ steps.old + 1 }
    {
        match self.one_step(steps) {
            AnyTag::InReply(Tag { state, body }) => back(body, state.session, state.q),
            AnyTag::Acknowledged(Tag { state, body }) => back(body, state.session, state.q),
            AnyTag::Opened(Tag { state, body }) => back(body, state.held.session, state.held.q),
            AnyTag::Secured(Tag { state, body }) => back(body, state.held.session, state.held.q),
            _ => unreachable!(),
        }
    }
}
