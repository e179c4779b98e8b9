//! NAK (6.3.2.11.2.5).
ghost use Rattle.std.specs.Prelude.{◌≡◌, ◌+◌, ◌≤◌};
ghost use Rattle.tag_machine.specs.Inventory.{nak};
ghost use Rattle.tag_machine.specs.Hearing.{GivesOutcome, tag_value_of};
ghost use Rattle.reply_grammar.specs.Replies.{reply_room};

use crate::abilities::InRound;
use crate::any_tag::{AnyTag, Heard};
use crate::step_counter::Steps;
use crate::tag::Tag;
use crate::transitions::{go_back, stay_silent};
use bit_strings::Bits;
use std::sync::ledger::Ledger;

impl AnyTag {
    /// NAK, in each state.
    pub(crate) fn nak(self, out: &mut Bits) -> Heard
        ensures { GivesOutcome
            (nak (tag_value_of self).state (tag_value_of self).body) result out.old out.new }
    {
        match self {
            AnyTag::InReply(Tag { state, body }) => go_back(body, state.session, state.q, out),
            AnyTag::Acknowledged(Tag { state, body }) => go_back(body, state.session, state.q, out),
            AnyTag::Opened(Tag { state, body }) => {
                go_back(body, state.held.session, state.held.q, out)
            }
            AnyTag::Secured(Tag { state, body }) => {
                go_back(body, state.held.session, state.held.q, out)
            }
            other => stay_silent(other, out),
        }
    }
}

impl<S: InRound> Tag<S> {
    /// The tag goes back to arbitrate. In arbitrate nothing changes.
    pub fn nak<L: Ledger>(self, out: &mut Bits, steps: &mut Steps<L>) -> Heard
        requires room { reply_room ≤ out.old.capacity }
        ensures step { GivesOutcome (nak self.state self.body) result out.old out.new }
        ensures counted { steps.new ≡ steps.old + 1 }
    {
        self.one_step(steps).nak(out)
    }
}
