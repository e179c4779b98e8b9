//! ACK (6.3.2.11.2.4).
ghost use Rattle.std.specs.Prelude.{◌≡◌, ◌+◌, ◌≤◌};
ghost use Rattle.tag_machine.specs.Answers.{plain_answer};
ghost use Rattle.tag_machine.specs.Inventory.{ack, epc_reply};
ghost use Rattle.tag_machine.specs.Hearing.{GivesOutcome, tag_value_of};
ghost use Rattle.reply_grammar.specs.Replies.{reply_room};

use crate::abilities::{InTurn, Present};
use crate::any_tag::{Answered, AnyTag, Heard};
use crate::states::Acknowledged;
use crate::step_counter::Steps;
use crate::tag::Tag;
use crate::transitions::{go_back, stay_silent};
use bit_strings::Bits;
use reply_grammar::encode_epc;
use std::sync::ledger::Ledger;

/// Answers an ACK: PC, EPC and CRC-16, with the preamble of the Query's TRext.
fn answer_epc(tag: AnyTag, out: &mut Bits) -> Heard
    requires room { reply_room ≤ out.old.capacity }
    ensures { GivesOutcome
        (plain_answer (tag_value_of tag).state (tag_value_of tag).body
        (epc_reply (tag_value_of tag).body) 0) result out.old out.new }
{
    let memory = tag.memory();
    encode_epc(memory.pc(), &memory.epc(), out);
    let answered = Answered::Plain;
    Heard { tag, answered }
}

impl AnyTag {
    /// ACK, in each state.
    pub(crate) fn ack(self, rn: u16, out: &mut Bits) -> Heard
        requires room { reply_room ≤ out.old.capacity }
        ensures { GivesOutcome
            (ack rn (tag_value_of self).state (tag_value_of self).body) result out.old out.new }
    {
        match self {
            AnyTag::InReply(Tag { state, body }) => {
                if state.rn != rn {
                    return go_back(body, state.session, state.q, out);
                }
                let (session, q) = (state.session, state.q);
                answer_epc(Acknowledged { session, q, rn }.tag(body), out)
            }
            AnyTag::Acknowledged(Tag { state, body }) => {
                if state.rn != rn {
                    return go_back(body, state.session, state.q, out);
                }
                answer_epc(state.tag(body), out)
            }
            AnyTag::Opened(Tag { state, body }) => {
                let held = state.held;
                if held.half.is_some() || held.handle != rn {
                    return go_back(body, held.session, held.q, out);
                }
                answer_epc(state.tag(body), out)
            }
            AnyTag::Secured(Tag { state, body }) => {
                let held = state.held;
                if held.half.is_some() || held.handle != rn {
                    return go_back(body, held.session, held.q, out);
                }
                answer_epc(state.tag(body), out)
            }
            AnyTag::Ready(tag) => stay_silent(AnyTag::Ready(tag), out),
            AnyTag::Arbitrate(tag) => stay_silent(AnyTag::Arbitrate(tag), out),
            AnyTag::Killed(tag) => stay_silent(AnyTag::Killed(tag), out),
            AnyTag::Unpowered(tag) => stay_silent(AnyTag::Unpowered(tag), out),
        }
    }
}

impl<S: InTurn> Tag<S> {
    /// With the RN16 that was sent, in open and secured the handle, the tag answers PC and its EPC; from reply it goes to
    /// acknowledged. With another number, or with an unfinished Kill or Access, it goes back to arbitrate.
    pub fn ack<L: Ledger>(self, rn: u16, out: &mut Bits, steps: &mut Steps<L>) -> Heard
        requires room { reply_room ≤ out.old.capacity }
        ensures step { GivesOutcome (ack rn self.state self.body) result out.old out.new }
        ensures counted { steps.new ≡ steps.old + 1 }
    {
        self.one_step(steps).ack(rn, out)
    }
}
