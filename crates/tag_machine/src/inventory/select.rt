//! Select (6.3.2.11.1.1).
ghost use Rattle.std.specs.Prelude.{◌≡◌, ◌+◌, ◌≤◌};
ghost use Rattle.tag_machine.specs.Inventory.{select, selected_ready};
ghost use Rattle.tag_machine.specs.Hearing.{GivesOutcome, tag_value_of};
ghost use Rattle.reply_grammar.specs.Replies.{reply_room};

use crate::abilities::Present;
use crate::any_tag::{AnyTag, Heard};
use crate::states::Ready;
use crate::step_counter::Steps;
use crate::tag::Tag;
use crate::transitions::{go_back, stay_silent};
use bit_strings::{Action, Bits, Pointer};
use command_grammar::{FlagName, Mask, MaskBank};
use std::sync::ledger::Ledger;
use tag_body::Body;

/// The flag changes by the action, and the tag is ready.
fn select_ready(
    mut body: Body,
    target: FlagName,
    action: Action,
    bank: MaskBank,
    pointer: Pointer,
    mask: &Mask,
    out: &mut Bits,
) -> Heard
    ensures { GivesOutcome
        (selected_ready target action bank pointer mask.now body) result out.old out.new }
{
    body.select(target, action, bank, pointer, mask);
    stay_silent(AnyTag::Ready(Tag { state: Ready, body }), out)
}

impl AnyTag {
    /// Select, in each state.
    pub(crate) fn select(
        self,
        target: FlagName,
        action: Action,
        bank: MaskBank,
        pointer: Pointer,
        mask: &Mask,
        out: &mut Bits,
    ) -> Heard
        ensures { GivesOutcome
            (select target action bank pointer mask.now (tag_value_of self).state
            (tag_value_of self).body) result out.old out.new }
    {
        match self {
            AnyTag::Ready(Tag { state: _, body })
            | AnyTag::Arbitrate(Tag { state: _, body })
            | AnyTag::InReply(Tag { state: _, body })
            | AnyTag::Acknowledged(Tag { state: _, body }) => {
                select_ready(body, target, action, bank, pointer, mask, out)
            }
            AnyTag::Opened(Tag { state, body }) => match state.held.half {
                Some(_) => go_back(body, state.held.session, state.held.q, out),
                None => select_ready(body, target, action, bank, pointer, mask, out),
            },
            AnyTag::Secured(Tag { state, body }) => match state.held.half {
                Some(_) => go_back(body, state.held.session, state.held.q, out),
                None => select_ready(body, target, action, bank, pointer, mask, out),
            },
            AnyTag::Killed(tag) => stay_silent(AnyTag::Killed(tag), out),
            AnyTag::Unpowered(tag) => stay_silent(AnyTag::Unpowered(tag), out),
        }
    }
}

impl<S: Present> Tag<S> {
    /// The flag changes by the action, and the tag is ready. With an unfinished Kill or Access no flag changes,
    /// and the tag goes back to arbitrate.
    pub fn select<L: Ledger>(
        self,
        target: FlagName,
        action: Action,
        bank: MaskBank,
        pointer: Pointer,
        mask: &Mask,
        out: &mut Bits,
        steps: &mut Steps<L>,
    ) -> Heard
        requires room { reply_room ≤ out.old.capacity }
        ensures step { GivesOutcome
            (select target action bank pointer mask.now self.state self.body) result out.old
            out.new }
        ensures counted { steps.new ≡ steps.old + 1 }
    {
        self.one_step(steps)
            .select(target, action, bank, pointer, mask, out)
    }
}
