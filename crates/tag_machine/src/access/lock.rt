//! Lock (6.3.2.11.3.5), which a tag heeds in secured alone.
ghost use Rattle.std.specs.Prelude.{◌≡◌, ◌+◌, ◌≤◌};
ghost use Rattle.tag_machine.specs.Access.{lock};
ghost use Rattle.tag_machine.specs.Hearing.{GivesOutcome, tag_value_of};
ghost use Rattle.reply_grammar.specs.Replies.{reply_room};

use crate::any_tag::{AnyTag, Heard};
use crate::states::Secured;
use crate::step_counter::Steps;
use crate::tag::Tag;
use crate::transitions::stay_silent;
use bit_strings::{Bits, Payload};
use lock_rules::Level;
use std::sync::ledger::Ledger;

impl AnyTag {
    /// Lock, in each state.
    pub(crate) fn lock(self, payload: Payload, rn: u16, out: &mut Bits) -> Heard
        requires room { reply_room ≤ out.old.capacity }
        ensures { GivesOutcome
            (lock payload rn (tag_value_of self).state (tag_value_of self).body) result out.old
            out.new }
    {
        let mut tag = match self.heed(rn, None, out) {
            Ok(tag) => tag,
            Err(heard) => return heard,
        };
        match tag.level {
            Level::Opened => stay_silent(tag.tag(), out),
            Level::Secured => {
                let change = tag.body.lock(payload);
                tag.answer_change(change, out)
            }
        }
    }
}

impl Tag<Secured> {
    /// With the handle the tag changes the pairs of lock bits by the payload, and answers the header; or it changes none, and
    /// answers an error. With another number nothing changes; after a first half the tag goes back to arbitrate.
    pub fn lock<L: Ledger>(
        self,
        payload: Payload,
        rn: u16,
        out: &mut Bits,
        steps: &mut Steps<L>,
    ) -> Heard
        requires room { reply_room ≤ out.old.capacity }
        ensures step { GivesOutcome (lock payload rn self.state self.body) result out.old out.new }
        ensures counted { steps.new ≡ steps.old + 1 }
    {
        self.one_step(steps).lock(payload, rn, out)
    }
}
