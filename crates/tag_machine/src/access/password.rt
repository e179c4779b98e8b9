//! Kill and Access (6.3.2.11.3.4 and 6.3.2.11.3.6): a password comes in two halves, each with a cover of its own. How an
//! unfinished Kill or Access ends is profile.
ghost use Rattle.std.specs.Prelude.{◌≡◌, ◌+◌, ◌≤◌, Some};
ghost use Rattle.tag_machine.specs.Access.{in_access, kill_whole, kill, access_whole, access, password_outcome};
ghost use Rattle.tag_machine.specs.Hearing.{GivesOutcome, tag_value_of};
ghost use Rattle.reply_grammar.specs.Replies.{reply_room};

use super::rules::TagWithHandle;
use crate::abilities::WithHandle;
use crate::any_tag::{AnyTag, Heard};
use crate::states::{Half, Killed, Password};
use crate::step_counter::Steps;
use crate::tag::Tag;
use crate::transitions::{answer_handle, answer_header, go_back};
use bit_strings::Bits;
use lock_rules::{ErrorCode, Level};
use std::sync::ledger::Ledger;

impl TagWithHandle {
    /// What both halves of a Kill give.
    fn kill_whole(mut self, password: u32, out: &mut Bits) -> Heard
        requires room { reply_room ≤ out.old.capacity }
        ensures { GivesOutcome
            (kill_whole self.level password self.held self.body) result out.old out.new }
    {
        let own = self.body.parts.memory.kill_word();
        if own == 0 {
            self.held.half = None;
            return self.answer_change(Err(ErrorCode::Other), out);
        }
        if own != password {
            return go_back(self.body, self.held.session, self.held.q, out);
        }
        let (state, body) = (Killed, self.body);
        answer_header(AnyTag::Killed(Tag { state, body }), self.held.handle, out)
    }

    /// What both halves of an Access give.
    fn access_whole(mut self, password: u32, out: &mut Bits) -> Heard
        requires room { reply_room ≤ out.old.capacity }
        ensures { GivesOutcome (access_whole password self.held self.body) result out.old out.new }
    {
        if self.body.parts.memory.access_word() != password {
            return go_back(self.body, self.held.session, self.held.q, out);
        }
        self.level = Level::Secured;
        self.held.half = None;
        let handle = self.held.handle;
        answer_handle(self.tag(), handle, out)
    }
}

impl AnyTag {
    /// Kill or Access, in each state, with the covered half of this password: a first half is kept, and with a second one the
    /// password is whole.
    pub(crate) fn take_half(
        self,
        password: Password,
        covered: u16,
        rn: u16,
        out: &mut Bits,
    ) -> Heard
        requires room { reply_room ≤ out.old.capacity }
        ensures { GivesOutcome
            (in_access rn (Some password) (password_outcome password covered)
            (tag_value_of self).state (tag_value_of self).body) result out.old out.new }
    {
        let tag = match self.heed(rn, Some(password), out) {
            Ok(tag) => tag,
            Err(heard) => return heard,
        };
        let (mut tag, value) = match tag.uncover(covered, out) {
            Ok(found) => found,
            Err(heard) => return heard,
        };
        let Some(half) = tag.held.half else {
            tag.held.half = Some(Half { password, value });
            let handle = tag.held.handle;
            return answer_handle(tag.tag(), handle, out);
        };
        let whole = (u32::from(half.value) << 16) + u32::from(value);
        match password {
            Password::Kill => tag.kill_whole(whole, out),
            Password::Access => tag.access_whole(whole, out),
        }
    }
}

impl<S: WithHandle> Tag<S> {
    /// With the handle and a cover, a first Kill keeps its half and answers the handle; a second one kills the tag where both
    /// halves are the kill password, and answers the header. Where the kill password is 0 it answers an error, and with a
    /// wrong password the tag goes back to arbitrate. The cover is used up. Without a cover, or with another number, nothing
    /// changes; after a first half of an Access the tag goes back to arbitrate.
    pub fn kill<L: Ledger>(
        self,
        covered: u16,
        rn: u16,
        out: &mut Bits,
        steps: &mut Steps<L>,
    ) -> Heard
        requires room { reply_room ≤ out.old.capacity }
        ensures step { GivesOutcome (kill covered rn self.state self.body) result out.old out.new }
        ensures counted { steps.new ≡ steps.old + 1 }
    {
        self.one_step(steps)
            .take_half(Password::Kill, covered, rn, out)
    }

    /// With the handle and a cover, a first Access keeps its half and answers the handle; with a second one the tag is in
    /// secured where both halves are the access password, and answers the handle, else it goes back to arbitrate. The cover is
    /// used up. Without a cover, or with another number, nothing changes; after a first half of a Kill the tag goes back to
    /// arbitrate.
    pub fn access<L: Ledger>(
        self,
        covered: u16,
        rn: u16,
        out: &mut Bits,
        steps: &mut Steps<L>,
    ) -> Heard
        requires room { reply_room ≤ out.old.capacity }
        ensures step { GivesOutcome
            (access covered rn self.state self.body) result out.old out.new }
        ensures counted { steps.new ≡ steps.old + 1 }
    {
        self.one_step(steps)
            .take_half(Password::Access, covered, rn, out)
    }
}
