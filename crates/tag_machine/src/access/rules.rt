//! A tag with a handle, and the rules that stand before what an access command does (6.3.2.11.3): the tag has a handle, the command
//! carries it, it ends no unfinished Kill or Access, and the covered number of a Write, Kill or Access has a cover.
ghost use Rattle.std.specs.Prelude.{◌≡◌, ◌≤◌, ℕ, IfOk, IfErr, OnOk, if◌then◌else◌};
ghost use Rattle.lock_rules.specs.declared.fields_and_levels.Level.{Level};
ghost use Rattle.tag_machine.specs.declared.states.Held.{Held};
ghost use Rattle.tag_machine.specs.TagValue.{BodyValue};
ghost use Rattle.reply_grammar.specs.Replies.{reply_room};
ghost use Rattle.tag_machine.specs.Answers.{Outcome, extended_answer};
ghost use Rattle.tag_machine.specs.Access.{change_answer, held_state, outcome_where_heeded, in_access, uncover, unless_ended};
ghost use Rattle.tag_machine.specs.Draws.{back};
ghost use Rattle.tag_machine.specs.Hearing.{GivesOutcome, tag_value_of};

use crate::abilities::Present;
use crate::any_tag::{Answered, AnyTag, Heard};
use crate::states::{Held, Opened, Password, Secured};
use crate::tag::Tag;
use crate::transitions::{answer_header, go_back, stay_silent};
use bit_strings::{Bits, xor16};
use lock_rules::{ErrorCode, Level};
use reply_grammar::encode_error;
use tag_body::Body;

/// A tag in open or secured. What it permits goes by the level.
#[derive(Drop)]
pub struct TagWithHandle {
    /// Open or secured.
    pub level: Level,
    /// The numbers that the state holds.
    pub held: Held,
    /// What the tag holds in every state.
    pub body: Body,
}

impl Held {
    /// Whether an unfinished Kill or Access ends at a command that brings a half of this password, or no half.
    fn ends(&self, brought: Option<Password>) -> bool
        ensures { (body : BodyValue) (outcome : Outcome)
            → unless_ended brought self.now body outcome
            ≡ (if result then back self.now.session self.now.q body else outcome) }
    {
        match (self.half, brought) {
            (Some(_), None) => true,
            (Some(half), Some(password)) => half.password != password,
            (None, _) => false,
        }
    }
}

impl TagWithHandle {
    /// The tag with its handle, in open or secured by its level.
    pub fn tag(self) -> AnyTag
        ensures { tag_value_of result
            ≡ record { state = held_state self.level self.held; body = self.body } }
    {
        let TagWithHandle { level, held, body } = self;
        match level {
            Level::Opened => Opened { held }.tag(body),
            Level::Secured => Secured { held }.tag(body),
        }
    }

    /// An answer with the extended preamble, which carries the handle: the header where a change was made, or the error by which it
    /// was refused.
    pub fn answer_change(self, change: Result<(), ErrorCode>, out: &mut Bits) -> Heard
        requires { reply_room ≤ out.old.capacity }
        ensures { GivesOutcome
            (extended_answer (held_state self.level self.held) self.body
            (change_answer change) self.held.handle) result out.old out.new }
    {
        let handle = self.held.handle;
        match change {
            Ok(()) => answer_header(self.tag(), handle, out),
            Err(code) => {
                encode_error(code.code(), handle, out);
                let answered = Answered::Extended;
                let tag = self.tag();
                Heard { tag, answered }
            }
        }
    }

    /// The tag where it heeds a command with this number, which brings a half of a password or none; else what comes of the command:
    /// with another number than the handle nothing changes, and a tag whose unfinished Kill or Access ends goes back.
    fn heed(
        self,
        rn: u16,
        brought: Option<Password>,
        out: &mut Bits,
    ) -> Result<TagWithHandle, Heard>
        ensures ok { IfOk result
            (λ tag. (tag ≡ self)
            × ((outcome : Outcome)
            → outcome_where_heeded rn brought self.level self.held self.body outcome ≡ outcome)) }
        ensures err { IfErr result
            (λ heard. (outcome : Outcome)
            → GivesOutcome
            (outcome_where_heeded rn brought self.level self.held self.body outcome) heard out.old
            out.new) }
        ensures untouched { OnOk result (out.new ≡ out.old) }
    {
        if self.held.handle != rn {
            return Err(stay_silent(self.tag(), out));
        }
        if self.held.ends(brought) {
            return Err(go_back(self.body, self.held.session, self.held.q, out));
        }
        Ok(self)
    }

    /// The number under a cover, and the tag, which uses the cover up. Without a cover nothing changes, and there is no reply.
    pub fn uncover(mut self, covered: u16, out: &mut Bits) -> Result<(TagWithHandle, u16), Heard>
        ensures ok { IfOk result
            (λ found. (found.0.level ≡ self.level) × (found.0.body ≡ self.body)
            × ((acts : Held → ℕ → Outcome)
            → uncover self.level self.held self.body covered self.held.cover acts
            ≡ acts found.0.held found.1)) }
        ensures err { IfErr result
            (λ heard. (acts : Held → ℕ → Outcome)
            → GivesOutcome
            (uncover self.level self.held self.body covered self.held.cover acts) heard out.old
            out.new) }
        ensures untouched { OnOk result (out.new ≡ out.old) }
    {
        let Some(cover) = self.held.cover else {
            return Err(stay_silent(self.tag(), out));
        };
        self.held.cover = None;
        Ok((self, xor16(covered, cover)))
    }
}

impl AnyTag {
    /// The tag where it heeds an access command with this number, which brings a half of a password or none; else what comes of the
    /// command: in reply and acknowledged the tag goes back, in the other states without a handle nothing changes, and in open and
    /// secured the rules of [`TagWithHandle::heed`] hold.
    pub(crate) fn heed(
        self,
        rn: u16,
        brought: Option<Password>,
        out: &mut Bits,
    ) -> Result<TagWithHandle, Heard>
        ensures ok { IfOk result
            (λ tag. (acts : Level → Held → BodyValue → Outcome)
            → in_access rn brought acts (tag_value_of self).state (tag_value_of self).body
            ≡ acts tag.level tag.held tag.body) }
        ensures err { IfErr result
            (λ heard. (acts : Level → Held → BodyValue → Outcome)
            → GivesOutcome
            (in_access rn brought acts (tag_value_of self).state (tag_value_of self).body) heard
            out.old out.new) }
        ensures untouched { OnOk result (out.new ≡ out.old) }
    {
        match self {
            AnyTag::InReply(Tag { state, body }) => {
                Err(go_back(body, state.session, state.q, out))
            }
            AnyTag::Acknowledged(Tag { state, body }) => {
                Err(go_back(body, state.session, state.q, out))
            }
            AnyTag::Opened(Tag { state, body }) => {
                let held = state.held;
                let level = Level::Opened;
                TagWithHandle { level, held, body }.heed(rn, brought, out)
            }
            AnyTag::Secured(Tag { state, body }) => {
                let held = state.held;
                let level = Level::Secured;
                TagWithHandle { level, held, body }.heed(rn, brought, out)
            }
            AnyTag::Ready(tag) => Err(stay_silent(AnyTag::Ready(tag), out)),
            AnyTag::Arbitrate(tag) => Err(stay_silent(AnyTag::Arbitrate(tag), out)),
            AnyTag::Killed(tag) => Err(stay_silent(AnyTag::Killed(tag), out)),
            AnyTag::Unpowered(tag) => Err(stay_silent(AnyTag::Unpowered(tag), out)),
        }
    }
}
