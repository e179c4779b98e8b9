//! What a tag does when it hears a command, whatever its state is.
ghost use Rattle.std.specs.Prelude.{◌≡◌, ◌≢◌, ◌+◌, ◌≤◌, ℕ, Some, false, if◌then◌else◌};
ghost use Rattle.reply_grammar.specs.declared.expected.Reply.TheVariants as replies;
ghost use Rattle.tag_machine.specs.TagValue.{IsLegalTag, is_present};
ghost use Rattle.tag_machine.specs.Answers.{Sent};
ghost use Rattle.tag_machine.specs.laws.Extended.{is_extended};
ghost use Rattle.tag_machine.specs.Hearing.{GivesOutcome, tag_value_of};
ghost use Rattle.tag_machine.specs.Step.{step};
ghost use Rattle.tag_machine.specs.laws.Isolation.{IsIsolated};
ghost use Rattle.reply_grammar.specs.Replies.{reply_room};

use crate::any_tag::{Answered, AnyTag, Heard};
use crate::states::Password;
use crate::step_counter::Steps;
use bit_strings::Bits;
use command_grammar::Command;
use std::sync::ledger::Ledger;

impl AnyTag {
    /// What the tag makes of a command. DR, M and TRext of a Query tell the form of the replies, and change nothing in the tag.
    fn take(self, command: &Command, out: &mut Bits) -> Heard
        requires room { reply_room ≤ out.old.capacity }
        ensures { GivesOutcome
            (step command.now (tag_value_of self).state (tag_value_of self).body) result out.old
            out.new }
    {
        match command {
            Command::Query {
                sel,
                session,
                target,
                q,
                ..
            } => self.query(*sel, *session, *target, *q, out),
            Command::Select {
                target,
                action,
                bank,
                pointer,
                mask,
            } => self.select(*target, *action, *bank, *pointer, mask, out),
            Command::QueryRep { session } => self.query_rep(*session, out),
            Command::QueryAdjust { session, updn } => self.query_adjust(*session, *updn, out),
            Command::Ack { rn } => self.ack(*rn, out),
            Command::Nak => self.nak(out),
            Command::ReqRn { rn } => self.req_rn(*rn, out),
            Command::Read {
                bank,
                pointer,
                count,
                rn,
            } => self.read(*bank, *pointer, *count, *rn, out),
            Command::Write {
                bank,
                pointer,
                covered,
                rn,
            } => self.write(*bank, *pointer, *covered, *rn, out),
            Command::Kill { covered, rn } => self.take_half(Password::Kill, *covered, *rn, out),
            Command::Lock { payload, rn } => self.lock(*payload, *rn, out),
            Command::Access { covered, rn } => {
                self.take_half(Password::Access, *covered, *rn, out)
            }
            Command::BlockWrite {
                bank,
                pointer,
                words,
                rn,
            } => self.block_write(*bank, *pointer, words, *rn, out),
            Command::BlockErase {
                bank,
                pointer,
                count,
                rn,
            } => self.block_erase(*bank, *pointer, *count, *rn, out),
        }
    }

    /// What the tag becomes when it hears a command, and what it answers (Annex B State-transition tables,
    /// Annex C Command-response tables). `out` has room for at least 8,240 bits; after it, it has exactly the
    /// bits of the answer, and none where the tag is silent. The steps rise by one.
    ///
    /// The inventoried flag of a session changes only where the command is a Select with that flag as its
    /// target, or a Query, QueryRep or QueryAdjust of that session; SL changes only by a Select with SL as its
    /// target.
    ///
    /// An answer is `Extended` exactly where the command is a Write, Lock, BlockWrite or BlockErase, or a Kill
    /// after a first half. A tag that answers an error keeps its memory, locks, flags and draws. A killed tag and
    /// one without power stay as they are and are silent.
    pub fn hear<L: Ledger>(self, command: &Command, out: &mut Bits, steps: &mut Steps<L>) -> Heard
        requires room { reply_room ≤ out.old.capacity }
        ensures step { GivesOutcome
            (step command.now (tag_value_of self).state (tag_value_of self).body) result out.old
            out.new }
        ensures counted { steps.new ≡ steps.old + 1 }
        ensures isolated { IsIsolated command.now (tag_value_of self).body.flags
            (tag_value_of result.tag).body.flags }
        ensures legal { IsLegalTag (tag_value_of result.tag) }
        ensures marked { result.answered ≢ Answered.Silent
            → result.answered
            ≡ (if is_extended command.now
            (tag_value_of self).state then Answered.Extended else Answered.Plain) }
        ensures refused { (sent : Sent) (code : ℕ)
            → (step command.now (tag_value_of self).state (tag_value_of self).body).answer
            ≡ Some sent → sent.reply ≡ replies.Error code
            → (tag_value_of result.tag).body ≡ (tag_value_of self).body }
        ensures absent { is_present (tag_value_of self).state ≡ false
            → (tag_value_of result.tag ≡ tag_value_of self) × (result.answered ≡ Answered.Silent) }
    {
        steps.tick();
        self.take(command, out)
    }
}
