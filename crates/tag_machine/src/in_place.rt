//! A command to a tag that only waits, or is killed or without power: where the tag sends nothing and its state keeps
//! its kind, the tag hears it in its place.
ghost use Rattle.std.specs.Prelude.{◌≡◌, ◌+◌, true, false, if◌then◌else◌};
ghost use Rattle.tag_machine.specs.Answers.{silent};
ghost use Rattle.tag_machine.specs.Hearing.{tag_value_of};
ghost use Rattle.tag_machine.specs.Draws.{enter};
ghost use Rattle.tag_machine.specs.Step.{step};
ghost use Rattle.tag_machine.specs.TagValue.{IsLegalTag};

use crate::any_tag::AnyTag;
use crate::inventory::q_of_redraw;
use crate::states::{Arbitrate, Ready};
use crate::step_counter::Steps;
use crate::tag::Tag;
use bit_strings::{QValue, Session};
use command_grammar::Command;
use std::sync::ledger::Ledger;

impl Tag<Ready> {
    /// Hears a command that leaves the tag in ready, and answers whether it did: each but a Query that speaks to the tag.
    fn hear_in_ready(&mut self, command: &Command) -> bool
        ensures heard { result ≡ true
            → step command.now self.old.state self.old.body ≡ silent self.new.state self.new.body }
        ensures left { result ≡ false → self.new ≡ self.old }
        ensures legal { IsLegalTag self.new }
    {
        match command {
            Command::Query {
                sel,
                session,
                target,
                ..
            } => !self.body.parts.flags.matches(*sel, *session, *target),
            Command::Select {
                target,
                action,
                bank,
                pointer,
                mask,
            } => {
                self.body.select(*target, *action, *bank, *pointer, mask);
                true
            }
            _ => true,
        }
    }
}

impl Tag<Arbitrate> {
    /// Hears a command that leaves the tag in arbitrate, and answers whether it did: one that speaks to no waiting tag, a
    /// QueryRep or QueryAdjust of another session, a QueryRep by which the slot counter falls and doesn't become 0, or a
    /// QueryAdjust, or a Query that speaks to the tag, at which it draws another slot than 0.
    fn hear_in_arbitrate(&mut self, command: &Command) -> bool
        ensures heard { result ≡ true
            → step command.now self.old.state self.old.body ≡ silent self.new.state self.new.body }
        ensures left { result ≡ false → self.new ≡ self.old }
        ensures legal { IsLegalTag self.new }
    {
        let own = self.state.session;
        let own_q = self.state.q;
        match command {
            Command::QueryRep { session } => match self.state.behind_query_rep(*session) {
                Some(state) => {
                    self.state = state;
                    true
                }
                None => false,
            },
            Command::QueryAdjust { session, updn } => {
                match q_of_redraw(own, own_q, *session, *updn) {
                    Some(q) => self.draw_slot(*session, q),
                    None => true,
                }
            }
            Command::Query {
                sel,
                session,
                target,
                q,
                ..
            } => {
                let matches = self.body.parts.flags.matches(*sel, *session, *target);
                matches && self.draw_slot(*session, *q)
            }
            Command::Select { .. } => false,
            _ => true,
        }
    }

    /// Draws a slot in a round, unless it is 0, and answers whether it did.
    fn draw_slot(&mut self, session: Session, q: QValue) -> bool
        ensures heard { result ≡ true
            → enter session q self.old.body ≡ silent self.new.state self.new.body }
        ensures left { result ≡ false → self.new ≡ self.old }
        ensures legal { IsLegalTag self.new }
    {
        match self.body.draw_slot(q) {
            Some(slot) => {
                self.state = Arbitrate { session, q, slot };
                true
            }
            None => false,
        }
    }
}

impl AnyTag {
    /// Hears a command where the tag only waits: it is in ready or arbitrate and stays there, and sends no answer, or it is
    /// killed or without power. Answers whether it did; else the tag is left as it was, with no word drawn, and has heard nothing.
    ///
    /// Most tags only wait at most commands of a round, and a tag that is not moved is heard much faster.
    #[tactic(auto, using(crate::proofs::AbsentTags::absent))]
    pub fn hear_in_place<L: Ledger>(&mut self, command: &Command, steps: &mut Steps<L>) -> bool
        ensures heard { result ≡ true
            → step command.now (tag_value_of self.old).state (tag_value_of self.old).body
            ≡ silent (tag_value_of self.new).state (tag_value_of self.new).body }
        ensures left { result ≡ false → self.new ≡ self.old }
        ensures counted { steps.new ≡ steps.old + (if result then 1 else 0) }
        ensures legal { IsLegalTag (tag_value_of self.new) }
    {
        let heard = match self {
            AnyTag::Ready(tag) => tag.hear_in_ready(command),
            AnyTag::Arbitrate(tag) => tag.hear_in_arbitrate(command),
            other => !other.present(),
        };
        if heard {
            steps.tick();
        }
        heard
    }
}
