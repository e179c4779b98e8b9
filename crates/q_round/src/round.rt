//! A round, which takes the outcome of one slot at a time.
ghost use Rattle.std.specs.Prelude.{◌≡◌, ◌+◌, ◌≤◌, true, false, List, [], ◌∷◌};
ghost use Rattle.command_grammar.specs.declared.commands.Command.TheVariants.{QueryAdjust, QueryRep};

use crate::frame::Frame;
use crate::{Outcome, RoundSpec, Session, UpDn};
use command_grammar::Command;
use pie_line::Link;
use std::marker::Model;

/// What an interrogator does after a slot.
#[derive(Debug, PartialEq, Eq, Drop)]
pub enum Next {
    /// It sends this slot command.
    Send(Command),
    /// It ends the round after a whole frame of silent slots.
    Quiet,
    /// It ends the round, which has as many slots as its limit.
    Limit,
}

/// How a round ended.
#[derive(Clone, Copy, Debug, PartialEq, Eq)]
pub enum RoundEnd {
    /// After a whole frame of silent slots.
    Quiet,
    /// With as many slots as its limit.
    Limit,
}

/// How far a round is.
#[derive(Clone, Copy)]
pub(crate) enum Stage {
    Underway(Frame),
    Quiet,
    Limit,
}

/// A round, which takes the outcomes of its slots one at a time and keeps none of them. After its end it
/// answers the same end.
///
/// A contract sees it as a record of its parameters, how far it is and how many slot commands it gave.
#[derive(Drop)]
pub struct Round {
    spec: RoundSpec,
    stage: Stage,
    slots_sent: u32,
}

impl Model for Round {
    ghost use Rattle.q_round.specs.RoundValue.{RoundValue, IsSoundRound};

    ghost Value = { RoundValue };

    ghost view = { λ a. record { spec = a.spec; stage = a.stage; slots_sent = a.slots_sent } };

    ghost invariant = { λ a. IsSoundRound
        (record { spec = a.spec; stage = a.stage; slots_sent = a.slots_sent }) };
}

impl Round {
    ghost use Rattle.q_round.specs.declared.frame.Outcome.{Outcome};
    ghost use Rattle.q_round.specs.declared.round.Next.TheVariants.{Send};
    ghost use Rattle.q_round.specs.SpecValue.{SpecValue};
    ghost use Rattle.q_round.specs.Rounds.{next_command, is_over, slots_of};
    ghost use Rattle.q_round.specs.RoundValue.{RoundStandsFor, IsNextAnswer, slots_in};
    ghost use Rattle.q_round.specs.NextAnswer.{next_of};

    /// A round with these parameters, and the Query that begins it, which asks for replies as the link
    /// has them.
    pub fn start(spec: &RoundSpec, link: &Link) -> (Round, Command)
        ensures stands { RoundStandsFor result.0 spec.now [] }
        ensures query { Send result.1 ≡ next_command spec.now link.now [] }
    {
        let query = Command::Query {
            dr: link.dr(),
            code: link.code(),
            trext: link.trext(),
            sel: spec.sel(),
            session: spec.session(),
            target: spec.target(),
            q: spec.q(),
        };
        let round = Round {
            spec: *spec,
            stage: Stage::Underway(Frame::new(spec.q())),
            slots_sent: 1,
        };
        (round, query)
    }

    /// What follows the outcome of the slot that the last command began, by the rule for Q: the end of the
    /// round, or none and the next slot command, which is put in place of another. No command is copied, as
    /// one has room for the longest list of words. After the end it is the same end, whatever the outcome.
    pub fn next(&mut self, outcome: Outcome, command: &mut Command) -> Option<RoundEnd>
        // The round stands for the list of outcomes that it was given, the latest first.
        ensures answer { (spec : SpecValue) (outcomes : List Outcome)
            → RoundStandsFor self.old spec outcomes → is_over spec outcomes ≡ false →
            IsNextAnswer (next_of result command.new) self.new spec (outcome ∷ outcomes) }
        ensures again { (spec : SpecValue) (outcomes : List Outcome)
            → RoundStandsFor self.old spec outcomes → is_over spec outcomes ≡ true →
            (self.new ≡ self.old)
            × IsNextAnswer (next_of result command.new) self.new spec outcomes }
        ensures spec { self.new.spec ≡ self.old.spec }
        ensures sent { self.new.slots_sent ≡ self.old.slots_sent
            + slots_in (next_of result command.new) }
        ensures limit { self.new.slots_sent ≤ self.new.spec.limit }
    {
        let frame = match self.stage {
            Stage::Underway(frame) => frame,
            Stage::Quiet => return Some(RoundEnd::Quiet),
            Stage::Limit => return Some(RoundEnd::Limit),
        };
        let rule = self.spec.rule();
        let frame = frame.counting(outcome, rule);
        if frame.is_whole_and_silent() {
            self.stage = Stage::Quiet;
            return Some(RoundEnd::Quiet);
        }
        if self.slots_sent == self.spec.limit() {
            self.stage = Stage::Limit;
            return Some(RoundEnd::Limit);
        }
        self.slots_sent += 1;
        let session = self.spec.session();
        if let Some(updn) = frame.change(rule) {
            self.stage = Stage::Underway(frame.begin(updn));
            put_query_adjust(command, session, updn);
            return None;
        }
        self.stage = Stage::Underway(frame);
        put_query_rep(command, session);
        None
    }

    /// How many slot commands the round has given so far, its Query among them.
    pub fn slots_sent(&self) -> u32
        ensures value { result ≡ self.now.slots_sent }
        ensures stands { (spec : SpecValue) (outcomes : List Outcome)
            → RoundStandsFor self.now spec outcomes → result ≡ slots_of spec outcomes }
        ensures limit { result ≤ self.now.spec.limit }
    {
        self.slots_sent
    }
}

/// Puts a QueryRep in place of another command. Most often that is a QueryRep too, and has its session changed alone.
fn put_query_rep(command: &mut Command, session: Session)
    ensures { command.new ≡ QueryRep session }
{
    match command {
        Command::QueryRep { session: last } => *last = session,
        _ => *command = Command::QueryRep { session },
    }
}

/// Puts a QueryAdjust in place of another command. Where that is a QueryAdjust too, it has its fields changed alone.
fn put_query_adjust(command: &mut Command, session: Session, updn: UpDn)
    ensures { command.new ≡ QueryAdjust session updn }
{
    match command {
        Command::QueryAdjust {
            session: last,
            updn: change,
        } => {
            *last = session;
            *change = updn;
        }
        _ => *command = Command::QueryAdjust { session, updn },
    }
}
