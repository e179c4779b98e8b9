//! A run that is under way.
ghost use Rattle.std.specs.Prelude.{◌≡◌, ℕ, ◌≤◌, length, List, Some, None, OnOk, IfErr, IfOk};
ghost use Rattle.air_events.specs.Streams.{longest_stream};
ghost use Rattle.air_model.specs.Past.{Item, next_record};
ghost use Rattle.air_world.specs.Playing.{Begun, IsBetweenSteps, IsEndedBy, IsSentAndHeard, IsUnderway, StandsAt, StandsOrFails, most_in_slot};
ghost use Rattle.reply_wire.specs.Codes.{table_of};
ghost use Rattle.reply_grammar.specs.Reception.{reception_from};
ghost use Rattle.reply_grammar.specs.declared.expected.Received.{Received};
ghost use Rattle.reply_wire.specs.Heard.{pair_received, rn16_received};
ghost use Rattle.reply_wire.specs.Received.{IsReceived};
ghost use Rattle.runs.specs.History.{outcome_of, past_behind_ack, past_behind_round, past_behind_slot, slot_reception};
ghost use Rattle.runs.specs.NextItem.{expectation_of};

mod end;
mod operating;
mod saying;
mod steps;

use crate::receiving::{copy_of, receive_last};
use access_ops::{OpList, OpRun};
use air_channel::{Air, Got};
use air_events::EntryCursor;
use bit_strings::Bits;
use command_grammar::Command;
use q_round::{Outcome, Round, RoundEnd, RoundSpec, round_laws};
use reply_grammar::{EpcWords, Expect, Received, Reply};
use report_lines::{Line, Listener, PlayFault};
use saying::{tell_said, tell_waves};
use std::marker::Model;
use std::sync::ledger::Ledger;
use tag_machine::{Steps, answers_are_replies, steps_keep_tags_legal};

/// What is kept of a run beside the air. What it tells, it tells a listener.
///
/// A contract sees it as a record of what is said of later exchanges, and the numbers of exchanges and of rounds.
#[derive(Drop)]
pub(crate) struct Run<'a, L: Ledger> {
    entries: EntryCursor<'a>,
    exchanges: u64,
    rounds: u32,
    steps: Steps<L>,
    bits: Bits,
    /// What is received where an RN16 is expected, and where an EPC is.
    rn16: Received,
    epc: Received,
}

impl<'a, L: Ledger> Model for Run<'a, L> {
    ghost use Rattle.std.specs.Prelude.{◌≤◌};
    ghost use Rattle.air_events.specs.Streams.{longest_stream};
    ghost use Rattle.air_world.specs.Playing.{RunValue};

    ghost Value = { RunValue };

    ghost view = { λ a. record { entries = a.entries; exchanges = a.exchanges; rounds = a.rounds } };

    ghost invariant = { λ a. longest_stream ≤ a.bits.capacity };
}

impl<'a, L: Ledger> Run<'a, L> {
    /// Begins a run on these entries: no exchange was made. The bits are room for what is received.
    pub(crate) fn new(entries: EntryCursor<'a>, steps: Steps<L>, bits: Bits) -> Run<'a, L>
        requires { longest_stream ≤ bits.capacity }
        ensures { result ≡ record { entries = entries.entry; exchanges = 0; rounds = 0 } }
    {
        Run {
            entries,
            exchanges: 0,
            rounds: 0,
            steps,
            bits,
            rn16: Received::Refused(0),
            epc: Received::Refused(0),
        }
    }

    /// The room for what is received.
    pub(crate) fn into_bits(self) -> Bits
        ensures { longest_stream ≤ result.capacity }
    {
        self.bits
    }

    /// Sends a command, in one exchange, tells of it, and says whom the channel gave.
    fn send<R: Listener>(&mut self, air: &mut Air, command: &Command, report: &mut R) -> Got
        requires { IsUnderway R.hears 1 air.old self.old report.old }
        ensures { (begun : Begun R) (past : List Item) (round slot : ℕ)
            → StandsAt R.hears begun past air.old self.old report.old
            → IsSentAndHeard R.hears begun past
            (next_record begun.start round slot command.now past) air.new self.new report.new
            result }
    {
        answers_are_replies();
        steps_keep_tags_legal();
        self.exchanges += 1;
        let exchange = self.exchanges;
        let entry = self.entries.next_entry(exchange);
        let got = air.exchange(command, entry, &mut self.steps);
        tell_said(air, got, exchange, command, entry, &mut self.bits, report);
        tell_waves(air, exchange, report);
        got
    }

    /// The RN16 of the stream that came last, if it comes whole.
    fn hear_rn16(&mut self, air: &Air) -> Option<u16>
        ensures same { self.new ≡ self.old }
        ensures received { (received : Received)
            × IsReceived (table_of air.now.link.code) air.now.link.trext Expect.Rn16 air.now.stream
            received
            × (result ≡ rn16_received (reception_from received)) }
    {
        receive_last(air, &Expect::Rn16, false, &mut self.bits, &mut self.rn16);
        match self.rn16 {
            Received::Whole(Reply::Rn16(rn)) => Some(rn),
            _ => None,
        }
    }

    /// What the run hears in reply to an ACK: the PC and the EPC of the stream that came last, if they come whole.
    fn hear_epc(&mut self, air: &Air) -> Option<(u16, EpcWords)>
        ensures same { self.new ≡ self.old }
        ensures received { (received : Received)
            × IsReceived (table_of air.now.link.code) air.now.link.trext Expect.Epc air.now.stream
            received
            × (result ≡ pair_received (reception_from received)) }
    {
        receive_last(air, &Expect::Epc, false, &mut self.bits, &mut self.epc);
        match &self.epc {
            Received::Whole(Reply::Epc { pc, epc }) => Some((*pc, copy_of(epc))),
            _ => None,
        }
    }

    /// Plays a round, and says how it ended.
    pub(crate) fn play_round<R: Listener>(
        &mut self,
        air: &mut Air,
        spec: &RoundSpec,
        operations: &OpList,
        report: &mut R,
    ) -> Result<RoundEnd, PlayFault>
        requires between { IsBetweenSteps R.hears 1 air.old self.old report.old }
        requires few { length operations.now.ops ≤ 32 }
        ensures ends { (begun : Begun R) (past : List Item)
            → StandsAt R.hears begun past air.old self.old report.old
            → StandsOrFails R.hears R.failed result begun
            (past_behind_round begun.start operations.now spec.now past) air.new self.new report.new }
        ensures end { (begun : Begun R) (past : List Item)
            → StandsAt R.hears begun past air.old self.old report.old
            → IfOk result (λ end. IsEndedBy end
            (past_behind_round begun.start operations.now spec.now past)) }
    {
        round_laws();
        prove!(spec.limit() <= 70000);
        let number = self.rounds + 1;
        let (mut round, mut command) = Round::start(spec, air.link());
        'slots: loop {
            let slot = round.slots_sent();
            let outcome = self.play_slot(air, number, slot, &command, operations, report);
            check(report)?;
            if let Some(end) = round.next(outcome, &mut command) {
                self.rounds = number;
                report.tell(&Line::Round {
                    round: number,
                    end,
                    slots: slot,
                });
                return Ok(end);
            }
        }
    }

    /// Plays a slot, which begins with this slot command: after a whole RN16 the interrogator sends an ACK with it,
    /// and does the operations of the round with the tag that it lists.
    fn play_slot<R: Listener>(
        &mut self,
        air: &mut Air,
        round: u32,
        slot: u32,
        command: &Command,
        operations: &OpList,
        report: &mut R,
    ) -> Outcome
        requires underway { IsUnderway R.hears most_in_slot air.old self.old report.old }
        requires few { length operations.now.ops ≤ 32 }
        requires expects { expectation_of command.now ≡ Some Expect.Rn16 }
        ensures stands { (begun : Begun R) (past : List Item)
            → StandsAt R.hears begun past air.old self.old report.old
            → StandsAt R.hears begun
            (past_behind_slot begun.start operations.now round slot command.now past)
            air.new self.new report.new }
        ensures outcome { (begun : Begun R) (past : List Item)
            → StandsAt R.hears begun past air.old self.old report.old
            → result ≡ outcome_of (slot_reception begun.start round slot command.now past) }
    {
        match self.send(air, command, report) {
            Got::Silence => Outcome::Silence,
            _ => match self.hear_rn16(air) {
                None => Outcome::Refused,
                Some(rn) => {
                    self.acknowledge(air, round, slot, rn, operations, report);
                    Outcome::Whole
                }
            },
        }
    }

    /// Sends an ACK, lists the tag whose EPC comes whole, and does the operations of the round with it.
    fn acknowledge<R: Listener>(
        &mut self,
        air: &mut Air,
        round: u32,
        slot: u32,
        rn: u16,
        operations: &OpList,
        report: &mut R,
    )
        requires underway { IsUnderway R.hears 130 air.old self.old report.old }
        requires few { length operations.now.ops ≤ 32 }
        ensures { (begun : Begun R) (past : List Item)
            → StandsAt R.hears begun past air.old self.old report.old
            → StandsAt R.hears begun (past_behind_ack begun.start operations.now round slot rn past)
            air.new self.new report.new }
    {
        match self.send(air, &Command::Ack { rn }, report) {
            Got::Silence => {}
            _ => match self.hear_epc(air) {
                None => {}
                Some((pc, epc)) => {
                    report.tell(&Line::List {
                        round,
                        slot,
                        pc,
                        epc: &epc,
                    });
                    let run = OpRun::start(operations, &epc, rn);
                    self.operate(air, round, slot, operations, run, report);
                }
            },
        }
    }
}

/// The run goes on, unless the listener has met a fault.
pub(crate) fn check<R: Listener>(report: &R) -> Result<(), PlayFault>
    ensures faultless { OnOk result (R.failed report.now ≡ None) }
    ensures cause { IfErr result (λ fault. R.failed report.now ≡ Some fault) }
{
    match report.fault() {
        Some(fault) => Err(fault),
        None => Ok(()),
    }
}
