//! The operations of a round with a tag that was listed.
ghost use Rattle.std.specs.Prelude.{◌≡◌, ◌||◌, ◌≤◌, ℕ, List, [], None, Some, length, if◌then◌else◌, option_copied};
ghost use Rattle.access_ops.specs.OpRunValue.{OpRunStandsFor};
ghost use Rattle.access_ops.specs.Operations.{IsAnswerFor, dialogue_of, reception_in};
ghost use Rattle.access_ops.specs.declared.op_next.Answer.TheVariants.{Got as GotAnswer};
ghost use Rattle.access_ops.specs.laws.OperationLaws.{Expects};
ghost use Rattle.air_events.specs.Streams.{longest_stream};
ghost use Rattle.air_model.specs.Past.{Item, past_behind_command};
ghost use Rattle.air_world.specs.Playing.{Begun, IsAtFirstOperation, IsUnderway, StandsAt};
ghost use Rattle.reply_wire.specs.Codes.{table_of};
ghost use Rattle.reply_wire.specs.Received.{IsReceived};
ghost use Rattle.runs.specs.History.{operation_reception, past_behind_dialogue};

use crate::receiving::receive_last;
use crate::run::Run;
use access_ops::{Answer, OpList, OpNext, OpRun};
use air_channel::{Air, Got};
use bit_strings::Bits;
use command_grammar::Command;
use reply_grammar::{Expect, Received};
use report_lines::{Line, Listener};
use std::sync::ledger::Ledger;

impl<'a, L: Ledger> Run<'a, L> {
    /// Does the operations that were begun with a tag that was listed, and tells the result of each.
    pub(crate) fn operate<R: Listener>(
        &mut self,
        air: &mut Air,
        round: u32,
        slot: u32,
        operations: &OpList,
        first: OpRun,
        report: &mut R,
    )
        requires underway { IsUnderway R.hears 129 air.old self.old report.old }
        requires few { length operations.now.ops ≤ 32 }
        requires first { IsAtFirstOperation first operations.now }
        ensures { (begun : Begun R) (past : List Item) (epc : List ℕ) (rn : ℕ)
            → StandsAt R.hears begun past air.old self.old report.old
            → OpRunStandsFor first operations.now epc rn []
            → StandsAt R.hears begun
            (past_behind_dialogue begun.start round slot 1 (dialogue_of operations.now epc rn) past)
            air.new self.new report.new }
    {
        let mut run = first;
        let mut next = OpNext::End;
        let mut answer = Answer::Silence;
        let mut is_answered = false;
        let mut index = 1;
        'moves: loop {
            run.next(operations, last_answer(is_answered, &answer), &mut next);
            match &next {
                OpNext::Send {
                    command,
                    expect,
                    extended,
                } => {
                    self.converse(air, command, expect, *extended, &mut answer, report);
                    is_answered = true;
                }
                OpNext::Result(ended) => {
                    report.tell(&Line::Op {
                        round,
                        slot,
                        index,
                        ended,
                    });
                    is_answered = false;
                    index += 1;
                }
                OpNext::End => return,
            }
        }
    }

    /// Sends a command of an operation, in one exchange, and gives what is heard in place of what was heard before.
    fn converse<R: Listener>(
        &mut self,
        air: &mut Air,
        command: &Command,
        expect: &Expect,
        extended: bool,
        answer: &mut Answer,
        report: &mut R,
    )
        requires underway { IsUnderway R.hears 1 air.old self.old report.old }
        requires expects { Expects command.now expect.now extended }
        ensures stands { (begun : Begun R) (past : List Item) (round slot : ℕ)
            → StandsAt R.hears begun past air.old self.old report.old
            → StandsAt R.hears begun (past_behind_command begun.start round slot command.now past)
            air.new self.new report.new }
        ensures expected { IsAnswerFor expect.now answer.new }
        ensures heard { (begun : Begun R) (past : List Item) (round slot : ℕ)
            → StandsAt R.hears begun past air.old self.old report.old
            → reception_in answer.new
            ≡ operation_reception begun.start round slot command.now expect.now extended past }
    {
        match self.send(air, command, report) {
            Got::Silence => *answer = Answer::Silence,
            _ => hear(air, expect, extended, &mut self.bits, answer),
        }
    }
}

/// The answer, where there is one to what was done last.
fn last_answer(is_answered: bool, answer: &Answer) -> Option<&Answer>
    ensures { option_copied result ≡ if is_answered then Some answer.now else None }
{
    if is_answered { Some(answer) } else { None }
}

/// Gives what is received of the last stream of an air as what is heard, in place of what was heard before.
fn hear(air: &Air, expect: &Expect, extended: bool, bits: &mut Bits, answer: &mut Answer)
    requires room { longest_stream ≤ bits.old.capacity }
    ensures room { bits.new.capacity ≡ bits.old.capacity }
    ensures received { (received : Received) × (answer.new ≡ GotAnswer received)
        × IsReceived (table_of air.now.link.code)
        (extended || air.now.link.trext) expect.now air.now.stream received }
{
    // The room of what was received before is taken over as it is.
    if let Answer::Got(received) = answer {
        return receive_last(air, expect, extended, bits, received);
    }
    *answer = Answer::Got(Received::Refused(0));
    match answer {
        Answer::Got(received) => receive_last(air, expect, extended, bits, received),
        Answer::Silence => unreachable!(),
    }
}
