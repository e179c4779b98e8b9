//! What the lines of the steps of a scenario have said so far.
ghost use Rattle.std.specs.Prelude.{◌≡◌, ◌≢◌, ◌<◌, ◌≤◌, ◌^◌, ◌↔◌, ◌++◌, [], length, None, IsTrue, IfOk, OnOk, OnErr};
ghost use Rattle.scenario.specs.Limits.{most_ops, most_steps, no_operations};
ghost use Rattle.scenario.specs.StepLinesSoFar.{IsBareRound, no_step_lines, steps_of, with_last, with_only, with_op, with_round, with_step};

use crate::values::Step;
use access_ops::{Op, OpList};
use bit_strings::{List, OutOfMemory};
use q_round::RoundSpec;
use reply_grammar::EpcWords;
use std::alloc::Global;
use std::marker::Model;
use std::mem;

/// How many steps a scenario may have.
const MOST_STEPS: usize = 1024;

/// How many operations a round may have.
const MOST_OPS: usize = 32;

/// The steps that the lines have named, in order.
#[derive(Drop)]
pub(crate) struct StepLines {
    /// The steps, without the last one where that is a round.
    closed: Vec<Step>,
    /// The parameters of the last step, where that is a round.
    round: Option<RoundSpec>,
    /// What is said of its operations.
    only: Option<EpcWords>,
    ops: Vec<Op>,
}

impl Model for StepLines {
    ghost use Rattle.scenario.specs.StepLinesSoFar.{AreFewStepLines, StepLinesValue};

    ghost Value = { StepLinesValue };

    ghost view = { λ a. record { closed = a.closed.items; round = a.round; operations = record { only = a.only; ops = a.ops.items } } };

    ghost invariant = { λ a. AreFewStepLines
        (record { closed = a.closed.items; round = a.round; operations = record { only = a.only; ops = a.ops.items } }) };
}

impl StepLines {
    /// The steps before the first line of a step: none.
    pub(crate) fn new(alloc: Global) -> StepLines
        ensures { result ≡ no_step_lines }
    {
        StepLines {
            closed: Vec::new(alloc),
            round: None,
            only: None,
            ops: Vec::new(alloc),
        }
    }

    /// How many steps there are.
    pub(crate) fn count(&self) -> usize
        ensures count { result ≡ length (steps_of self.now) }
        ensures small { result ≤ 1024 }
    {
        self.closed.len() + usize::from(self.round.is_some())
    }

    /// Whether the last step is a round.
    pub(crate) fn is_in_round(&self) -> bool
        ensures { IsTrue result ↔ (self.now.round ≢ None) }
    {
        self.round.is_some()
    }

    /// Whether the last step is a round of whose operations nothing is said yet.
    pub(crate) fn is_bare_round(&self) -> bool
        ensures { IsTrue result ↔ IsBareRound self.now }
    {
        self.round.is_some() && self.only.is_none() && self.ops.is_empty()
    }

    /// Whether one step more is none too many.
    pub(crate) fn has_room(&self) -> bool
        ensures { IsTrue result ↔ (length (steps_of self.now) < most_steps) }
    {
        self.count() < MOST_STEPS
    }

    /// Whether one operation more of the last round is none too many.
    pub(crate) fn has_room_for_op(&self) -> bool
        ensures { IsTrue result ↔ (length self.now.operations.ops < most_ops) }
    {
        self.ops.len() < MOST_OPS
    }

    /// Puts the last step behind the others, where it is a round: no more is said of its operations.
    fn end_round(&mut self, alloc: Global) -> Result<(), OutOfMemory>
        ensures { OnOk result
            (self.new ≡ record {
              closed = steps_of
                  self.old;
              round = None;
              operations = no_operations;
            }) }
    {
        let round = self.round.take();
        let only = self.only.take();
        let ops = mem::replace(&mut self.ops, Vec::new(alloc));
        close(&mut self.closed, round, only, ops)?;
        Ok(())
    }

    /// Adds a step that is no round.
    pub(crate) fn add_step(&mut self, alloc: Global, step: Step) -> Result<(), OutOfMemory>
        requires { length (steps_of self.old) < most_steps }
        ensures { OnOk result (self.new ≡ with_step self.old step) }
    {
        self.end_round(alloc)?;
        self.closed.push(step)?;
        Ok(())
    }

    /// Adds a round, of whose operations nothing is said yet.
    pub(crate) fn add_round(&mut self, alloc: Global, spec: RoundSpec) -> Result<(), OutOfMemory>
        requires { length (steps_of self.old) < most_steps }
        ensures { OnOk result (self.new ≡ with_round self.old spec) }
    {
        self.end_round(alloc)?;
        self.round = Some(spec);
        Ok(())
    }

    /// Names the one EPC that the operations of the last round are for.
    pub(crate) fn name_epc(&mut self, epc: EpcWords)
        ensures { self.new ≡ with_only self.old epc }
    {
        self.only = Some(epc);
    }

    /// Adds an operation to the last round.
    pub(crate) fn add_op(&mut self, op: Op) -> Result<(), OutOfMemory>
        requires { length self.old.operations.ops < most_ops }
        ensures { OnOk result (self.new ≡ with_op self.old op) }
    {
        self.ops.push(op)?;
        Ok(())
    }

    /// All steps that the lines of the scenario have named, in order.
    pub(crate) fn into_steps(self) -> Result<List<Step>, OutOfMemory>
        ensures { IfOk result (λ all. all ≡ steps_of self) }
    {
        let StepLines {
            mut closed,
            round,
            only,
            ops,
        } = self;
        close(&mut closed, round, only, ops)?;
        Ok(List::new(closed))
    }
}

/// Adds the last step, where that is a round, to those before it.
fn close(
    closed: &mut Vec<Step>,
    round: Option<RoundSpec>,
    only: Option<EpcWords>,
    ops: Vec<Op>,
) -> Result<(), OutOfMemory>
    requires { length ops.items < 2 ^ 32 }
    ensures ok { OnOk result
        (closed.new.items ≡ with_last closed.old.items round
        (record { only = only; ops = ops.items })) }
    ensures err { OnErr result (closed.new.items ≡ closed.old.items) }
{
    if let Some(spec) = round {
        let operations = OpList {
            only,
            ops: List::new(ops),
        };
        closed.push(Step::Round(spec, operations))?;
    }
    Ok(())
}
