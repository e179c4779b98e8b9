//! The steps of a run.
ghost use Rattle.std.specs.Prelude.{◌≡◌, List, None, All, length};
ghost use Rattle.air_model.specs.Past.{Item, past_behind_command};
ghost use Rattle.air_world.specs.Playing.{Begun, IsBetweenSteps, IsPlayable, StandsAt, StandsOrFails};
ghost use Rattle.runs.specs.History.{past_behind, past_behind_step};
ghost use Rattle.runs.specs.NextItem.{expectation_of};

use crate::run::{Run, check};
use air_channel::Air;
use command_grammar::Command;
use q_round::round_laws;
use report_lines::{Listener, PlayFault};
use scenario::Step;
use std::sync::ledger::Ledger;

impl<'a, L: Ledger> Run<'a, L> {
    /// Plays these steps, in order.
    pub(crate) fn play_steps<R: Listener>(
        &mut self,
        air: &mut Air,
        steps: &[Step],
        report: &mut R,
    ) -> Result<(), PlayFault>
        requires between { IsBetweenSteps R.hears (length steps.now) air.old self.old report.old }
        requires steps { All (IsPlayable (length air.old.tags)) steps.now }
        ensures { (begun : Begun R) (past : List Item)
            → StandsAt R.hears begun past air.old self.old report.old
            → StandsOrFails R.hears R.failed result begun (past_behind begun.start steps.now past)
            air.new self.new report.new }
    {
        round_laws();
        for step in steps {
            self.play_step(air, step, report)?;
        }
        Ok(())
    }

    /// Plays one step of a scenario: a command outside rounds, an event or a round.
    fn play_step<R: Listener>(
        &mut self,
        air: &mut Air,
        step: &Step,
        report: &mut R,
    ) -> Result<(), PlayFault>
        requires between { IsBetweenSteps R.hears 1 air.old self.old report.old }
        requires step { IsPlayable (length air.old.tags) step.now }
        ensures { (begun : Begun R) (past : List Item)
            → StandsAt R.hears begun past air.old self.old report.old
            → StandsOrFails R.hears R.failed result begun
            (past_behind_step begun.start step.now past) air.new self.new report.new }
    {
        match step {
            Step::Select(command) => self.send_alone(air, command, report),
            Step::Nak => self.send_alone(air, &Command::Nak, report),
            Step::Event(event, tag) => {
                air.event(*event, *tag);
                Ok(())
            }
            Step::Round(spec, operations) => {
                self.play_round(air, spec, operations, report)?;
                Ok(())
            }
        }
    }

    /// Sends a command that belongs to no round, and to which no reply is expected.
    fn send_alone<R: Listener>(
        &mut self,
        air: &mut Air,
        command: &Command,
        report: &mut R,
    ) -> Result<(), PlayFault>
        requires between { IsBetweenSteps R.hears 1 air.old self.old report.old }
        requires unanswered { expectation_of command.now ≡ None }
        ensures { (begun : Begun R) (past : List Item)
            → StandsAt R.hears begun past air.old self.old report.old
            → StandsOrFails R.hears R.failed result begun
            (past_behind_command begun.start 0 0 command.now past) air.new self.new report.new }
    {
        self.send(air, command, report);
        check(report)
    }
}
