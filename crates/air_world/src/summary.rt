//! What a run counts.
ghost use Rattle.std.specs.Prelude.{◌≡◌, IfOk, OnOk};
ghost use Rattle.runs.specs.CompleteRounds.{RoundsAreComplete};
ghost use Rattle.runs.specs.Summary.{summary_of};
ghost use Rattle.scenario.specs.Limits.{IsScenario};

use crate::playing::tell_scenario;
use crate::start::set_up;
use bit_strings::OutOfMemory;
use q_round::{RoundEnd, round_laws};
use report_lines::{Line, Listener, PlayFault};
use runs::{Summary, rounds_are_complete};
use scenario::Scenario;
use std::alloc::{AllocError, Global};

/// Counts what a run tells. It formats nothing, and meets no fault.
#[derive(Drop)]
pub(crate) struct Counting {
    summary: Summary,
}

impl Listener for Counting {
    ghost use Rattle.std.specs.Prelude.{None};
    ghost use Rattle.air_world.specs.Counting.{CountsLines};
    ghost use Rattle.air_world.specs.laws.CountingLaws.{counts-nothing};

    ghost hears = { λ first lines later. CountsLines lines first.summary later.summary };

    ghost failed = { λ counting. None };

    fn tell(&mut self, line: &Line<'_>) {
        let counted = &mut self.summary;
        match *line {
            Line::List { .. } => counted.listed = counted.listed.saturating_add(1),
            Line::Round { end, slots, .. } => {
                counted.slots = counted.slots.saturating_add(u64::from(slots));
                counted.quiet &= end == RoundEnd::Quiet;
            }
            Line::Seen { .. } => counted.distinct = counted.distinct.saturating_add(1),
            Line::Tag { .. } => counted.tags = counted.tags.saturating_add(1),
            _ => {}
        }
    }

    fn fault(&self) -> Option<PlayFault> {
        None
    }

    fn wants_exchanges(&self) -> bool {
        false
    }

    fn wants_frames(&self) -> bool {
        false
    }

    ghost nothing = { λ counting. counts-nothing counting.summary };
}

/// Plays a scenario on an air of its own and counts what its report would tell. Nothing is written.
///
/// # Errors
///
/// There was no memory.
pub fn summarise(alloc: Global, scenario: &Scenario) -> Result<Summary, OutOfMemory>
    requires { IsScenario scenario.now }
    ensures counts { IfOk result (λ summary. summary ≡ summary_of scenario.now) }
    ensures inventory { OnOk result (RoundsAreComplete scenario.now) }
{
    round_laws();
    rounds_are_complete();
    let mut air = set_up(alloc, scenario)?;
    let mut counting = Counting {
        summary: Summary {
            tags: 0,
            listed: 0,
            distinct: 0,
            slots: 0,
            quiet: true,
        },
    };
    match tell_scenario(alloc, scenario, &mut air, &mut counting) {
        Ok(()) => Ok(counting.summary),
        // Who only counts meets no fault, so there was no memory.
        Err(_) => Err(AllocError),
    }
}
