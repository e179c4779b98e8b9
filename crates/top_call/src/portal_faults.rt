//! Which line of a scenario none of two portals has.
ghost use Rattle.std.specs.Prelude.{◌≡◌, ◌+◌, ◌<◌, ◌^◌, None, length};
ghost use Rattle.top_call.specs.PortalFault.{first_refused, head_length, lines_of_steps, portal_fault};
ghost use Rattle.runs.specs.PortalHistories.{IsOfPortals, other_portal};
ghost use Rattle.scenario.specs.Limits.{IsScenario};
ghost use Rattle.scenario.specs.declared.values.Scenario.{Scenario as ScenarioValue};
ghost use Rattle.scenario_lines.specs.declared.version.Version.{Version as ScenarioVersion};

use scenario::{Scenario, Several, Step, Version};

/// The number of the first line, counted from 1, for which a scenario is none of two portals; none exactly where there
/// is no such line.
pub(crate) fn portal_fault(scenario: &Scenario) -> Option<u32>
    requires { IsScenario scenario.now }
    ensures { result ≡ portal_fault scenario.now }
{
    match scenario.several {
        Several::Capture => Some(3),
        Several::Break => fault_behind_head(scenario),
    }
}

/// The same, where the channel breaks the first of several replies: none of the lines before those of exchanges is
/// such a line.
fn fault_behind_head(scenario: &Scenario) -> Option<u32>
    requires scenario { IsScenario scenario.now }
    requires breaks { scenario.now.several ≡ Several.Break }
    ensures { result ≡ portal_fault scenario.now }
{
    let behind_tags = head_length(scenario.version) + scenario.groups.len();
    if !scenario.entries.is_empty() {
        return Some(behind_tags + 1);
    }
    step_fault(scenario.steps.as_slice(), behind_tags)
}

/// How many lines stand before those of the tags, where the channel breaks the first of several replies.
fn head_length(version: Version) -> u32
    ensures { result ≡ head_length version }
{
    match version {
        Version::One => 2,
        Version::Two => 3,
    }
}

/// The number of the first line of steps, before which so many lines stand, for which they are none of two portals.
fn step_fault(steps: &[Step], before: u32) -> Option<u32>
    requires { before + length steps.now + 1 < 2 ^ 32 }
    ensures { (version : ScenarioVersion)
        → result ≡ first_refused (before + 1) 2 (lines_of_steps version steps.now) }
{
    let mut number = before;
    let mut next = 2;
    for step in steps {
        number += 1;
        let Step::Round(spec, operations) = step else {
            return Some(number);
        };
        if spec.session().get() != next {
            return Some(number);
        }
        if operations.only.is_some() || !operations.ops.is_empty() {
            return Some(number + 1);
        }
        next = other_portal(next);
    }
    None
}

/// The session whose round comes next behind one of this session.
fn other_portal(session: u8) -> u8
    ensures { result ≡ other_portal session }
{
    if session == 2 { 3 } else { 2 }
}

/// A scenario that has no such line is one of two portals.
pub fn portal_scenarios()
    ensures { (scenario : ScenarioValue) → IsScenario scenario → portal_fault scenario ≡ None
        → IsOfPortals scenario }
{}
