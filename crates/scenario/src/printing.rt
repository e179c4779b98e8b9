//! A scenario, written as its text.
ghost use Rattle.std.specs.Prelude.{◌≡◌, ◌++◌, ℕ, [], ◌∷◌, map, All, Option, OnOk, IfOk};
ghost use Rattle.std.specs.List.{flat_map};
ghost use Rattle.std.specs.String.{string_bytes};
ghost use Rattle.text_fields.specs.Lines.{line_feed, text_with};
ghost use Rattle.scenario_lines.specs.declared.line.Happening.TheVariants as happenings;
ghost use Rattle.scenario_lines.specs.declared.line.Line.TheVariants as lines;
ghost use Rattle.scenario_lines.specs.Spelling.{line_text};
ghost use Rattle.scenario.specs.declared.values.Step.TheVariants as steps;
ghost use Rattle.scenario.specs.Limits.{IsEntry, IsScenario, IsStep};
ghost use Rattle.scenario.specs.EntryLines.{air_lines, choice_lines, entry_lines};
ghost use Rattle.scenario.specs.ScenarioText.{default_lines, group_line, only_lines, scenario_text, step_lines};

use crate::{
    Choice, Entry, Event, Op, OpList, RoundSpec, Scenario, Several, Step, TagGroup, Version,
};
use air_io::Bytes;
use bit_strings::OutOfMemory;
use reply_grammar::EpcWords;
use scenario_lines::{
    push_air_choice, push_air_event, push_air_miss, push_copies, push_default, push_end,
    push_event, push_link, push_nak, push_only, push_op, push_round, push_tag, push_version,
};
use std::alloc::Global;
use wire_text::push_command;

/// Writes the line of what the channel gives where several tags reply and nothing is chosen, which version 1
/// doesn't have.
fn push_several(text: &mut String, version: Version, several: Several) -> Result<(), OutOfMemory>
    ensures { OnOk result (string_bytes text.new ≡ string_bytes text.old
        ++ text_with (map line_text (default_lines version several))) }
{
    match version {
        Version::One => Ok(()),
        Version::Two => push_default(text, several),
    }
}

/// Writes the line of a group of tags.
fn push_group(text: &mut String, group: &TagGroup) -> Result<(), OutOfMemory>
    ensures { OnOk result (string_bytes text.new ≡ string_bytes text.old
        ++ (line_text (group_line group.now) ++ line_feed ∷ [])) }
{
    if group.count == 1 {
        push_tag(text, &group.spec)
    } else {
        push_copies(text, group.count, &group.spec)
    }
}

/// Writes the lines of tags.
fn push_groups(text: &mut String, groups: &[TagGroup]) -> Result<(), OutOfMemory>
    ensures { OnOk result (string_bytes text.new ≡ string_bytes text.old
        ++ text_with (map line_text (map group_line groups.now))) }
{
    for group in groups {
        push_group(text, group)?;
    }
    Ok(())
}

/// Writes the air lines of the events of one exchange.
fn push_events(text: &mut String, exchange: u32, events: &[(Event, u32)]) -> Result<(), OutOfMemory>
    ensures { OnOk result (string_bytes text.new ≡ string_bytes text.old
        ++ text_with (map line_text
        (map (λ event. lines.Air exchange (happenings.Event event.0 event.1)) events.now))) }
{
    for (event, tag) in events {
        push_air_event(text, exchange, *event, *tag)?;
    }
    Ok(())
}

/// Writes the air lines of the tags that miss one command.
fn push_missed(text: &mut String, exchange: u32, missed: &[u32]) -> Result<(), OutOfMemory>
    ensures { OnOk result (string_bytes text.new ≡ string_bytes text.old
        ++ text_with (map line_text
        (map (λ tag. lines.Air exchange (happenings.Miss tag)) missed.now))) }
{
    for tag in missed {
        push_air_miss(text, exchange, *tag)?;
    }
    Ok(())
}

/// Writes the air line of what the channel gives in one exchange, where that is said.
fn push_choice(text: &mut String, exchange: u32, choice: &Option<Choice>) -> Result<(), OutOfMemory>
    ensures { OnOk result (string_bytes text.new ≡ string_bytes text.old
        ++ text_with (map line_text (choice_lines exchange choice.now))) }
{
    match choice {
        Some(choice) => push_air_choice(text, exchange, choice),
        None => Ok(()),
    }
}

/// Writes the air lines of one exchange: the events, the misses, and the choice.
fn push_entry(text: &mut String, exchange: u32, entry: &Entry) -> Result<(), OutOfMemory>
    ensures { OnOk result (string_bytes text.new ≡ string_bytes text.old
        ++ text_with (map line_text (entry_lines (exchange, entry.now)))) }
{
    push_events(text, exchange, entry.events.as_slice())?;
    push_missed(text, exchange, entry.missed.as_slice())?;
    push_choice(text, exchange, &entry.choice)
}

/// Writes the air lines.
fn push_entries(text: &mut String, entries: &[(u64, Entry)]) -> Result<(), OutOfMemory>
    requires { (tags : ℕ) × All (IsEntry tags) entries.now }
    ensures { OnOk result (string_bytes text.new ≡ string_bytes text.old
        ++ text_with (map line_text (air_lines entries.now))) }
{
    for (exchange, entry) in entries {
        push_entry(text, *exchange as u32, entry)?;
    }
    Ok(())
}

/// Writes the lines of operations.
fn push_ops(text: &mut String, ops: &[Op]) -> Result<(), OutOfMemory>
    ensures { OnOk result (string_bytes text.new ≡ string_bytes text.old
        ++ text_with (map line_text (map lines.Op ops.now))) }
{
    for op in ops {
        push_op(text, op)?;
    }
    Ok(())
}

/// Writes the line of the one EPC that operations are for, where one is named.
fn push_named(text: &mut String, only: &Option<EpcWords>) -> Result<(), OutOfMemory>
    ensures { OnOk result (string_bytes text.new ≡ string_bytes text.old
        ++ text_with (map line_text (only_lines only.now))) }
{
    match only {
        Some(epc) => push_only(text, epc),
        None => Ok(()),
    }
}

/// Writes the line of a round and those of its operations.
fn push_operated(
    text: &mut String,
    version: Version,
    spec: &RoundSpec,
    operations: &OpList,
) -> Result<(), OutOfMemory>
    ensures { OnOk result (string_bytes text.new ≡ string_bytes text.old
        ++ text_with (map line_text (step_lines version (steps.Round spec.now operations.now)))) }
{
    push_round(text, version, spec)?;
    push_named(text, &operations.only)?;
    push_ops(text, operations.ops.as_slice())
}

/// Writes the lines of a step, as this version spells them.
fn push_step(text: &mut String, version: Version, step: &Step) -> Result<(), OutOfMemory>
    requires { (tags : ℕ) × IsStep version tags step.now }
    ensures { OnOk result (string_bytes text.new ≡ string_bytes text.old
        ++ text_with (map line_text (step_lines version step.now))) }
{
    match step {
        Step::Select(command) => {
            push_command(text, command)?;
            text.push('\n')
        }
        Step::Nak => push_nak(text),
        Step::Event(event, tag) => push_event(text, *event, *tag),
        Step::Round(spec, operations) => push_operated(text, version, spec, operations),
    }
}

/// Writes the lines of the steps, as this version spells them.
fn push_steps(text: &mut String, version: Version, steps: &[Step]) -> Result<(), OutOfMemory>
    requires { (tags : ℕ) × All (IsStep version tags) steps.now }
    ensures { OnOk result (string_bytes text.new ≡ string_bytes text.old
        ++ text_with (map line_text (flat_map (step_lines version) steps.now))) }
{
    for step in steps {
        push_step(text, version, step)?;
    }
    Ok(())
}

/// The text of a scenario, of which there is one.
pub fn print_scenario(alloc: Global, scenario: &Scenario) -> Result<Bytes, OutOfMemory>
    requires { IsScenario scenario.now }
    ensures { IfOk result (λ bytes. bytes ≡ scenario_text scenario.now) }
{
    let mut text = String::new(alloc);
    push_version(&mut text, scenario.version)?;
    push_link(&mut text, &scenario.link)?;
    push_several(&mut text, scenario.version, scenario.several)?;
    push_groups(&mut text, scenario.groups.as_slice())?;
    push_entries(&mut text, scenario.entries.as_slice())?;
    push_steps(&mut text, scenario.version, scenario.steps.as_slice())?;
    push_end(&mut text)?;
    Ok(Bytes::new(text.into_bytes()))
}
