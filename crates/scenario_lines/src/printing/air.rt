//! Air and event lines, written.
ghost use Rattle.std.specs.Prelude.{◌≡◌, ◌++◌, [], ◌∷◌, OnOk};
ghost use Rattle.std.specs.String.{string_bytes};
ghost use Rattle.std.specs.Fmt.{decimal};
ghost use Rattle.text_fields.specs.Lines.{line_feed, line_with, space};
ghost use Rattle.scenario_lines.specs.Names.{air_kind, air_word, event_kind, event_word};
ghost use Rattle.scenario_lines.specs.Spelling.{event_fields, happening_fields, line_text};
ghost use Rattle.scenario_lines.specs.declared.line.Happening.TheVariants as happenings;
ghost use Rattle.scenario_lines.specs.declared.line.Line.TheVariants as lines;

use crate::names::event_name;
use air_events::{Choice, Event};
use bit_strings::OutOfMemory;
use text_fields::{push_named_number, push_next_bits, push_next_name, push_next_number};
use wire_text::flag_name;

/// Writes the kind of an event, the flag of an expiry, and the number of the tag.
fn next_event(text: &mut String, event: Event, tag: u32) -> Result<(), OutOfMemory>
    ensures { OnOk result (string_bytes text.new ≡ string_bytes text.old
        ++ space ∷ line_with (event_word (event_kind event) ∷ event_fields event tag)) }
{
    push_next_name(text, event_name(event))?;
    if let Event::Expire(flag) = event {
        push_next_name(text, flag_name(flag))?;
        return push_next_number(text, tag);
    }
    push_next_number(text, tag)
}

/// Writes a kind and the number behind it.
fn next_numbered(text: &mut String, kind: &str, number: u32) -> Result<(), OutOfMemory>
    ensures { OnOk result (string_bytes text.new ≡ string_bytes text.old
        ++ space ∷ line_with (kind.now ∷ decimal number ∷ [])) }
{
    push_next_name(text, kind)?;
    push_next_number(text, number)
}

/// Writes the kind of what the channel gives, and the field behind it.
fn next_choice(text: &mut String, choice: &Choice) -> Result<(), OutOfMemory>
    ensures { OnOk result (string_bytes text.new ≡ string_bytes text.old
        ++ space ∷ line_with
        (air_word (air_kind (happenings.Choice choice.now)) ∷ happening_fields
        (happenings.Choice choice.now))) }
{
    match choice {
        Choice::Pick(reply) => next_numbered(text, "pick", *reply),
        Choice::Silent => push_next_name(text, "silent"),
        Choice::Break(place) => next_numbered(text, "break", *place),
        Choice::Raw(levels) => {
            push_next_name(text, "raw")?;
            push_next_bits(text, levels.as_slice())
        }
    }
}

/// Writes `air E KIND FIELDS`: what befalls the tag of this number before the command of the exchange of
/// this number.
pub fn push_air_event(
    text: &mut String,
    exchange: u32,
    event: Event,
    tag: u32,
) -> Result<(), OutOfMemory>
    ensures { OnOk result (string_bytes text.new ≡ string_bytes text.old
        ++ (line_text (lines.Air exchange (happenings.Event event tag)) ++ line_feed ∷ [])) }
{
    push_named_number(text, "air", exchange)?;
    next_event(text, event, tag)?;
    text.push('\n')
}

/// Writes `air E miss TAG`: the tag of this number misses the command of the exchange of this number.
pub fn push_air_miss(text: &mut String, exchange: u32, tag: u32) -> Result<(), OutOfMemory>
    ensures { OnOk result (string_bytes text.new ≡ string_bytes text.old
        ++ (line_text (lines.Air exchange (happenings.Miss tag)) ++ line_feed ∷ [])) }
{
    push_named_number(text, "air", exchange)?;
    next_numbered(text, "miss", tag)?;
    text.push('\n')
}

/// Writes `air E KIND FIELDS`: what the channel gives in the exchange of this number.
pub fn push_air_choice(text: &mut String, exchange: u32, choice: &Choice) -> Result<(), OutOfMemory>
    ensures { OnOk result (string_bytes text.new ≡ string_bytes text.old
        ++ (line_text (lines.Air exchange (happenings.Choice choice.now)) ++ line_feed ∷ [])) }
{
    push_named_number(text, "air", exchange)?;
    next_choice(text, choice)?;
    text.push('\n')
}

/// Writes `event KIND FIELDS`: what befalls the tag of this number between exchanges.
pub fn push_event(text: &mut String, event: Event, tag: u32) -> Result<(), OutOfMemory>
    ensures { OnOk result (string_bytes text.new ≡ string_bytes text.old
        ++ (line_text (lines.Event event tag) ++ line_feed ∷ [])) }
{
    text.push_str("event")?;
    next_event(text, event, tag)?;
    text.push('\n')
}
