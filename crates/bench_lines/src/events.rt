//! The events of a probe or a log, read: those of the one tag that there is.
ghost use Rattle.std.specs.Prelude.{◌≡◌, IfOk, IfErr, IfSome, IfNone};
ghost use Rattle.air_events.specs.declared.Event.{Event};
ghost use Rattle.text_fields.specs.NamedFields.{AreFaulty, AreFilled, AreSpelling, SpellBehind};
ghost use Rattle.bench_lines.specs.ProbeLine.{IsProbeEvent, probe_event_fields, probe_events};

use air_events::Event;
use scenario_lines::{EventKind, event_kind_named, expiring_flag_named};
use text_fields::{Fields, FieldsFault, are_filled, one_field};

/// How many fields stand behind the kind of a probe's event, which names no tag.
fn field_count(kind: EventKind) -> u32
    ensures { result ≡ probe_event_fields kind }
{
    match kind {
        EventKind::Timeout | EventKind::Off | EventKind::On => 0,
        EventKind::Expire => 1,
    }
}

/// The event that the fields behind its kind spell.
fn event_behind(kind: EventKind, fields: Fields) -> Option<Event>
    requires { AreFilled (probe_event_fields kind) fields }
    ensures value { IfSome result (SpellBehind probe_events IsProbeEvent kind fields.entry) }
    ensures none { IfNone result
        ((event : Event) → ¬ SpellBehind probe_events IsProbeEvent kind fields.entry event) }
{
    match kind {
        EventKind::Timeout => Some(Event::Timeout),
        EventKind::Off => Some(Event::Off),
        EventKind::On => Some(Event::On),
        EventKind::Expire => Some(Event::Expire(expiring_flag_named(one_field(fields)?)?)),
    }
}

/// The event that the fields behind `event` spell.
pub(crate) fn read_event(mut fields: Fields) -> Result<Event, FieldsFault>
    ensures ok { IfOk result (AreSpelling probe_events IsProbeEvent fields.entry) }
    ensures refused { IfErr result (AreFaulty probe_events IsProbeEvent fields.entry) }
{
    let Some(name) = fields.next() else {
        return Err(FieldsFault::Shape);
    };
    let Some(kind) = event_kind_named(name) else {
        return Err(FieldsFault::Word);
    };
    if !are_filled(&fields, field_count(kind)) {
        return Err(FieldsFault::Shape);
    }
    match event_behind(kind, fields) {
        Some(event) => Ok(event),
        None => Err(FieldsFault::Number),
    }
}
