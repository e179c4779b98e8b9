//! Event lines, read, and the events of air lines.
ghost use Rattle.std.specs.Prelude.{◌≡◌, IfOk, IfErr, ◌∷◌};
ghost use Rattle.air_events.specs.declared.Event.{Event};
ghost use Rattle.scenario_lines.specs.LineForm.{IsEvent};
ghost use Rattle.scenario_lines.specs.Spelling.{event_fields};
ghost use Rattle.scenario_lines.specs.Reading.{IsEventText, MisreadsEvent, MisreadsEventLine};
ghost use Rattle.scenario_lines.specs.Names.{event_kind, event_word};

use super::one_number;
use crate::EventKind;
use crate::names::{event_kind_named, expiring_flag_named};
use air_events::Event;
use checked_lines::FaultReason;
use text_fields::{Fields, number, two_fields};

/// The greatest number of a tag or of a reply.
pub(crate) const MOST_PLACE: u32 = 4_095;

/// The end of a flag's persistence, which the fields behind `expire` spell, and the number of its tag.
fn read_expire(fields: Fields) -> Result<(Event, u32), FaultReason>
    ensures ok { IfOk result (λ it. IsEventText EventKind.Expire fields.entry it.0 it.1) }
    ensures refused { IfErr result (MisreadsEvent EventKind.Expire fields.entry) }
{
    let Some((flag, tag)) = two_fields(fields) else {
        return Err(FaultReason::Shape);
    };
    let Some(flag) = expiring_flag_named(flag) else {
        return Err(FaultReason::Number);
    };
    match number(tag, MOST_PLACE) {
        Some(tag) => Ok((Event::Expire(flag), tag)),
        None => Err(FaultReason::Number),
    }
}

/// The event of a kind and the number of its tag, which the fields behind the kind spell.
pub(crate) fn event_behind(kind: EventKind, fields: Fields) -> Result<(Event, u32), FaultReason>
    ensures ok { IfOk result (λ it. IsEventText kind fields.entry it.0 it.1) }
    ensures refused { IfErr result (MisreadsEvent kind fields.entry) }
{
    match kind {
        EventKind::Timeout => Ok((Event::Timeout, one_number(fields, MOST_PLACE)?)),
        EventKind::Off => Ok((Event::Off, one_number(fields, MOST_PLACE)?)),
        EventKind::On => Ok((Event::On, one_number(fields, MOST_PLACE)?)),
        EventKind::Expire => read_expire(fields),
    }
}

/// The event and the number of its tag that the fields behind `event` spell.
pub(crate) fn read_event(mut others: Fields) -> Result<(Event, u32), FaultReason>
    ensures ok { IfOk result
        (λ it. (others.entry ≡ event_word (event_kind it.0) ∷ event_fields it.0 it.1)
        × IsEvent it.0 it.1) }
    ensures refused { IfErr result (MisreadsEventLine others.entry) }
{
    let Some(kind) = others.next() else {
        return Err(FaultReason::Shape);
    };
    let Some(kind) = event_kind_named(kind) else {
        return Err(FaultReason::Word);
    };
    event_behind(kind, others)
}
