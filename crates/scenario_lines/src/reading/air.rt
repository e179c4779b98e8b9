//! Air lines, read.
ghost use Rattle.std.specs.Prelude.{◌≡◌, Bool, List, IfOk, IfErr, [], ◌∷◌};
ghost use Rattle.std.specs.Fmt.{decimal};
ghost use Rattle.text_fields.specs.Binary.{binary};
ghost use Rattle.air_events.specs.Streams.{HasStreamLength};
ghost use Rattle.scenario_lines.specs.declared.line.Happening.{Happening};
ghost use Rattle.scenario_lines.specs.Names.{air_kind, air_word};
ghost use Rattle.scenario_lines.specs.LineForm.{IsExchange, IsHappening};
ghost use Rattle.scenario_lines.specs.Spelling.{happening_fields};
ghost use Rattle.text_fields.specs.NamedFields.{AreFilled};
ghost use Rattle.scenario_lines.specs.Reading.{IsHappeningText, Misreads, MisreadsAirLine, MisreadsHappening};

use super::event::{MOST_PLACE, event_behind};
use super::one_number;
use crate::choice::{ChoiceFields, ChoiceText};
use crate::{AirKind, Happening};
use air_events::LONGEST_STREAM;
use checked_lines::FaultReason;
use text_fields::{Digits, Fields, is_at_end, number_from, one_field};
use wire_text::value_named;

/// The greatest number of an exchange in a line.
const MOST_EXCHANGE: u32 = 1_000_000;

/// The greatest place of a level in a line.
const MOST_LEVEL: u32 = 999_999;

/// The levels of a raw stream, of which there is one at least, that the one field that is left spells.
fn raw_levels<'a>(fields: Fields<'a>) -> Result<Digits<'a>, FaultReason>
    ensures ok { IfOk result
        (λ levels. (fields.entry ≡ binary levels ∷ []) × HasStreamLength levels) }
    ensures refused { IfErr result
        (Misreads (AreFilled 1)
        (λ (levels : List Bool). binary levels ∷ []) HasStreamLength fields.entry) }
{
    let Some(field) = one_field(fields) else {
        return Err(FaultReason::Shape);
    };
    let Some(levels) = Digits::new(field, LONGEST_STREAM) else {
        return Err(FaultReason::Number);
    };
    if levels.is_empty() {
        return Err(FaultReason::Number);
    }
    Ok(levels)
}

/// What the fields behind the kind of an air line spell.
fn happening_behind<'a>(kind: AirKind, fields: Fields<'a>) -> Result<Happening<'a>, FaultReason>
    ensures ok { IfOk result (IsHappeningText kind fields.entry) }
    ensures refused { IfErr result (MisreadsHappening kind fields.entry) }
{
    match kind {
        AirKind::Event(kind) => {
            let (event, tag) = event_behind(kind, fields)?;
            Ok(Happening::Event { event, tag })
        }
        AirKind::Miss => Ok(Happening::Miss(one_number(fields, MOST_PLACE)?)),
        AirKind::Pick => {
            let reply = one_number(fields, MOST_PLACE)?;
            Ok(Happening::Choice(ChoiceText::new(ChoiceFields::Pick(reply))))
        }
        AirKind::Silent => {
            if is_at_end(fields) {
                Ok(Happening::Choice(ChoiceText::new(ChoiceFields::Silent)))
            } else {
                Err(FaultReason::Shape)
            }
        }
        AirKind::Break => {
            let place = one_number(fields, MOST_LEVEL)?;
            Ok(Happening::Choice(ChoiceText::new(ChoiceFields::Break(place))))
        }
        AirKind::Raw => {
            let levels = raw_levels(fields)?;
            Ok(Happening::Choice(ChoiceText::new(ChoiceFields::Raw(levels))))
        }
    }
}

/// The number of an exchange and what is said of it, which the fields behind `air` spell.
pub(crate) fn read_air<'a>(mut others: Fields<'a>) -> Result<(u32, Happening<'a>), FaultReason>
    ensures ok { IfOk result
        (λ it. (others.entry ≡ decimal it.0 ∷ air_word (air_kind it.1) ∷ happening_fields it.1)
        × IsExchange it.0 × IsHappening it.1) }
    ensures refused { IfErr result (MisreadsAirLine others.entry) }
{
    let Some(exchange) = others.next() else {
        return Err(FaultReason::Shape);
    };
    let Some(kind) = others.next() else {
        return Err(FaultReason::Shape);
    };
    let Some(kind) = value_named(kind) else {
        return Err(FaultReason::Word);
    };
    if exchange.is_empty() {
        return Err(FaultReason::Shape);
    }
    let happening = happening_behind(kind, others)?;
    match number_from(exchange, 1, MOST_EXCHANGE) {
        Some(exchange) => Ok((exchange, happening)),
        None => Err(FaultReason::Number),
    }
}
