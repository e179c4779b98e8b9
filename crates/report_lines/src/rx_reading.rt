//! Lines of what came back, as they are read.
ghost use Rattle.std.specs.Prelude.{◌≡◌, ◌≢◌, ◌≤◌, ◌∷◌, [], IfErr, IfNone, IfOk, IfSome, OnErr, length};
ghost use Rattle.report_lines.specs.ReadLines.{IsNoRx, RxFields, most_rx_levels};

use crate::line_fields::{fields_behind, is_number, next_field};
use bit_strings::Levels;
use text_fields::{Digits, Fields, FieldsFault, is_at_end};

/// How many levels a line has at most.
const MOST_LEVELS: u32 = 132_000;

/// The three fields that are left; none exactly where there are not so many.
fn three_left(mut others: Fields<'_>) -> Option<(&[u8], &[u8], &[u8])>
    ensures some { IfSome result (λ it. others.entry ≡ it.0.now ∷ it.1.now ∷ it.2.now ∷ []) }
    ensures none { IfNone result (length others.entry ≢ 3) }
{
    let exchange = next_field(&mut others)?;
    let count = next_field(&mut others)?;
    let levels = next_field(&mut others)?;
    if is_at_end(others) {
        Some((exchange, count, levels))
    } else {
        None
    }
}

/// Reads an `rx` line: its levels are put in place of what the list holds, and the answer is the number of the exchange and how many
/// tags replied, as they are spelled. After a refusal the list is empty.
///
/// # Errors
///
/// The first reason for which it is no `rx` line.
pub fn read_rx_line<'a>(
    line: &'a [u8],
    levels: &mut Levels,
) -> Result<(&'a [u8], &'a [u8]), FieldsFault>
    requires { most_rx_levels ≤ levels.old.capacity }
    ensures fields { IfOk result
        (λ it. (rx : RxFields line.now) × (rx.exchange ≡ it.0.now) × (rx.count ≡ it.1.now)
        × (rx.levels ≡ levels.new.items)) }
    ensures refused { IfErr result (IsNoRx line.now) }
    ensures err { OnErr result (levels.new.items ≡ []) }
    ensures capacity { levels.new.capacity ≡ levels.old.capacity }
{
    levels.clear();
    let Some(others) = fields_behind(line, b"rx") else {
        return Err(FieldsFault::Word);
    };
    let Some((exchange, count, came)) = three_left(others) else {
        return Err(FieldsFault::Shape);
    };
    if !is_number(exchange) {
        return Err(FieldsFault::Number);
    }
    if !is_number(count) {
        return Err(FieldsFault::Number);
    }
    let Some(came) = Digits::new(came, MOST_LEVELS) else {
        return Err(FieldsFault::Number);
    };
    came.copy_to(levels);
    Ok((exchange, count))
}
