//! Lines of what came back.
ghost use Rattle.std.specs.Prelude.{◌≡◌, ◌≤◌, IfErr, IsOk, codes};
ghost use Rattle.report_lines.specs.ReadLines.{first_field, most_rx_levels, text_of};
ghost use Rattle.report_lines.specs.ReportLine.{RxLine};
ghost use Rattle.air_audit.specs.LineRefusals.{DiffersFirst};

use crate::AuditReason;
use crate::fields::{reason_of, spells};
use bit_strings::Levels;
use report_lines::read_rx_line;

/// Compares a line that begins with `rx`. The levels in it are put in place of what `room` holds.
///
/// # Errors
///
/// The first reason for which it isn't the line of so many replies and these levels in the exchange of this number.
pub(crate) fn compare_rx_line(
    line: &[u8],
    exchange: u32,
    count: u32,
    levels: &Levels,
    room: &mut Levels,
) -> Result<(), AuditReason>
    requires word { first_field line.now ≡ codes "rx" }
    requires room { most_rx_levels ≤ room.old.capacity }
    ensures same { IsOk result → line.now ≡ text_of (RxLine exchange count levels.now.items) }
    ensures refused { IfErr result (DiffersFirst exchange count levels.now.items line.now) }
    ensures capacity { room.new.capacity ≡ room.old.capacity }
{
    let (number, replied) = match read_rx_line(line, room) {
        Ok(numbers) => numbers,
        Err(fault) => return Err(reason_of(fault)),
    };
    if !spells(number, exchange) {
        return Err(AuditReason::Exchange);
    }
    if !spells(replied, count) {
        return Err(AuditReason::Count);
    }
    if room.as_slice() != levels.as_slice() {
        return Err(AuditReason::Levels);
    }
    Ok(())
}
