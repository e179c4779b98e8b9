//! Lines of frames that were sent, as they are read.
ghost use Rattle.std.specs.Prelude.{◌≡◌, ◌≤◌, ◌↔◌, [], IfErr, IfOk, IsTrue, OnErr, codes};
ghost use Rattle.report_lines.specs.ReadLines.{HasTxShape, IsNoTx, TxFields, first_field, most_tx_intervals};

use crate::line_fields::{field_count, fields_behind, is_number, next_field};
use pie_line::Intervals;
use pie_text::read_numbers;
use text_fields::FieldsFault;

/// How many intervals a `tx` line has at most.
pub const MOST_INTERVALS: u32 = 20_000;

/// The longest interval that a tx line may have, in nanoseconds.
const LONGEST_INTERVAL: u32 = 999_999;

/// Whether a line has a word, a number and from 1 to 20,000 intervals, by the number of its fields.
fn has_tx_shape(line: &[u8]) -> bool
    ensures { IsTrue result ↔ HasTxShape line.now }
{
    let count = field_count(line);
    3 <= count && count <= MOST_INTERVALS as usize + 2
}

/// Why the fields of a line that begins with `tx` are not of their forms.
fn wrong_fields(line: &[u8]) -> FieldsFault
    requires word { first_field line.now ≡ codes "tx" }
    requires wrong { ¬ TxFields line.now }
    ensures { IsNoTx line.now result }
{
    if has_tx_shape(line) {
        FieldsFault::Number
    } else {
        FieldsFault::Shape
    }
}

/// Reads a `tx` line: its intervals are put in place of what the list holds, and the answer is the number of the exchange, as it is
/// spelled. After a refusal the list is empty.
///
/// # Errors
///
/// The first reason for which it is no `tx` line, whatever frame the intervals are.
pub fn read_tx_line<'a>(line: &'a [u8], intervals: &mut Intervals) -> Result<&'a [u8], FieldsFault>
    requires { most_tx_intervals ≤ intervals.old.capacity }
    ensures fields { IfOk result
        (λ number. (tx : TxFields line.now) × (tx.exchange ≡ number.now)
        × (tx.intervals ≡ intervals.new.items)) }
    ensures refused { IfErr result (IsNoTx line.now) }
    ensures err { OnErr result (intervals.new.items ≡ []) }
    ensures capacity { intervals.new.capacity ≡ intervals.old.capacity }
{
    intervals.clear();
    let Some(mut others) = fields_behind(line, b"tx") else {
        return Err(FieldsFault::Word);
    };
    let Some(number) = next_field(&mut others) else {
        return Err(wrong_fields(line));
    };
    if !is_number(number) {
        return Err(wrong_fields(line));
    }
    if read_numbers(others, MOST_INTERVALS, LONGEST_INTERVAL, intervals).is_err() {
        return Err(wrong_fields(line));
    }
    Ok(number)
}
