//! How lines are spelled.
ghost use Rattle.std.specs.Prelude.{◌≡◌, ◌++◌, ℕ, List, [], IsFalse, OnOk, true};
ghost use Rattle.std.specs.String.{string_bytes};
ghost use Rattle.report_lines.specs.ModeLines.{is_of_exchanges, is_of_trace};
ghost use Rattle.report_lines.specs.Line.{line_of};
ghost use Rattle.report_lines.specs.ReportLine.{ReportLine, report_line_text};

use crate::exchange_lines::{
    push_answer_line, push_exchange_line, push_given_line, push_missed_line,
};
use crate::line::Line;
use crate::line_writing::{
    push_blf_line, push_done_line, push_list_line, push_round_line, push_rx_line, push_seen_line,
    push_tx_line,
};
use crate::operation_line::push_op_line;
use crate::tag_line::push_tag_line;
use bit_strings::OutOfMemory;
use pie_text::KeptIntervals;

/// How lines are spelled, one after another.
pub trait Spelling {
    /// The text of a line, where the spelling stands so.
    ghost text_of: { Self → ReportLine → List ℕ };

    /// Where it stands behind a line.
    ghost behind: { Self → ReportLine → Self };

    /// Adds the text of a line. After an error a part of it may have been added.
    fn spell(&mut self, line: &Line<'_>, text: &mut String) -> Result<(), OutOfMemory>
        ensures text { OnOk result
            (string_bytes text.new ≡ string_bytes text.old ++ text_of self.old (line_of line.now)) }
        ensures behind { OnOk result (self.new ≡ behind self.old (line_of line.now)) };

    /// Whether a line that says who said what in an exchange may make a difference.
    fn wants_exchanges(&self) -> bool
        ensures { IsFalse result → (line : ReportLine) → is_of_exchanges line ≡ true
            → (text_of self.now line ≡ []) × (behind self.now line ≡ self.now) };

    /// Whether a report line that only a trace has may change the text, or where the spelling stands.
    fn wants_frames(&self) -> bool
        ensures { IsFalse result → (line : ReportLine) → is_of_trace line ≡ true
            → (text_of self.now line ≡ []) × (behind self.now line ≡ self.now) };
}

/// Writes a line of a report, with the texts of intervals that are kept.
pub fn push_line(
    text: &mut String,
    kept: &mut KeptIntervals,
    line: &Line<'_>,
) -> Result<(), OutOfMemory>
    ensures { OnOk result (string_bytes text.new ≡ string_bytes text.old
        ++ report_line_text (line_of line.now)) }
{
    match *line {
        Line::Blf {
            numerator,
            denominator,
        } => push_blf_line(text, numerator, denominator),
        Line::Exchange { exchange, command } => push_exchange_line(text, exchange, command),
        Line::Missed { exchange, tag } => push_missed_line(text, exchange, tag),
        Line::Answer {
            exchange,
            tag,
            extended,
            reply,
        } => push_answer_line(text, exchange, tag, extended, reply),
        Line::Tx {
            exchange,
            intervals,
        } => push_tx_line(text, kept, exchange, intervals),
        Line::Rx {
            exchange,
            count,
            levels,
        } => push_rx_line(text, exchange, count, levels),
        Line::Given(exchanged) => push_given_line(text, exchanged.number, exchanged.given),
        Line::List {
            round,
            slot,
            pc,
            epc,
        } => push_list_line(text, round, slot, pc, epc),
        Line::Op {
            round,
            slot,
            index,
            ended,
        } => push_op_line(text, round, slot, index, ended),
        Line::Round { round, end, slots } => push_round_line(text, round, end, slots),
        Line::Seen { count, pc, epc } => push_seen_line(text, count, pc, epc),
        Line::Tag { number, tag } => push_tag_line(text, number, tag),
        Line::Done => push_done_line(text),
    }
}
