//! Lines of a report, written, each with its line feed. After an error the text may hold a part of the line.
ghost use Rattle.std.specs.Prelude.{◌≡◌, ◌++◌, OnOk, [], ◌∷◌};
ghost use Rattle.std.specs.String.{string_bytes};
ghost use Rattle.text_fields.specs.Hexadecimal.{hex_word, hex_words};
ghost use Rattle.text_fields.specs.Lines.{line_feed, line_with, space};
ghost use Rattle.report_lines.specs.ReportLine.{BlfLine, DoneLine, ListLine, RoundLine, RxLine, SeenLine, TxLine, end_word, report_line_text};

use bit_strings::OutOfMemory;
use pie_text::KeptIntervals;
use q_round::RoundEnd;
use reply_grammar::EpcWords;
use text_fields::{
    push_next_bits, push_next_long_number, push_next_name, push_next_number, push_next_word,
    push_next_words, push_number,
};

/// Ends a line of a report with its line feed.
pub(crate) fn end_line(text: &mut String) -> Result<(), OutOfMemory>
    ensures { OnOk result (string_bytes text.new ≡ string_bytes text.old ++ line_feed ∷ []) }
{
    text.push('\n')
}

/// Writes `blf NUM/DEN`: the backscatter link frequency, the divide ratio over TRcal (6.3.1.2.8), as a
/// fraction whose unit is one over a nanosecond.
pub fn push_blf_line(text: &mut String, numerator: u32, denominator: u32) -> Result<(), OutOfMemory>
    ensures { OnOk result (string_bytes text.new ≡ string_bytes text.old
        ++ report_line_text (BlfLine numerator denominator)) }
{
    text.push_str("blf ")?;
    push_number(text, numerator)?;
    text.push('/')?;
    push_number(text, denominator)?;
    end_line(text)
}

/// Writes `tx E INTERVALS`: the intervals of the frame that was sent in the exchange of this number, in
/// nanoseconds, with the texts of intervals that are kept.
pub fn push_tx_line(
    text: &mut String,
    kept: &mut KeptIntervals,
    exchange: u64,
    intervals: &[u32],
) -> Result<(), OutOfMemory>
    ensures { OnOk result (string_bytes text.new ≡ string_bytes text.old
        ++ report_line_text (TxLine exchange intervals.now)) }
{
    text.push_str("tx")?;
    push_next_long_number(text, exchange)?;
    kept.push_next(text, intervals)?;
    end_line(text)
}

/// Writes `rx E COUNT LEVELS`: how many tags replied in the exchange of this number, and the levels that
/// came.
pub fn push_rx_line(
    text: &mut String,
    exchange: u64,
    count: u32,
    levels: &[bool],
) -> Result<(), OutOfMemory>
    ensures { OnOk result (string_bytes text.new ≡ string_bytes text.old
        ++ report_line_text (RxLine exchange count levels.now)) }
{
    text.push_str("rx")?;
    push_next_long_number(text, exchange)?;
    push_next_number(text, count)?;
    push_next_bits(text, levels)?;
    end_line(text)
}

/// Writes a PC and an EPC as the next fields.
fn next_listed(text: &mut String, pc: u16, epc: &EpcWords) -> Result<(), OutOfMemory>
    ensures { OnOk result (string_bytes text.new ≡ string_bytes text.old
        ++ space ∷ line_with (hex_word pc ∷ hex_words epc.now ∷ [])) }
{
    push_next_word(text, pc)?;
    push_next_words(text, epc.as_slice())
}

/// Writes `list ROUND SLOT PC EPC`: a tag was listed.
pub fn push_list_line(
    text: &mut String,
    round: u32,
    slot: u32,
    pc: u16,
    epc: &EpcWords,
) -> Result<(), OutOfMemory>
    ensures { OnOk result (string_bytes text.new ≡ string_bytes text.old
        ++ report_line_text (ListLine round slot pc epc.now)) }
{
    text.push_str("list")?;
    push_next_number(text, round)?;
    push_next_number(text, slot)?;
    next_listed(text, pc, epc)?;
    end_line(text)
}

/// How a round ended, as a word.
pub(crate) fn end_name(end: RoundEnd) -> &'static str
    ensures { result.now ≡ end_word end }
{
    match end {
        RoundEnd::Quiet => "quiet",
        RoundEnd::Limit => "limit",
    }
}

/// Writes `round ROUND END SLOTS`: a round ended, which had so many slots.
pub fn push_round_line(
    text: &mut String,
    round: u32,
    end: RoundEnd,
    slots: u32,
) -> Result<(), OutOfMemory>
    ensures { OnOk result (string_bytes text.new ≡ string_bytes text.old
        ++ report_line_text (RoundLine round end slots)) }
{
    text.push_str("round")?;
    push_next_number(text, round)?;
    push_next_name(text, end_name(end))?;
    push_next_number(text, slots)?;
    end_line(text)
}

/// Writes `seen COUNT PC EPC`: how often a PC and an EPC were listed.
pub fn push_seen_line(
    text: &mut String,
    count: u64,
    pc: u16,
    epc: &EpcWords,
) -> Result<(), OutOfMemory>
    ensures { OnOk result (string_bytes text.new ≡ string_bytes text.old
        ++ report_line_text (SeenLine count pc epc.now)) }
{
    text.push_str("seen")?;
    push_next_long_number(text, count)?;
    next_listed(text, pc, epc)?;
    end_line(text)
}

/// Writes `done`, the last line of a report.
pub fn push_done_line(text: &mut String) -> Result<(), OutOfMemory>
    ensures { OnOk result (string_bytes text.new ≡ string_bytes text.old
        ++ report_line_text DoneLine) }
{
    text.push_str("done\n")
}
