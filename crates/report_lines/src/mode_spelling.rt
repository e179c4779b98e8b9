//! The report of a mode, spelled as it is told.
ghost use Rattle.std.specs.Prelude.{◌≡◌, ◌++◌, IfOk, OnOk, true};
ghost use Rattle.std.specs.String.{string_bytes};
ghost use Rattle.report_lines.specs.ModeLines.{is_of_exchanges, is_of_trace, keeps};
ghost use Rattle.report_lines.specs.Line.{line_of};
ghost use Rattle.report_lines.specs.ReportLine.{ReportLine};
ghost use Rattle.report_lines.specs.ModeSpelling.{drawing_after, drawn_line, new_spelling};

use crate::json_writing::push_json_line;
use crate::line::Line;
use crate::member_texts::MemberTexts;
use crate::mode::Mode;
use crate::spelling::{Spelling, push_line};
use bit_strings::OutOfMemory;
use pie_line::Link;
use pie_text::KeptIntervals;
use std::alloc::Global;
use std::marker::Model;
use wave_dump::{Dump, push_head};

/// The report of a mode, and where its dump stands, if it is one. A contract sees these two alone.
#[derive(Drop)]
pub struct ModeSpelling {
    mode: Mode,
    dump: Dump,
    /// The intervals that were written, with their texts.
    intervals: KeptIntervals,
    /// Room for the texts of an object.
    members: MemberTexts,
}

impl Model for ModeSpelling {
    ghost use Rattle.report_lines.specs.ModeSpelling.{SpellingValue};

    ghost Value = { SpellingValue };

    ghost view = { λ a. record { mode = a.mode; dump = a.dump } };
}

impl ModeSpelling {
    /// The spelling of a mode's report of a run over this link, of which no line was told yet.
    pub fn new(alloc: Global, mode: Mode, link: Link) -> Result<ModeSpelling, OutOfMemory>
        ensures { IfOk result (λ spelling. spelling ≡ new_spelling mode link) }
    {
        let dump = Dump::new(alloc, link)?;
        Ok(ModeSpelling {
            mode,
            dump,
            intervals: KeptIntervals::new(),
            members: MemberTexts::new(alloc),
        })
    }
}

impl Spelling for ModeSpelling {
    ghost use Rattle.report_lines.specs.ModeSpelling.{line_of_mode, mode_behind};

    ghost text_of = { line_of_mode };

    ghost behind = { mode_behind };

    fn spell(&mut self, line: &Line<'_>, text: &mut String) -> Result<(), OutOfMemory> {
        match self.mode {
            Mode::Vcd => draw(&mut self.dump, line, text),
            mode if !mode.keeps(line) => Ok(()),
            Mode::Json => push_json_line(text, &mut self.members, line),
            Mode::Plain | Mode::Trace | Mode::Exchanges => push_line(
                text,
                &mut self.intervals,
                line,
            ),
        }
    }

    fn wants_exchanges(&self) -> bool {
        self.mode.keeps_exchanges()
    }

    fn wants_frames(&self) -> bool {
        self.mode.keeps_frames()
    }
}

impl Mode {
    /// The report of this mode has the lines of frames: those of the link, of what was sent and of what came back.
    fn keeps_frames(self) -> bool
        ensures { (line : ReportLine) → is_of_trace line ≡ true → result ≡ keeps self line }
    {
        matches!(self, Mode::Trace | Mode::Vcd)
    }

    /// The report of this mode has the lines of who said what in an exchange.
    fn keeps_exchanges(self) -> bool
        ensures { (line : ReportLine) → is_of_exchanges line ≡ true → result ≡ keeps self line }
    {
        matches!(self, Mode::Exchanges | Mode::Vcd)
    }

    /// The report of this mode has the line.
    fn keeps(self, line: &Line<'_>) -> bool
        ensures { result ≡ keeps self (line_of line.now) }
    {
        match line {
            Line::Blf { .. } | Line::Tx { .. } | Line::Rx { .. } => self.keeps_frames(),
            Line::Exchange { .. } | Line::Missed { .. } | Line::Answer { .. } | Line::Given(_) => {
                self.keeps_exchanges()
            }
            _ => true,
        }
    }
}

/// Writes what a line brings to a dump.
fn draw(dump: &mut Dump, line: &Line<'_>, text: &mut String) -> Result<(), OutOfMemory>
    ensures text { OnOk result
        (string_bytes text.new ≡ string_bytes text.old ++ drawn_line dump.old (line_of line.now)) }
    ensures behind { OnOk result (dump.new ≡ drawing_after dump.old (line_of line.now)) }
{
    match line {
        Line::Blf { .. } => push_head(text),
        Line::Given(exchanged) => dump.push_exchange(text, exchanged),
        Line::Done => dump.push_end(text),
        _ => Ok(()),
    }
}
