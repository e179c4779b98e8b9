//! What a run tells, as text.
ghost use Rattle.std.specs.Prelude.{◌≡◌, ◌++◌, ℕ, List, OnOk, Option, None, refl};
ghost use Rattle.std.specs.Result.{result_err};
ghost use Rattle.report_lines.specs.Line.{line_of};
ghost use Rattle.report_lines.specs.TextReport.{HearsText, IsAdded};
ghost use Rattle.report_lines.specs.laws.TextReportLaws.{hears-nothing};

use crate::line::Line;
use crate::listener::Listener;
use crate::mode::PlayFault;
use crate::spelling::Spelling;
use air_io::{Sink, write_all};

/// Writes what a run tells, each line as soon as it is told. Behind the first fault nothing more is written.
#[derive(Drop)]
pub struct TextReport<'o, S: Spelling, O: Sink> {
    spelling: &'o mut S,
    out: &'o mut O,
    /// Room for the text of a line.
    line: &'o mut String,
    fault: Option<PlayFault>,
}

impl<'o, S: Spelling, O: Sink> TextReport<'o, S, O> {
    /// Nothing was told yet. The text of each line is put together in the room that is lent for it.
    pub fn new(spelling: &'o mut S, out: &'o mut O, line: &'o mut String) -> TextReport<'o, S, O>
        ensures out { result.out.ghost_name ≡ out.entry.ghost_name }
        ensures written { result.out.now ≡ out.old }
        ensures spelling { result.spelling.now ≡ spelling.old }
        ensures fault { result.fault ≡ None }
    {
        TextReport {
            spelling,
            out,
            line,
            fault: None,
        }
    }

    /// Writes the text of a line.
    fn write(&mut self, line: &Line<'_>) -> Result<(), PlayFault>
        ensures out { self.new.out.ghost_name ≡ self.old.out.ghost_name }
        ensures spelling { OnOk result
            (self.new.spelling.now ≡ S.behind self.old.spelling.now (line_of line.now)) }
        ensures fault { self.new.fault ≡ self.old.fault }
        ensures text { (text : List ℕ) (first : Option (List ℕ)) (before : ℕ)
            → IsAdded text first (O.written self.old.out.now) before
            (O.faults self.old.out.now) None
            → IsAdded (text ++ S.text_of self.old.spelling.now (line_of line.now)) first
            (O.written self.new.out.now) before (O.faults self.new.out.now) (result_err result) }
    {
        self.line.clear();
        self.spelling.spell(line, self.line)?;
        write_all(self.out, self.line.as_bytes())?;
        Ok(())
    }
}

impl<'o, S: Spelling, O: Sink> Listener for TextReport<'o, S, O> {
    ghost hears = { λ first lines later. (later.out.ghost_name ≡ first.out.ghost_name)
        × HearsText S.text_of S.behind lines first.spelling.now later.spelling.now first.fault later.fault
        (O.written first.out.now) (O.written later.out.now) (O.faults first.out.now) (O.faults later.out.now) };

    ghost failed = { λ report. report.fault };

    fn tell(&mut self, line: &Line<'_>) {
        if self.fault.is_some() {
            return;
        }
        self.fault = self.write(line).err();
    }

    fn fault(&self) -> Option<PlayFault> {
        self.fault
    }

    fn wants_exchanges(&self) -> bool {
        self.spelling.wants_exchanges()
    }

    fn wants_frames(&self) -> bool {
        self.spelling.wants_frames()
    }

    ghost nothing = { λ report. (refl, hears-nothing S.text_of S.behind report.spelling.now report.fault (O.written report.out.now) (O.faults report.out.now)) };
}
