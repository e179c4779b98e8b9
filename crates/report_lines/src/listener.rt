//! Who hears what a run tells.
ghost use Rattle.std.specs.Prelude.{◌≡◌, List, [], ◌∷◌, ◌++◌, IsFalse, Option, true};
ghost use Rattle.report_lines.specs.ModeLines.{is_of_exchanges, is_of_trace};
ghost use Rattle.report_lines.specs.Line.{line_of};
ghost use Rattle.report_lines.specs.ReportLine.{ReportLine};
ghost use Rattle.report_lines.specs.declared.mode.PlayFault.{PlayFault as Fault};

use crate::line::Line;
use crate::mode::PlayFault;

/// Who hears what a run tells, line by line. What is told behind the first fault changes nothing.
pub trait Listener {
    /// These lines make the second value of the first.
    ghost hears: { Self → List ReportLine → Self → Type 0 };

    /// The first fault that was met, if one was.
    ghost failed: { Self → Option Fault };

    /// Hears a line more.
    fn tell(&mut self, line: &Line<'_>)
        ensures { (first : Self) (lines : List ReportLine) → hears first lines self.old
            → hears first (lines ++ line_of line.now ∷ []) self.new };

    /// The first fault that was met, if one was.
    fn fault(&self) -> Option<PlayFault>
        ensures { result ≡ failed self.now };

    /// Whether a line that says who said what in an exchange may make a difference. Where not, nobody has to tell it.
    fn wants_exchanges(&self) -> bool
        ensures { IsFalse result → (first : Self) (lines : List ReportLine) (line : ReportLine)
            → is_of_exchanges line ≡ true
            → hears first lines self.now → hears first (lines ++ line ∷ []) self.now };

    /// Whether a line that a trace alone has may make a difference to this listener. Where not, nobody has to tell it.
    fn wants_frames(&self) -> bool
        ensures { IsFalse result → (first : Self) (lines : List ReportLine) (line : ReportLine)
            → is_of_trace line ≡ true
            → hears first lines self.now → hears first (lines ++ line ∷ []) self.now };

    /// No line changes nothing.
    ghost nothing: { (listener : Self) → hears listener [] listener };
}
