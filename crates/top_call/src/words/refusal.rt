//! What the words that read a scenario write where a text spells none.
ghost use Rattle.std.specs.Prelude.{ℕ, List};
ghost use Rattle.scenario.specs.Faults.{IsRefused};
ghost use Rattle.top_call.specs.declared.forms.Form.{Form};
ghost use Rattle.top_call.specs.Jobs.{job_of};
ghost use Rattle.top_call.specs.StatusMeanings.{EndsSo, sink_change};
ghost use Rattle.top_call.specs.words.Run.{RefusesScenario};

use crate::ending::{WriteEnd, Wrote, write_text};
use air_io::Sink;
use checked_lines::{Unread, fault_text};

/// Writes the line of the first fault of a text, as the fault line of an input of which it is a part, or the whole.
pub fn write_refusal<O: Sink>(fault: Unread, output: &mut O) -> Result<Wrote, WriteEnd>
    ensures { (form : Form) (bytes text : List ℕ) → IsRefused text fault
        → ((line : List ℕ) → RefusesScenario text line → (job_of form).refuses bytes line)
        → EndsSo (job_of form) bytes (sink_change O.written O.faults output.old output.new) result }
{
    match fault {
        Unread::Line(fault) => {
            let line = fault_text(fault);
            write_text(Wrote::FaultLine, line.as_slice(), output)
        }
        Unread::OutOfMemory => Err(WriteEnd::OutOfMemory),
    }
}
