//! The words `--help` and `--version`: what the program says of itself.
ghost use Rattle.std.specs.Prelude.{◌≡◌, ℕ, List};
ghost use Rattle.top_call.specs.Job.{IsLawful};
ghost use Rattle.top_call.specs.StatusMeanings.{EndsSo, sink_change};
ghost use Rattle.top_call.specs.words.OwnTexts.{text_job};

use crate::ending::{WriteEnd, Wrote, write_text};
use air_io::Sink;

/// Writes a text of the program's own, whatever the bytes of an input. No memory is taken.
pub fn write_own_text<O: Sink>(text: &[u8], output: &mut O) -> Result<Wrote, WriteEnd>
    ensures { (bytes : List ℕ) → EndsSo (text_job text.now) bytes
        (sink_change O.written O.faults output.old output.new) result }
{
    write_text(Wrote::Text, text, output)
}

/// A text of the program's own is one text, and nothing is refused.
pub fn own_texts_are_lawful()
    ensures { (text : List ℕ) → IsLawful (text_job text) }
{}
