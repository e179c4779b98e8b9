//! The line of the tag that a log is of.
ghost use Rattle.std.specs.Prelude.{IfErr, IfOk};
ghost use Rattle.bench_lines.specs.ProbeLine.{SpellsTag};
ghost use Rattle.text_fields.specs.Lines.{fields_of};
ghost use Rattle.bench_lines.specs.Judged.{IsNoTagFor};
ghost use Rattle.bench_lines.specs.LogText.{with_word};

use crate::bench_reading::read_tag_line;
use checked_lines::{Unread, unread_at};
use scenario_lines::TagSpec;
use std::alloc::Global;

/// The tag that the second line says, which is given without its line feed. It is the line of a tag in a probe, but for the words that the
/// tag draws, which nobody knows: it is read with one word in their place.
///
/// # Errors
///
/// - `Line`: the first reason for which it says none.
/// - `OutOfMemory`: there was no memory.
pub(crate) fn read_logged_tag(alloc: Global, line: &[u8]) -> Result<TagSpec, Unread>
    ensures ok { IfOk result (λ tag. SpellsTag (with_word (fields_of line.now)) tag) }
    ensures refused { IfErr result (IsNoTagFor (fields_of line.now)) }
{
    let mut whole = line.to_vec(alloc)?;
    whole.extend_from_slice(b" 0000")?;
    match read_tag_line(whole.as_slice()) {
        Ok(tag) => Ok(tag.to_spec(alloc)?),
        Err(reason) => Err(unread_at(2, reason)),
    }
}
