//! The words `gen SEED TAGS`: the summary of a generated scenario.
ghost use Rattle.std.specs.Prelude.{◌≡◌, ◌+◌, ◌≤◌, ℕ, List, [], ◌∷◌, ◌++◌, length};
ghost use Rattle.std.specs.Fmt.{decimal};
ghost use Rattle.top_call.specs.Job.{IsLawful};
ghost use Rattle.top_call.specs.words.Generate.{end_line, summary_text, gen_job};
ghost use Rattle.top_call.specs.StatusMeanings.{EndsSo, sink_change};
ghost use Rattle.made_runs.specs.Made.{most_made_tags};
ghost use Rattle.text_fields.specs.Lines.{line_feed};

use crate::ending::{WriteEnd, Wrote, write_text};
use air_io::Sink;
use air_world::{Summary, summarise};
use arrayvec::ArrayVec;
use itoa::Buffer;
use made_runs::{made_scenario, quiet_made_runs_list_every_tag};
use std::alloc::Global;
use text_fields::push_bytes;

/// Makes the scenario of a seed with so many tags, runs it, and writes its summary, whatever the bytes of an input.
pub fn write_summary<O: Sink>(
    alloc: Global,
    seed: u64,
    tags: u32,
    output: &mut O,
) -> Result<Wrote, WriteEnd>
    requires { tags ≤ most_made_tags }
    ensures { (bytes : List ℕ) → EndsSo (gen_job seed tags) bytes
        (sink_change O.written O.faults output.old output.new) result }
{
    let scenario = made_scenario(alloc, seed, tags)?;
    let summary = summarise(alloc, &scenario)?;
    let text = summary_text(&summary);
    write_text(Wrote::Text, text.as_slice(), output)
}

/// The text of a summary, a line a count.
fn summary_text(summary: &Summary) -> ArrayVec<u8, 144>
    ensures { result.items ≡ summary_text summary.now }
{
    let mut text = ArrayVec::new();
    push_count(&mut text, b"tags ", u64::from(summary.tags));
    push_count(&mut text, b"listed ", summary.listed);
    push_count(&mut text, b"distinct ", summary.distinct);
    push_count(&mut text, b"slots ", summary.slots);
    push_bytes(&mut text, end_line(summary.quiet));
    push_bytes(&mut text, b"done\n");
    text
}

/// Adds the line of a count to a text that has room for it.
fn push_count<const N: usize>(text: &mut ArrayVec<u8, N>, name: &[u8], count: u64)
    requires { length text.old.items + length name.now + 21 ≤ N }
    ensures bytes { text.new.items ≡ text.old.items
        ++ (name.now ++ decimal count ++ line_feed ∷ []) }
    ensures count { length text.new.items ≤ length text.old.items + length name.now + 21 }
{
    let mut digits = Buffer::new();
    push_bytes(text, name);
    push_bytes(text, digits.format(count).as_bytes());
    push_bytes(text, b"\n");
}

/// The line that says how the rounds ended: each quiet, or one by its limit.
fn end_line(quiet: bool) -> &'static [u8]
    ensures line { result.now ≡ end_line quiet ++ line_feed ∷ [] }
    ensures count { length result.now ≡ 10 }
{
    if quiet {
        b"end quiet\n"
    } else {
        b"end limit\n"
    }
}

/// A seed and a number of tags have one summary, which says that each tag was listed where it says `end quiet`.
pub fn gen_is_lawful()
    ensures { (seed tags : ℕ) → IsLawful (gen_job seed tags) }
{
    quiet_made_runs_list_every_tag();
}
