//! The word `probe`: one tag at the bench.
ghost use Rattle.std.specs.Prelude.{◌≡◌};
ghost use Rattle.top_call.specs.Job.{IsLawful};
ghost use Rattle.top_call.specs.StatusMeanings.{EndsSo, sink_change};
ghost use Rattle.top_call.specs.words.Probe.{probe_job};

use crate::ending::{WriteEnd, Wrote, write_text};
use air_io::Sink;
use bench_lines::{
    fault_text, play, probe_texts_are_not_faulty, probe_texts_have_one_fault,
    probes_are_told_apart, probes_have_one_text, read_probe,
};
use std::alloc::Global;

/// Writes what is defined for the bytes of an input: what comes of what they say, line by line, or the one line that reports the first
/// faulty line.
pub fn write_probed<O: Sink>(alloc: Global, input: &[u8], output: &mut O) -> Result<Wrote, WriteEnd>
    ensures { EndsSo probe_job input.now
        (sink_change O.written O.faults output.old output.new) result }
{
    match read_probe(input) {
        Ok(probe) => {
            play(alloc, probe, output)?;
            Ok(Wrote::Text)
        }
        Err(fault) => {
            let line = fault_text(fault);
            write_text(Wrote::FaultLine, line.as_slice(), output)
        }
    }
}

/// An input has one text or one fault line at most, and never both.
pub fn probe_is_lawful()
    ensures { IsLawful probe_job }
{
    probes_are_told_apart();
    probes_have_one_text();
    probe_texts_are_not_faulty();
    probe_texts_have_one_fault();
}
