//! A probe, read from its text.
ghost use Rattle.std.specs.Prelude.{◌≡◌, ◌↔◌, List, IfOk, IfErr, IsTrue};
ghost use Rattle.scenario_lines.specs.TagForm.{IsTag};
ghost use Rattle.bench_lines.specs.Stimuli.{Stimulus};
ghost use Rattle.bench_lines.specs.ProbeLine.{version_line};
ghost use Rattle.bench_lines.specs.ProbeText.{AreStimuli, IsFirstProbeFault, IsProbe};

use crate::bench_reading::read_tag_line;
use crate::stimuli::Stimuli;
use checked_lines::{FaultReason, FaultyLine};
use scenario_lines::TagText;
use text_fields::split_line;

/// One tag, and what is done to it. It borrows the text that says so, and holds no memory of its own.
#[derive(Drop)]
pub struct Probe<'a> {
    pub(crate) tag: TagText<'a>,
    pub(crate) stimuli: Stimuli<'a>,
}

/// Whether a line is the first one of a probe.
fn is_version(line: &[u8]) -> bool
    ensures { IsTrue result ↔ (line.now ≡ version_line) }
{
    line == b"probe 1".as_slice()
}

/// The probe of a text. The whole text is looked at, and no memory is taken.
///
/// # Errors
///
/// The first faulty line, counted from 1, with the first reason that applies to it.
pub fn read_probe(text: &[u8]) -> Result<Probe<'_>, FaultyLine>
    ensures ok { IfOk result
        (λ probe. (said : List Stimulus) × IsProbe text.now probe.tag said
        × AreStimuli probe.stimuli said) }
    ensures tag { IfOk result (λ probe. IsTag probe.tag) }
    ensures refused { IfErr result (λ fault. IsFirstProbeFault text.now fault.line fault.reason) }
{
    let Some((line, behind)) = split_line(text) else {
        return Err(FaultyLine {
            line: 1,
            reason: FaultReason::End,
        });
    };
    if !is_version(line) {
        return Err(FaultyLine {
            line: 1,
            reason: FaultReason::Version,
        });
    }
    let Some((line, behind)) = split_line(behind) else {
        return Err(FaultyLine {
            line: 2,
            reason: FaultReason::End,
        });
    };
    let tag = match read_tag_line(line) {
        Ok(tag) => tag,
        Err(reason) => return Err(FaultyLine { line: 2, reason }),
    };
    match Stimuli::new(behind) {
        Ok(stimuli) => Ok(Probe { tag, stimuli }),
        Err(fault) => Err(fault),
    }
}
