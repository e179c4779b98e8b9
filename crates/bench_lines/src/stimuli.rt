//! What is done to the tag of a probe, line by line.
ghost use Rattle.std.specs.Prelude.{◌≡◌, ◌<◌, ◌+◌, ℕ, List, [], ◌∷◌, length, IfOk, IfErr, IfSome, IfNone};
ghost use Rattle.text_fields.specs.Lines.{lines_of};
ghost use Rattle.bench_lines.specs.Stimuli.{Does, Stimulus, stimulus_with};
ghost use Rattle.bench_lines.specs.ProbeLine.{IsProbeLine};
ghost use Rattle.bench_lines.specs.ProbeText.{EndProbe, IsFirstFaultBehind, SayStimuli};

use crate::bench_reading::{fault_behind, read_behind, read_probe_line};
use crate::probe_laws::line_laws;
use crate::probe_line::{SaidLine, SaidStimulus};
use checked_lines::{FaultReason, FaultyLine};
use command_grammar::Command;
use std::marker::Model;
use text_fields::split_line;

/// What is still done to the tag, as the lines say it that are left. A contract sees these lines.
#[derive(Drop)]
pub(crate) struct Stimuli<'a> {
    rest: &'a [u8],
}

impl<'a> Model for Stimuli<'a> {
    ghost use Rattle.std.specs.Prelude.{List, ℕ};
    ghost use Rattle.text_fields.specs.Lines.{lines_of};
    ghost use Rattle.bench_lines.specs.Stimuli.{Stimulus};
    ghost use Rattle.bench_lines.specs.ProbeText.{AreStimuli};

    ghost Value = { List (List ℕ) };

    ghost view = { λ a. lines_of a.rest.now };

    ghost invariant = { λ a. (said : List Stimulus) × AreStimuli (lines_of a.rest.now) said };
}

impl<'a> Stimuli<'a> {
    /// What the lines of a text say, which stands behind the line of the tag. Each line is read.
    ///
    /// # Errors
    ///
    /// The first faulty line.
    pub(crate) fn new(text: &'a [u8]) -> Result<Stimuli<'a>, FaultyLine>
        ensures ok { IfOk result (λ it. (it ≡ lines_of text.now) × EndProbe (lines_of text.now)) }
        ensures refused { IfErr result
            (λ fault. IsFirstFaultBehind (lines_of text.now) fault.line fault.reason) }
    {
        let mut command = Command::Nak;
        let mut rest = text;
        let mut count = 0;
        loop {
            let Some((line, behind)) = split_line(rest) else {
                return Err(fault_behind(count, FaultReason::End));
            };
            match read_behind(line, count, &mut command) {
                Ok(SaidLine::Stimulus(_)) => {
                    count += 1;
                    rest = behind;
                }
                Ok(SaidLine::End) => {
                    return if behind.is_empty() {
                        Ok(Stimuli { rest: text })
                    } else {
                        Err(fault_behind(count + 1, FaultReason::Extra))
                    };
                }
                Err(fault) => return Err(fault_behind(count, fault)),
            }
        }
    }

    /// What is done next; none where nothing more is. A command takes the place of another.
    pub(crate) fn next_to(&mut self, command: &mut Command) -> Option<SaidStimulus<'a>>
        ensures some { IfSome result (λ it. IsProbeLine (Does (stimulus_with it command.new))
            × ((said : List Stimulus) → SayStimuli self.old said → (left : List Stimulus)
            × (said ≡ stimulus_with it command.new ∷ left) × SayStimuli self.new left)) }
        ensures none { IfNone result
            ((said : List Stimulus) → SayStimuli self.old said → said ≡ []) }
        ensures fewer { IfSome result (λ _. length self.new < length self.old) }
    {
        // A line says one thing alone, and what says something is not faulty.
        line_laws();
        let Some((line, behind)) = split_line(self.rest) else {
            // The end is there.
            unreachable!()
        };
        match read_probe_line(line, command) {
            Ok(SaidLine::Stimulus(stimulus)) => {
                self.rest = behind;
                Some(stimulus)
            }
            Ok(SaidLine::End) => None,
            // Each line says something.
            Err(_) => unreachable!(),
        }
    }
}
