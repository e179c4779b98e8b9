//! A judge, which hears a log entry by entry.
ghost use Rattle.std.specs.Prelude.{◌≡◌, ◌+◌, ◌<◌, ◌^◌, ◌++◌, [], ◌∷◌, List, None, Some, true, IfOk};
ghost use Rattle.command_grammar.specs.Commands.{IsLegalCommand};
ghost use Rattle.tag_memory.specs.Image.{sizes_fit, pc_fits};
ghost use Rattle.log_judge.specs.Log.{Befalls, Exchange, LogEntry, LoggedTag};
ghost use Rattle.log_judge.specs.Verdicts.{IsVerdict};
ghost use Rattle.log_judge.specs.Answers.{seen_in, verdict_in};
ghost use Rattle.log_judge.specs.JudgeStanding.{HasHeardLog, verdict_noted};

use crate::answer::Answer;
use crate::asking::AskingRooms;
use crate::known_tag::KnownTag;
use crate::shown::Shown;
use crate::verdict::Verdict;
use air_events::Event;
use bit_strings::OutOfMemory;
use command_grammar::Command;
use lock_rules::Locks;
use std::alloc::Global;
use std::marker::Model;
use std::sync::ledger::Ledger;
use tag_machine::Steps;
use tag_memory::BankImage;

/// The number of the last line before a log.
const LINES_BEFORE: u32 = 2;

/// A judge of the log of one tag. It is told of each entry in turn, and takes no memory for one. Behind each entry its verdict is that of
/// the log so far.
///
/// A contract sees the verdict, what is known of the tag, and the number of the last line: two lines stand before the log, an exchange
/// takes two, its answer the second, and an event takes one.
pub struct Judge {
    known: KnownTag,
    findings: Box<Findings>,
}

// Written out, so that a drop is one call in the proof of each function that owns a judge, and not one for each part.
impl Drop for Judge {
    fn drop(self) {
        let Judge {
            known: _,
            findings: _,
        } = self;
    }
}

/// What was found so far, and room for what is found next.
#[derive(Drop)]
struct Findings {
    verdict: Verdict,
    /// The number of the last line.
    line: u32,
    rooms: AskingRooms,
}

impl Findings {
    /// Takes down what an exchange shows, which takes two lines.
    fn note(&mut self, shown: Shown)
        requires { self.old.line < 2 ^ 31 }
        ensures verdict { verdict_in self.new.verdict
            ≡ verdict_noted (verdict_in self.old.verdict) shown self.new.line }
        ensures line { self.new.line ≡ self.old.line + 2 }
    {
        self.line += 2;
        let number = self.line;
        match shown {
            Shown::Explained => {}
            Shown::Excused(want) => {
                if matches!(self.verdict, Verdict::Yes) {
                    self.verdict = Verdict::Profile { number, want };
                }
            }
            Shown::Refused(want) => {
                if !matches!(self.verdict, Verdict::No { .. }) {
                    self.verdict = Verdict::No { number, want };
                }
            }
        }
    }
}

impl Model for Judge {
    ghost use Rattle.log_judge.specs.Answers.{verdict_in};
    ghost use Rattle.log_judge.specs.JudgeStanding.{JudgeValue};

    ghost Value = { JudgeValue };

    ghost view = { λ judge. record { verdict = verdict_in judge.findings.value.verdict; known = judge.known; line = judge.findings.value.line } };
}

impl Judge {
    /// A judge that has heard nothing of the log of a tag with this memory and these locks. The banks of the image have sizes that a tag's
    /// banks may have, and the EPC that its PC announces lies inside its bank.
    ///
    /// # Errors
    ///
    /// There was no memory.
    pub fn new(alloc: Global, image: &BankImage, locks: Locks) -> Result<Judge, OutOfMemory>
        requires sizes { sizes_fit image.now ≡ true }
        requires pc { pc_fits image.now ≡ true }
        ensures { IfOk result
            (λ judge. HasHeardLog (record { image = image.now; locks = locks }) [] judge) }
    {
        let known = KnownTag::new(alloc, image, locks)?;
        let rooms = AskingRooms::new(alloc)?;
        let findings = Findings {
            verdict: Verdict::Yes,
            line: LINES_BEFORE,
            rooms,
        };
        let findings = Box::new(alloc, findings)?;
        Ok(Judge { known, findings })
    }

    /// The tag was sent a command, and was seen to answer this.
    pub fn hear<L: Ledger>(self, command: &Command, seen: &Answer, steps: &mut Steps<L>) -> Judge
        requires legal { IsLegalCommand command.now }
        requires early { self.line < 2 ^ 31 }
        ensures heard { (tag : LoggedTag) (log : List LogEntry) → HasHeardLog tag log self
            → HasHeardLog tag (log ++ Exchange (Some command.now) (seen_in seen.now) ∷ []) result }
        ensures line { result.line ≡ self.line + 2 }
    {
        let Judge {
            known,
            mut findings,
        } = self;
        // The number in an answer is in its range.
        let _ = seen.number();
        let (known, shown) = known.hear(command, seen, &mut findings.rooms, steps);
        findings.note(shown);
        Judge { known, findings }
    }

    /// The tag was sent bits that spell no command, and was seen to answer this.
    pub fn hear_no_command(self, seen: &Answer) -> Judge
        requires early { self.line < 2 ^ 31 }
        ensures heard { (tag : LoggedTag) (log : List LogEntry) → HasHeardLog tag log self
            → HasHeardLog tag (log ++ Exchange None (seen_in seen.now) ∷ []) result }
        ensures line { result.line ≡ self.line + 2 }
    {
        let Judge {
            known,
            mut findings,
        } = self;
        // The number in an answer is in its range.
        let _ = seen.number();
        let shown = known.hear_no_command(seen);
        findings.note(shown);
        Judge { known, findings }
    }

    /// This befell the tag.
    pub fn befall(self, event: Event) -> Judge
        requires early { self.line < 2 ^ 31 }
        ensures heard { (tag : LoggedTag) (log : List LogEntry) → HasHeardLog tag log self
            → HasHeardLog tag (log ++ Befalls event ∷ []) result }
        ensures line { result.line ≡ self.line + 1 }
    {
        let Judge {
            known,
            mut findings,
        } = self;
        findings.line += 1;
        let known = known.befall(event);
        Judge { known, findings }
    }

    /// What is judged of the log that was heard: its one verdict.
    pub fn verdict(self) -> Verdict
        ensures { (tag : LoggedTag) (log : List LogEntry) → HasHeardLog tag log self
            → IsVerdict tag log (verdict_in result) }
    {
        let Judge { known: _, findings } = self;
        let findings = Box::into_inner(findings);
        findings.verdict
    }
}
