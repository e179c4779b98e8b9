//! The lines of an input that comes in pieces.
ghost use Rattle.std.specs.Prelude.{◌≡◌, ◌<◌, ◌≤◌, ◌+◌, ◌^◌, ◌++◌, ℕ, List, [], length, IfOk, IfErr, OnOk};
ghost use Rattle.std.specs.String.{string_bytes};
ghost use Rattle.text_fields.specs.Lines.{fields_of};
ghost use Rattle.decode_lines.specs.Answer.{AnswersLine};
ghost use Rattle.decode_lines.specs.Answered.{AnsweredSoFar};
ghost use Rattle.decode_lines.specs.DecodeLines.{Decodes, IsFirstDecodeFault};
ghost use Rattle.decode_lines.specs.Request.{IsFaultyToDecode};

use crate::answer::Workspace;
use bit_strings::OutOfMemory;
use checked_lines::{FaultReason, FaultyLine};
use std::alloc::Global;
use text_fields::split_line;

/// The answers to the lines of an input that comes in pieces. Each line is answered as soon as its line
/// feed comes, and nothing is kept of the lines before.
pub(crate) struct Answering {
    workspace: Workspace,
    /// The answers to the lines so far, each on a line of its own.
    text: String,
    /// What came of the next line.
    part: Vec<u8>,
    /// The number of the next line, counted from 1.
    number: u32,
    /// The first faulty line. What comes behind it is not looked at.
    fault: Option<FaultyLine>,
}

// Written out, so that a drop is one call in the proof of each function that owns it, and not one for each part.
impl Drop for Answering {
    fn drop(self) {
        let Answering {
            workspace: _,
            text: _,
            part: _,
            number: _,
            fault: _,
        } = self;
    }
}

impl Answering {
    /// The answers to an input of which nothing came yet.
    pub(crate) fn new(alloc: Global) -> Result<Answering, OutOfMemory>
        ensures stands { IfOk result
            (λ it. AnsweredSoFar it.fault [] it.part.items (string_bytes it.text) it.number) }
        ensures number { IfOk result (λ it. it.number ≡ 1) }
    {
        Ok(Answering {
            workspace: Workspace::new(alloc)?,
            text: String::new(alloc),
            part: Vec::new(alloc),
            number: 1,
            fault: None,
        })
    }

    /// Takes the next piece of the input.
    pub(crate) fn take(&mut self, piece: &[u8]) -> Result<(), OutOfMemory>
        requires { self.old.number + length piece.now < 2 ^ 32 }
        ensures stands { OnOk result ((input : List ℕ)
            → AnsweredSoFar self.old.fault input self.old.part.items
            (string_bytes self.old.text) self.old.number
            → AnsweredSoFar self.new.fault (input ++ piece.now) self.new.part.items
            (string_bytes self.new.text) self.new.number) }
        ensures number { self.new.number ≤ self.old.number + length piece.now }
    {
        if self.fault.is_some() {
            return Ok(());
        }
        let mut rest = piece;
        while let Some((end, behind)) = split_line(rest) {
            if let Err(reason) = self.end_line(end)? {
                self.fault = Some(FaultyLine {
                    line: self.number,
                    reason,
                });
                return Ok(());
            }
            self.number += 1;
            rest = behind;
        }
        self.part.extend_from_slice(rest)
    }

    /// Answers the line of which this is the end, without its line feed.
    fn end_line(&mut self, end: &[u8]) -> Result<Result<(), FaultReason>, OutOfMemory>
        ensures ok { IfOk result
            (λ answered. OnOk answered
            (AnswersLine (self.old.part.items ++ end.now) (string_bytes self.old.text)
            (string_bytes self.new.text))) }
        ensures refused { IfOk result
            (λ answered. IfErr answered
            (IsFaultyToDecode (fields_of (self.old.part.items ++ end.now)))) }
        ensures none { OnOk result (self.new.part.items ≡ []) }
        ensures number { self.new.number ≡ self.old.number }
        ensures fault { self.new.fault ≡ self.old.fault }
    {
        if self.part.is_empty() {
            return self.workspace.answer_line(end, &mut self.text);
        }
        self.part.extend_from_slice(end)?;
        let answered = self.workspace.answer_line(&self.part, &mut self.text)?;
        self.part.clear();
        Ok(answered)
    }

    /// The answers to all lines, where the input ended; or its first faulty line.
    pub(crate) fn end(self) -> Result<String, FaultyLine>
        ensures ok { IfOk result
            (λ text. (input : List ℕ)
            → AnsweredSoFar self.fault input self.part.items (string_bytes self.text) self.number
            → Decodes input (string_bytes text)) }
        ensures refused { IfErr result
            (λ fault. (input : List ℕ)
            → AnsweredSoFar self.fault input self.part.items (string_bytes self.text) self.number
            → IsFirstDecodeFault input fault) }
    {
        let Answering {
            workspace: _,
            text,
            part,
            number,
            fault,
        } = self;
        if let Some(fault) = fault {
            return Err(fault);
        }
        if part.is_empty() {
            return Ok(text);
        }
        Err(FaultyLine {
            line: number,
            reason: FaultReason::End,
        })
    }
}
