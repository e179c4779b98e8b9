//! The faults of lines.
ghost use Rattle.std.specs.Prelude.{◌≡◌, ◌≤◌, length};
ghost use Rattle.checked_lines.specs.FaultWords.{reason_word};
ghost use Rattle.text_fields.specs.FaultLine.{fault_line};

use arrayvec::ArrayVec;
use bit_strings::OutOfMemory;
use text_fields::{FieldsFault, fault_line};
use thiserror::Error;

/// Why a line of a text is refused. Which of these a text gives, and in which order it looks for them, its rules say.
#[derive(Clone, Copy, Debug, PartialEq, Eq, Error)]
pub enum FaultReason {
    /// Bytes stand behind the last line.
    #[error("bytes stand behind the last line")]
    Extra,
    /// A line is needed and there is none, or the line has no line feed.
    #[error("a line is needed, or the line has no line feed")]
    End,
    /// Line 1 doesn't name the text and its version.
    #[error("line 1 does not name the text and its version")]
    Version,
    /// The first field may not stand here, or no line of this text begins with it; or a field behind it, which has to be the name of something, is
    /// there and is the name of none.
    #[error("no line of this text begins so here, or a field is there and is no name")]
    Word,
    /// It stands where another line has to stand, or behind one that it has to stand before.
    #[error("another line has to stand here, or stands before it")]
    Order,
    /// It is one line too many.
    #[error("it is one too many")]
    Limit,
    /// The number of fields is wrong, or a field is empty.
    #[error("the number of fields is wrong, or a field is empty")]
    Shape,
    /// A field isn't of its form, range or length.
    #[error("a field is not of its form, range or length")]
    Number,
    /// The Tari of the link is out of its range (6.3.1.2.4 of the standard).
    #[error("the Tari of the link is out of its range")]
    Tari,
    /// The RTcal of the link is out of its range (6.3.1.2.8).
    #[error("the RTcal of the link is out of its range")]
    RtCal,
    /// The TRcal of the link is out of its range (6.3.1.2.8).
    #[error("the TRcal of the link is out of its range")]
    TrCal,
    /// The PW of the link is out of its range (Table 6.5).
    #[error("the PW of the link is out of its range")]
    Pw,
    /// The EPC that the PC of the tag announces passes its bank (6.3.2.1.2.2).
    #[error("the EPC that the PC announces passes its bank")]
    Pc,
    /// The copies of a tag have no EPC to differ in, or there are too many of them.
    #[error("the copies have no EPC to differ in, or there are too many of them")]
    Copies,
    /// There is no tag of the number that is named.
    #[error("there is no tag of this number")]
    Tag,
    /// It is a second choice for its exchange.
    #[error("it is a second choice for its exchange")]
    Twice,
}

impl From<FieldsFault> for FaultReason {
    ghost use Rattle.std.specs.Prelude.{◌≡◌};
    ghost use Rattle.checked_lines.specs.FaultWords.{reason_of};

    ghost from_gives = { λ fault reason. reason ≡ reason_of fault };

    fn from(fault: FieldsFault) -> FaultReason {
        match fault {
            FieldsFault::Word => FaultReason::Word,
            FieldsFault::Shape => FaultReason::Shape,
            FieldsFault::Number => FaultReason::Number,
        }
    }
}

/// The first faulty line of an input.
#[derive(Clone, Copy, Debug, PartialEq, Eq, Error)]
#[error("line {line}: {reason}")]
pub struct FaultyLine {
    /// Its number, counted from 1.
    pub line: u32,
    /// The first reason that applies to it.
    pub reason: FaultReason,
}

/// Why nothing is read of a text.
#[derive(Clone, Copy, Debug, PartialEq, Eq, Error)]
pub enum Unread {
    /// This is its first faulty line.
    #[error("{0}")]
    Line(FaultyLine),
    /// There was no memory.
    #[error("there was no memory")]
    OutOfMemory,
}

impl From<FaultyLine> for Unread {
    ghost use Rattle.std.specs.Prelude.{◌≡◌};
    ghost use Rattle.checked_lines.specs.declared.fault.Unread.TheVariants.{Line};

    ghost from_gives = { λ fault unread. unread ≡ Line fault };

    fn from(fault: FaultyLine) -> Unread {
        Unread::Line(fault)
    }
}

impl From<OutOfMemory> for Unread {
    ghost use Rattle.std.specs.Prelude.{◌≡◌};
    ghost use Rattle.checked_lines.specs.declared.fault.Unread.TheVariants.{OutOfMemory};

    ghost from_gives = { λ _ unread. unread ≡ OutOfMemory };

    fn from(_none: OutOfMemory) -> Unread {
        Unread::OutOfMemory
    }
}

/// No line is read further than this one, for this reason.
pub fn unread_at(line: u32, reason: FaultReason) -> Unread
    ensures { result ≡ Unread.Line (record { line = line; reason = reason }) }
{
    Unread::Line(FaultyLine { line, reason })
}

/// The line that reports a fault. It takes no memory.
pub fn fault_text(fault: FaultyLine) -> ArrayVec<u8, 32>
    ensures { result.items ≡ fault_line fault.line (reason_word fault.reason) }
{
    fault_line(fault.line, reason_word(fault.reason))
}

/// The word by which a fault line names this reason, of 14 bytes at most.
fn reason_word(reason: FaultReason) -> &'static str
    ensures word { result.now ≡ reason_word reason }
    ensures short { length result.now ≤ 14 }
{
    match reason {
        FaultReason::Extra => "extra",
        FaultReason::End => "end",
        FaultReason::Version => "version",
        FaultReason::Word => "word",
        FaultReason::Order => "order",
        FaultReason::Limit => "limit",
        FaultReason::Shape => "shape",
        FaultReason::Number => "number",
        FaultReason::Tari => "tari",
        FaultReason::RtCal => "rtcal",
        FaultReason::TrCal => "trcal",
        FaultReason::Pw => "pw",
        FaultReason::Pc => "pc",
        FaultReason::Copies => "copies",
        FaultReason::Tag => "tag",
        FaultReason::Twice => "twice",
    }
}
