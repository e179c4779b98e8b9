//! Frames that were sent, and the commands that they bring.
ghost use Rattle.std.specs.Prelude.{◌≡◌, ◌≢◌, ◌≤◌, ◌↔◌, ℕ, All, IfErr, IsFalse, IsOk, IsTrue, Ok, length, codes};
ghost use Rattle.bit_strings.specs.BitString.{most_counted};
ghost use Rattle.command_grammar.specs.declared.commands.Command.{Command};
ghost use Rattle.pie_line.specs.Pie.{longest_interval, FrameBeginsWith};
ghost use Rattle.air_model.specs.Channel.{lead_of};
ghost use Rattle.air_audit.specs.LineRefusals.{IsNoTxLine};
ghost use Rattle.air_audit.specs.SentFrame.{IsNoFrame, ReadsFrame, ReadsCommand};
ghost use Rattle.report_lines.specs.ReadLines.{first_field};

use crate::AuditReason;
use crate::fields::{reason_of, spells};
use bit_strings::{Bits, OutOfMemory};
use command_grammar::{Command, CommandRefusal, Framer, decode_command_to};
use pie_line::{FrameKind, Intervals, decode_frame};
use report_lines::{MOST_INTERVALS, read_tx_line};
use std::alloc::Global;
use std::marker::Model;

/// The command of the frame that was read last, with room for the intervals and the bits of any.
///
/// A contract sees the command, or why there is none.
pub(crate) struct SentFrame {
    intervals: Intervals,
    bits: Bits,
    framer: Framer,
    command: Result<Command, CommandRefusal>,
}

// Written out, so that a drop is one call in the proof of each function that owns a frame, and not one for each part.
impl Drop for SentFrame {
    fn drop(self) {
        let SentFrame {
            intervals: _,
            bits: _,
            framer: _,
            command: _,
        } = self;
    }
}

impl Model for SentFrame {
    ghost use Rattle.std.specs.Prelude.{◌≤◌, Result};
    ghost use Rattle.command_grammar.specs.declared.commands.Command.{Command};
    ghost use Rattle.command_grammar.specs.declared.refusal.CommandRefusal.{CommandRefusal};
    ghost use Rattle.report_lines.specs.ReadLines.{most_tx_intervals};

    ghost Value = { Result Command CommandRefusal };

    ghost view = { λ a. a.command };

    ghost invariant = { λ a. (most_tx_intervals ≤ a.intervals.capacity)
        × (most_tx_intervals ≤ a.bits.capacity) };
}

impl SentFrame {
    /// No frame was read yet. It takes the memory for each.
    pub(crate) fn new(alloc: Global) -> Result<SentFrame, OutOfMemory> {
        let intervals = Intervals::new(alloc, MOST_INTERVALS)?;
        let bits = Bits::new(alloc, MOST_INTERVALS)?;
        Ok(SentFrame {
            intervals,
            bits,
            framer: Framer::new(),
            command: Err(CommandRefusal::Short(0)),
        })
    }

    /// Reads a line that begins with `tx`.
    ///
    /// # Errors
    ///
    /// The first reason for which it doesn't send a command in the exchange of this number.
    pub(crate) fn read(&mut self, line: &[u8], exchange: u32) -> Result<(), AuditReason>
        requires { first_field line.now ≡ codes "tx" }
        ensures reads { IsOk result → ReadsCommand exchange line.now self.new }
        ensures refused { IfErr result (IsNoTxLine exchange line.now) }
    {
        let number = match read_tx_line(line, &mut self.intervals) {
            Ok(number) => number,
            Err(fault) => return Err(reason_of(fault)),
        };
        if !spells(number, exchange) {
            return Err(AuditReason::Exchange);
        }
        read_frame(
            &self.intervals,
            &mut self.bits,
            &mut self.framer,
            &mut self.command,
        )
    }

    /// Whether the frame that was read last brings an ACK.
    pub(crate) fn is_ack(&self) -> bool
        ensures yes { IsTrue result → (rn : ℕ) × (self.now ≡ Ok (Command.Ack rn)) }
        ensures no { IsFalse result → (rn : ℕ) → self.now ≢ Ok (Command.Ack rn) }
    {
        matches!(self.command, Ok(Command::Ack { .. }))
    }

    /// The command of the frame that was read last.
    pub(crate) fn command(&self) -> &Command
        requires { IsOk self.now }
        ensures { self.now ≡ Ok result.now }
    {
        match &self.command {
            Ok(command) => command,
            Err(_) => unreachable!(),
        }
    }
}

/// Reads the command of a frame, whose intervals are in nanoseconds, in place of another answer.
///
/// # Errors
///
/// `Frame`: the intervals are no frame, its bits are no command, or it begins otherwise than that command.
fn read_frame(
    intervals: &Intervals,
    bits: &mut Bits,
    framer: &mut Framer,
    answer: &mut Result<Command, CommandRefusal>,
) -> Result<(), AuditReason>
    requires room { length intervals.now.items ≤ bits.old.capacity }
    requires each { All (λ interval. interval ≤ longest_interval) intervals.now.items }
    requires count { length intervals.now.items ≤ most_counted }
    ensures reads { IsOk result → ReadsFrame intervals.now.items answer.new }
    ensures refused { IfErr result (IsNoFrame intervals.now.items) }
    ensures capacity { bits.new.capacity ≡ bits.old.capacity }
{
    let kind = match decode_frame(intervals, bits) {
        Ok(kind) => kind,
        Err(_) => return Err(AuditReason::Frame),
    };
    decode_command_to(bits.as_slice(), framer, answer);
    match answer {
        Ok(command) if begins_as(&kind, command) => Ok(()),
        Ok(_) => Err(AuditReason::Frame),
        Err(_) => Err(AuditReason::Frame),
    }
}

/// Whether a frame of this kind begins as that of the command does: with a preamble before a Query, and else with a
/// frame-sync (6.3.1.2.8).
fn begins_as(kind: &FrameKind, command: &Command) -> bool
    ensures { IsTrue result ↔ FrameBeginsWith kind.now (lead_of command.now) }
{
    match kind {
        FrameKind::Preamble { .. } => matches!(command, Command::Query { .. }),
        FrameKind::FrameSync { .. } => !matches!(command, Command::Query { .. }),
    }
}
