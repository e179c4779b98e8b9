//! A command on its way from the interrogator to the tags: to bits, to the intervals of a frame, and to a command again.
ghost use Rattle.std.specs.Prelude.{◌≡◌, ◌+◌, ◌*◌, ◌≤◌, ◌++◌, ◌∷◌, [], Bool, List, Ok, IsOk, length};
ghost use Rattle.command_grammar.specs.Commands.{IsLegalCommand};
ghost use Rattle.command_grammar.specs.reading.Framing.{FramerStandsFor};
ghost use Rattle.pie_line.specs.Pie.{wave_of};
ghost use Rattle.air_model.specs.Channel.{lead_of, wave_for};
ghost use Rattle.air_channel.specs.BufferSizes.{IsShortFrame, room_for_frames};

use bit_strings::Bits;
use command_grammar::{Command, CommandRefusal, Framer, encode_command};
use pie_line::{Edge, Edges, FrameTaker, Intervals, Lead, Link, send_frame};
use std::marker::Model;

/// A tag's receiver. It keeps the command that it heard last.
///
/// A contract sees that command, or why what it heard is none.
#[derive(Drop)]
pub(crate) struct Receiver {
    framer: Framer,
    heard: Result<Command, CommandRefusal>,
}

impl Model for Receiver {
    ghost use Rattle.std.specs.Prelude.{Result, []};
    ghost use Rattle.command_grammar.specs.declared.commands.Command.{Command};
    ghost use Rattle.command_grammar.specs.declared.refusal.CommandRefusal.{CommandRefusal};
    ghost use Rattle.command_grammar.specs.reading.Framing.{FramerStandsFor};

    ghost Value = { Result Command CommandRefusal };

    ghost view = { λ a. a.heard };

    ghost invariant = { λ a. FramerStandsFor a.framer [] };
}

impl Receiver {
    /// A receiver that has heard nothing.
    pub(crate) fn new() -> Receiver {
        Receiver {
            framer: Framer::new(),
            heard: Err(CommandRefusal::Short(0)),
        }
    }

    /// Hears a command that is sent as a frame. Each interval is taken as it is made, and each bit as its symbol ends.
    /// `bits` is a buffer.
    pub(crate) fn hear(
        &mut self,
        link: &Link,
        command: &Command,
        bits: &mut Bits,
        frame: &mut Intervals,
    )
        requires bits_room { room_for_frames ≤ bits.old.capacity }
        requires room { room_for_frames ≤ frame.old.capacity }
        ensures wave { frame.new.items ≡ wave_for link.now command.now }
        ensures short { IsShortFrame frame.new.items }
        ensures legal { IsLegalCommand command.now }
        ensures heard { self.new ≡ Ok command.now }
        ensures capacity { frame.new.capacity ≡ frame.old.capacity }
        ensures bits_capacity { bits.new.capacity ≡ bits.old.capacity }
    {
        encode_command(command, bits);
        take_frame(&mut self.framer, link, lead_of(command), bits, frame);
        self.framer.finish_to(&mut self.heard);
    }

    /// The command that was heard last.
    pub(crate) fn command(&self) -> &Command
        requires { IsOk self.now }
        ensures { self.now ≡ Ok result.now }
    {
        match &self.heard {
            Ok(command) => command,
            Err(_) => unreachable!(),
        }
    }
}

/// Has a framer take the bits of a frame, each as its symbol is made.
fn take_frame(framer: &mut Framer, link: &Link, lead: Lead, bits: &Bits, frame: &mut Intervals)
    requires none { FramerStandsFor framer.old [] }
    requires room { 7 + 2 * length bits.now.items ≤ frame.old.capacity }
    requires few { length bits.now.items ≤ 4162 }
    ensures framed { FramerStandsFor framer.new bits.now.items }
    ensures wave { frame.new.items ≡ wave_of link.now lead bits.now.items }
    ensures short { IsShortFrame frame.new.items }
    ensures capacity { frame.new.capacity ≡ frame.old.capacity }
{
    let mut edges = Edges::new();
    let mut taking = Taking {
        edges: &mut edges,
        framer,
    };
    send_frame(link, lead, bits, frame, &mut taking);
    let _ = edges.finish();
}

/// Takes a frame, an interval or a symbol at a time.
#[derive(Drop)]
struct Taking<'a> {
    edges: &'a mut Edges,
    framer: &'a mut Framer,
}

impl<'a> FrameTaker for Taking<'a> {
    ghost use Rattle.air_channel.specs.Receiving.{HasTaken};

    ghost took = { λ first intervals now. (now.edges.ghost_name ≡ first.edges.ghost_name) × (now.framer.ghost_name ≡ first.framer.ghost_name)
        × HasTaken now.edges.now now.framer.now intervals };

    ghost count = { λ taking. taking.edges.now.count };

    #[inline(always)]
    fn take(&mut self, interval: u32) {
        if let Edge::Bit(bit) = self.edges.push(interval) {
            push_seldom(self.framer, bit);
        }
    }

    #[inline(always)]
    fn take_symbol(&mut self, high: u32, low: u32) {
        // Most symbols are those of data.
        if let Some(bit) = self.edges.push_symbol(high, low) {
            self.framer.push(bit);
            return;
        }
        self.take(high);
        self.take(low);
    }
}

/// Has a framer take one of the few bits that `Edges::push` tells. It stays a function of its own, so that what the compiler makes
/// of each interval is short.
#[inline(never)]
fn push_seldom(framer: &mut Framer, bit: bool)
    ensures { (bits : List Bool) → FramerStandsFor framer.old bits
        → FramerStandsFor framer.new (bits ++ bit ∷ []) }
{
    framer.push(bit);
}

/// With which header the frame of a command begins (6.3.1.2.8).
fn lead_of(command: &Command) -> Lead
    ensures { result ≡ lead_of command.now }
{
    match command {
        Command::Query { .. } => Lead::Preamble,
        _ => Lead::FrameSync,
    }
}
