//! What a line of a scenario says.
ghost use Rattle.std.specs.Prelude.{◌≡◌};

use crate::Version;
use crate::choice::ChoiceText;
use crate::tag::TagText;
use access_ops::Op;
use air_events::{Event, Several};
use bit_strings::{Action, Pointer};
use command_grammar::{Command, FlagName, Mask, MaskBank};
use pie_line::Link;
use q_round::RoundSpec;
use reply_grammar::EpcWords;

/// What an air line says of its exchange.
#[derive(Drop)]
pub enum Happening<'a> {
    /// Something befalls a tag before the command.
    Event {
        /// What befalls it.
        event: Event,
        /// The number of the tag.
        tag: u32,
    },
    /// The tag of this number misses the command.
    Miss(u32),
    /// What the channel gives.
    Choice(ChoiceText<'a>),
}

/// What the Select of a step names (6.3.2.11.1.1 Select).
#[derive(Drop)]
pub struct Selection {
    /// The flag.
    pub target: FlagName,
    /// What matching and other tags do with it.
    pub action: Action,
    /// The bank that has the mask.
    pub bank: MaskBank,
    /// The place of the mask's first bit in the bank, in bits.
    pub pointer: Pointer,
    /// The bits.
    pub mask: Mask,
}

impl Selection {
    /// The Select command of a scenario's select line.
    pub fn into_command(self) -> Command
        ensures { result ≡ Command.Select self.target self.action self.bank self.pointer self.mask }
    {
        let Selection {
            target,
            action,
            bank,
            pointer,
            mask,
        } = self;
        Command::Select {
            target,
            action,
            bank,
            pointer,
            mask,
        }
    }
}

/// What one line of a scenario says.
#[derive(Drop)]
pub enum Line<'a> {
    /// `gen2 1` or `gen2 2`: the text is a scenario of this version.
    Version(Version),
    /// `link TARI RTCAL TRCAL PW DR CODE TREXT`
    Link(Link),
    /// `default break` or `default capture`
    Default(Several),
    /// `tag KILL ACCESS LOCKS EPC TID USER WORDS`
    Tag(TagText<'a>),
    /// `copies N KILL ACCESS LOCKS EPC TID USER WORDS`: how many tags, and the tag of which they are copies.
    Copies(u32, TagText<'a>),
    /// `air E KIND FIELDS`
    Air {
        /// The number of the exchange, counted from 1 over the whole run.
        exchange: u32,
        /// What the line says of it.
        happening: Happening<'a>,
    },
    /// `select TARGET ACTION BANK POINTER MASK`
    Select(Selection),
    /// `nak`
    Nak,
    /// `event KIND FIELDS`
    Event {
        /// What befalls the tag.
        event: Event,
        /// The number of the tag.
        tag: u32,
    },
    /// `round SEL SESSION TARGET Q RULE LIMIT`, where the version says how the rule is spelled: version 1 has the number
    /// alone by which a slot moves Qfp, version 2 names the rule.
    Round(Version, RoundSpec),
    /// `only EPC`
    Only(EpcWords),
    /// `op KIND FIELDS`
    Op(Op),
    /// `end`
    End,
}
