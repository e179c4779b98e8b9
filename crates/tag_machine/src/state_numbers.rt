//! The numbers that a tag holds in its state (6.3.2.4 Tag states and slot counter).
ghost use Rattle.std.specs.Prelude.{◌≡◌};
ghost use Rattle.tag_machine.specs.Hearing.{tag_value_of};
ghost use Rattle.tag_machine.specs.StateNumbers.{numbers_of};

use crate::any_tag::AnyTag;
use crate::states::{Acknowledged, Held, InReply};
use crate::tag::Tag;
use bit_strings::{QValue, Session};

/// The numbers that a tag holds in its state (6.3.2.4 Tag states and slot counter).
#[derive(Clone, Copy)]
pub enum StateNumbers {
    /// In ready, killed or without power: none.
    None,
    /// In arbitrate.
    Waiting {
        /// The session of the round.
        session: Session,
        /// Q of the round.
        q: QValue,
        /// The slot counter, of 15 bits.
        slot: u16,
    },
    /// In reply or acknowledged.
    Replied {
        /// The session of the round.
        session: Session,
        /// Q of the round.
        q: QValue,
        /// The RN16 that was sent.
        rn: u16,
    },
    /// In open or secured.
    Held(Held),
}

impl AnyTag {
    /// The numbers that the tag holds in its state.
    pub fn numbers(&self) -> StateNumbers
        ensures { result ≡ numbers_of (tag_value_of self.now).state }
    {
        match self {
            AnyTag::Ready(Tag { state: _state, .. }) => StateNumbers::None,
            AnyTag::Killed(Tag { state: _state, .. }) => StateNumbers::None,
            AnyTag::Unpowered(Tag { state: _state, .. }) => StateNumbers::None,
            AnyTag::Arbitrate(tag) => StateNumbers::Waiting {
                session: tag.state.session,
                q: tag.state.q,
                slot: tag.state.slot.get(),
            },
            AnyTag::InReply(tag) => {
                let InReply { session, q, rn } = tag.state;
                StateNumbers::Replied { session, q, rn }
            }
            AnyTag::Acknowledged(tag) => {
                let Acknowledged { session, q, rn } = tag.state;
                StateNumbers::Replied { session, q, rn }
            }
            AnyTag::Opened(tag) => StateNumbers::Held(tag.state.held),
            AnyTag::Secured(tag) => StateNumbers::Held(tag.state.held),
        }
    }
}
