//! The states of a tag, each with the numbers that it holds (6.3.2.4 Tag states and slot counter).
ghost use Rattle.tag_machine.specs.States.{ready_state, arbitrate_state, reply_state, acknowledged_state, open_state, secured_state, killed_state, unpowered_state};

use bit_strings::{QValue, Session};
use tag_body::Slot;

/// The name of a state (6.3.2.4 Tag states and slot counter).
#[derive(Clone, Copy, Debug, PartialEq, Eq)]
pub enum StateName {
    /// Powered, and in no round (6.3.2.4.1 Ready state).
    Ready,
    /// In a round, and waiting for its slot (6.3.2.4.2 Arbitrate state).
    Arbitrate,
    /// An RN16 was sent, and waits to be acknowledged (6.3.2.4.3 Reply state).
    InReply,
    /// The EPC was sent (6.3.2.4.4 Acknowledged state).
    Acknowledged,
    /// Access commands may come, and the access password was not shown (6.3.2.4.5 Open state).
    Opened,
    /// Access commands may come, Lock among them (6.3.2.4.6 Secured state).
    Secured,
    /// The tag never answers again (6.3.2.4.7 Killed state).
    Killed,
    /// The tag has no power (profile).
    Unpowered,
}

/// A state of a tag.
pub trait State: Copy {
    ghost use Rattle.tag_machine.specs.TagValue.{StateValue};

    ghost value: { Self → StateValue };
}

/// Powered, and in no round (6.3.2.4.1 Ready state).
#[derive(Clone, Copy)]
pub struct Ready;

impl State for Ready {
    ghost value = { ready_state };
}

/// In a round, and waiting for its slot (6.3.2.4.2 Arbitrate state).
#[derive(Clone, Copy)]
pub struct Arbitrate {
    pub(crate) session: Session,
    pub(crate) q: QValue,
    pub(crate) slot: Slot,
}

impl State for Arbitrate {
    ghost value = { arbitrate_state };
}

/// An RN16 was sent, and the tag waits for it to be acknowledged (6.3.2.4.3 Reply state).
#[derive(Clone, Copy)]
pub struct InReply {
    pub(crate) session: Session,
    pub(crate) q: QValue,
    /// The RN16 that was sent.
    pub(crate) rn: u16,
}

/// The EPC was sent (6.3.2.4.4 Acknowledged state).
#[derive(Clone, Copy)]
pub struct Acknowledged {
    pub(crate) session: Session,
    pub(crate) q: QValue,
    /// The RN16 that was acknowledged.
    pub(crate) rn: u16,
}

impl State for InReply {
    ghost value = { reply_state };
}

impl State for Acknowledged {
    ghost value = { acknowledged_state };
}

/// What open and secured hold.
#[derive(Clone, Copy)]
pub struct Held {
    /// The session of the round.
    pub session: Session,
    /// Q of the round.
    pub q: QValue,
    /// The number that commands to this tag must carry.
    pub handle: u16,
    /// The RN16 that covers the number in the next Write, Kill or Access, where one was asked for.
    pub cover: Option<u16>,
    /// The half of a Kill or Access that is not finished.
    pub half: Option<Half>,
}

/// The first half of a password, which came with a Kill or an Access.
#[derive(Clone, Copy)]
pub struct Half {
    /// The password that it is a half of.
    pub password: Password,
    /// The half, without its cover.
    pub value: u16,
}

/// The password that a half belongs to.
#[derive(Clone, Copy, Debug, PartialEq, Eq)]
pub enum Password {
    /// The kill password (6.3.2.11.3.4 Kill).
    Kill,
    /// The access password (6.3.2.11.3.6 Access).
    Access,
}

/// Access commands may come (6.3.2.4.5 Open state).
#[derive(Clone, Copy)]
pub struct Opened {
    pub(crate) held: Held,
}

impl State for Opened {
    ghost value = { open_state };
}

/// Access commands may come, Lock among them (6.3.2.4.6 Secured state).
#[derive(Clone, Copy)]
pub struct Secured {
    pub(crate) held: Held,
}

impl State for Secured {
    ghost value = { secured_state };
}

/// The tag never answers again (6.3.2.4.7 Killed state).
#[derive(Clone, Copy)]
pub struct Killed;

impl State for Killed {
    ghost value = { killed_state };
}

/// The tag has no power (profile).
#[derive(Clone, Copy)]
pub struct Unpowered;

impl State for Unpowered {
    ghost value = { unpowered_state };
}
