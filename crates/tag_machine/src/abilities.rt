//! Which states hear which commands. A command that a state doesn't hear is no call of a tag in it.
ghost use Rattle.std.specs.Prelude.{◌≡◌, ◌+◌, true, refl};
ghost use Rattle.tag_machine.specs.Hearing.{tag_value_of};

use crate::any_tag::AnyTag;
use crate::states::{Acknowledged, Arbitrate, InReply, Opened, Ready, Secured, State};
use crate::step_counter::Steps;
use crate::tag::Tag;
use std::sync::ledger::Ledger;
use tag_body::Body;

/// A state that hears Query and Select: each but killed and without power.
pub trait Present: State {
    ghost use Rattle.tag_machine.specs.Hearing.{tag_value_of};

    /// The tag in this state.
    fn tag(self, body: Body) -> AnyTag
        ensures { tag_value_of result ≡ record { state = Self.value self; body = body } };
}

/// A state in which a tag takes part in a round, and hears QueryRep, QueryAdjust and NAK.
pub trait InRound: Present {}

/// A state in which a tag's slot has come, and it hears ACK and Req_RN: reply, acknowledged, open and secured.
pub trait InTurn: InRound {
    ghost use Rattle.tag_machine.specs.Slots.{is_beyond_arbitrate};

    ghost in_turn: { (state : Self) → is_beyond_arbitrate (Self.value state) ≡ true };
}

/// A state with a handle, in which a tag hears the access commands: open or secured.
pub trait WithHandle: InTurn {}

impl<S: Present> Tag<S> {
    /// This tag as one in any state, with the one step counted that it takes to hear a command.
    pub(crate) fn one_step<L: Ledger>(self, steps: &mut Steps<L>) -> AnyTag
        ensures tag { tag_value_of result ≡ self }
        ensures counted { steps.new ≡ steps.old + 1 }
    {
        steps.tick();
        let Tag { state, body } = self;
        state.tag(body)
    }
}

impl Present for Ready {
    fn tag(self, body: Body) -> AnyTag {
        AnyTag::Ready(Tag { state: self, body })
    }
}

impl Present for Arbitrate {
    fn tag(self, body: Body) -> AnyTag {
        AnyTag::Arbitrate(Tag { state: self, body })
    }
}

impl Present for InReply {
    fn tag(self, body: Body) -> AnyTag {
        AnyTag::InReply(Tag { state: self, body })
    }
}

impl Present for Acknowledged {
    fn tag(self, body: Body) -> AnyTag {
        AnyTag::Acknowledged(Tag { state: self, body })
    }
}

impl Present for Opened {
    fn tag(self, body: Body) -> AnyTag {
        AnyTag::Opened(Tag { state: self, body })
    }
}

impl Present for Secured {
    fn tag(self, body: Body) -> AnyTag {
        AnyTag::Secured(Tag { state: self, body })
    }
}

impl InRound for Arbitrate {}

impl InRound for InReply {}

impl InRound for Acknowledged {}

impl InRound for Opened {}

impl InRound for Secured {}

impl InTurn for InReply {
    ghost in_turn = { λ state. refl };
}

impl InTurn for Acknowledged {
    ghost in_turn = { λ state. refl };
}

impl InTurn for Opened {
    ghost in_turn = { λ state. refl };
}

impl InTurn for Secured {
    ghost in_turn = { λ state. refl };
}

impl WithHandle for Opened {}

impl WithHandle for Secured {}
