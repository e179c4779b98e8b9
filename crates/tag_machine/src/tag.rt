//! A tag whose state is known.

use crate::states::State;
use std::marker::Model;
use tag_body::Body;

/// A tag in the state `S`. A contract sees the state with its numbers, each in its range, and what a tag holds in every state.
#[derive(Drop)]
pub struct Tag<S: State> {
    pub(crate) state: S,
    pub(crate) body: Body,
}

impl<S: State> Model for Tag<S> {
    ghost use Rattle.tag_machine.specs.TagValue.{TagValue, IsLegalTag};

    ghost Value = { TagValue };

    ghost view = { λ tag. record { state = S.value tag.state; body = tag.body } };

    ghost invariant = { λ tag. IsLegalTag (record { state = S.value tag.state; body = tag.body }) };
}
