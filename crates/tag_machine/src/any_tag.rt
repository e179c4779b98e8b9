//! A tag in any state, and what it gives when it heard a command.
ghost use Rattle.std.specs.Prelude.{◌≡◌, length, true, IfOk};
ghost use Rattle.tag_machine.specs.TagValue.{is_present, IsLegalTag};
ghost use Rattle.tag_machine.specs.Events.{new_tag, tag_of_image};
ghost use Rattle.tag_machine.specs.StateNames.{name_of};
ghost use Rattle.tag_machine.specs.Hearing.{tag_value_of, typed_name_of};
ghost use Rattle.tag_memory.specs.Image.{pc_fits, sizes_fit};

use crate::states::{
    Acknowledged, Arbitrate, InReply, Killed, Opened, Ready, Secured, StateName, Unpowered,
};
use crate::tag::Tag;
use bit_strings::OutOfMemory;
use lock_rules::Locks;
use session_flags::{DrawWords, Flags};
use std::alloc::{AllocError, Global};
use tag_body::Body;
use tag_memory::{BankImage, ImageRefusal, Memory};

/// A tag in any state.
#[derive(Drop)]
pub enum AnyTag {
    /// In ready.
    Ready(Tag<Ready>),
    /// In arbitrate.
    Arbitrate(Tag<Arbitrate>),
    /// In reply.
    InReply(Tag<InReply>),
    /// In acknowledged.
    Acknowledged(Tag<Acknowledged>),
    /// In open.
    Opened(Tag<Opened>),
    /// In secured.
    Secured(Tag<Secured>),
    /// Killed.
    Killed(Tag<Killed>),
    /// Without power.
    Unpowered(Tag<Unpowered>),
}

/// Whether a tag answered a command.
#[derive(Clone, Copy, Debug, PartialEq, Eq)]
pub enum Answered {
    /// It sent nothing.
    Silent,
    /// It sent a reply whose preamble goes by the TRext of the Query.
    Plain,
    /// It sent a reply with the extended preamble.
    Extended,
}

/// What a tag gives when it heard a command.
#[derive(Drop)]
pub struct Heard {
    /// The tag after the command.
    pub tag: AnyTag,
    /// Whether it answered.
    pub answered: Answered,
}

impl AnyTag {
    /// A new tag: powered, in ready, with the flags of a new tag and no draw made.
    pub fn new(
        alloc: Global,
        memory: Memory,
        locks: Locks,
        words: DrawWords,
    ) -> Result<AnyTag, OutOfMemory>
        ensures { IfOk result (λ tag. tag_value_of tag ≡ new_tag memory locks words) }
    {
        let body = Body::new(alloc, memory, locks, words)?;
        Ok(AnyTag::Ready(Tag { state: Ready, body }))
    }

    /// A new tag whose memory is made of an image, with StoredCRC computed. The banks of the image have sizes that a tag's
    /// banks may have, and the EPC that its PC announces lies inside its bank.
    pub fn of_image(
        alloc: Global,
        image: &BankImage,
        locks: Locks,
        words: DrawWords,
    ) -> Result<AnyTag, OutOfMemory>
        requires sizes { sizes_fit image.now ≡ true }
        requires pc { pc_fits image.now ≡ true }
        ensures { IfOk result (λ tag. tag_value_of tag ≡ tag_of_image image.now locks words) }
    {
        match Memory::new(alloc, image) {
            Ok(memory) => AnyTag::new(alloc, memory, locks, words),
            Err(ImageRefusal::OutOfMemory) => Err(AllocError),
            // The sizes and the PC are right.
            Err(ImageRefusal::Size | ImageRefusal::Pc) => unreachable!(),
        }
    }

    /// The name of the tag's state, which is that of its type.
    pub fn state(&self) -> StateName
        ensures value { result ≡ name_of (tag_value_of self.now).state }
        ensures typed { result ≡ typed_name_of self.now }
        ensures legal { IsLegalTag (tag_value_of self.now) }
    {
        match self {
            AnyTag::Ready(Tag { state: _state, .. }) => StateName::Ready,
            AnyTag::Arbitrate(Tag { state: _state, .. }) => StateName::Arbitrate,
            AnyTag::InReply(Tag { state: _state, .. }) => StateName::InReply,
            AnyTag::Acknowledged(Tag { state: _state, .. }) => StateName::Acknowledged,
            AnyTag::Opened(Tag { state: _state, .. }) => StateName::Opened,
            AnyTag::Secured(Tag { state: _state, .. }) => StateName::Secured,
            AnyTag::Killed(Tag { state: _state, .. }) => StateName::Killed,
            AnyTag::Unpowered(Tag { state: _state, .. }) => StateName::Unpowered,
        }
    }

    /// Whether the tag has power and isn't killed.
    pub fn present(&self) -> bool
        ensures value { result ≡ is_present (tag_value_of self.now).state }
        ensures legal { IsLegalTag (tag_value_of self.now) }
    {
        !matches!(self.state(), StateName::Killed | StateName::Unpowered)
    }

    /// What the tag holds in every state.
    fn body(&self) -> &Body
        ensures { result.now ≡ (tag_value_of self.now).body }
    {
        match self {
            AnyTag::Ready(tag) => &tag.body,
            AnyTag::Arbitrate(tag) => &tag.body,
            AnyTag::InReply(tag) => &tag.body,
            AnyTag::Acknowledged(tag) => &tag.body,
            AnyTag::Opened(tag) => &tag.body,
            AnyTag::Secured(tag) => &tag.body,
            AnyTag::Killed(tag) => &tag.body,
            AnyTag::Unpowered(tag) => &tag.body,
        }
    }

    /// The inventoried flags and the selected flag.
    pub fn flags(&self) -> &Flags
        ensures { result.now ≡ (tag_value_of self.now).body.flags }
    {
        let body = self.body();
        &body.parts.flags
    }

    /// The pairs of lock bits.
    pub fn locks(&self) -> &Locks
        ensures { result.now ≡ (tag_value_of self.now).body.locks }
    {
        let body = self.body();
        &body.parts.locks
    }

    /// Lets the tag draw these words from now on, the first of them next, where a test bench knows what it draws. There are as many as
    /// before, so that no memory is taken.
    pub fn give_words(&mut self, words: &[u16])
        requires { length words.now ≡ length (tag_value_of self.old).body.words }
        ensures { tag_value_of self.new
            ≡ record {
              state = (tag_value_of self.old).state;
              body = record
                  (tag_value_of self.old).body { words = words.now; next_draw = 0 };
            } }
    {
        match self {
            AnyTag::Ready(tag) => tag.body.give_words(words),
            AnyTag::Arbitrate(tag) => tag.body.give_words(words),
            AnyTag::InReply(tag) => tag.body.give_words(words),
            AnyTag::Acknowledged(tag) => tag.body.give_words(words),
            AnyTag::Opened(tag) => tag.body.give_words(words),
            AnyTag::Secured(tag) => tag.body.give_words(words),
            AnyTag::Killed(tag) => tag.body.give_words(words),
            AnyTag::Unpowered(tag) => tag.body.give_words(words),
        }
    }

    /// The words that the tag draws.
    pub fn words(&self) -> &[u16]
        ensures { result.now ≡ (tag_value_of self.now).body.words }
    {
        let body = self.body();
        body.words()
    }

    /// The memory of the tag.
    pub fn memory(&self) -> &Memory
        ensures { result.now ≡ (tag_value_of self.now).body.memory }
    {
        let body = self.body();
        &body.parts.memory
    }
}
