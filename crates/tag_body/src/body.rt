//! What a tag holds in every state.
ghost use Rattle.std.specs.Prelude.{◌≡◌, ◌≢◌, ◌+◌, ◌^◌, ◌==◌, ◌<◌, if◌then◌else◌, length, IfOk, IfSome, IfNone};
ghost use Rattle.session_flags.specs.Flags.{new_flags};
ghost use Rattle.tag_body.specs.Draws.{draw_of, place_behind, slot_of_draw, body_after_draw};
ghost use Rattle.tag_body.specs.BodyFlags.{selected_body};

mod access_commands;
mod flags;

use crate::round_numbers::Slot;
use bit_strings::{Action, OutOfMemory, Pointer, QValue};
use command_fields::{FlagName, Mask, MaskBank};
use lock_rules::Locks;
use session_flags::{DrawWords, Flags, mask_matches};
use std::alloc::Global;
use std::marker::Model;
use tag_memory::Memory;

/// What a tag holds in every state. A contract sees the record of its parts.
///
/// The parts stand in a box, so that a tag is small: it is moved at each change of its state.
pub struct Body {
    /// The parts.
    pub parts: Box<Parts>,
}

// Written out, so that a drop is one call in the proof of each function that owns a body, as a tag in each state does, and not one
// for each part.
impl Drop for Body {
    fn drop(self) {
        let Body { parts: _ } = self;
    }
}

/// The parts of what a tag holds in every state.
#[derive(Drop)]
pub struct Parts {
    next_draw: usize,
    /// The inventoried flags and the selected flag.
    pub flags: Flags,
    words: DrawWords,
    /// The pairs of lock bits.
    pub locks: Locks,
    /// The memory.
    pub memory: Memory,
}

impl Model for Body {
    ghost use Rattle.tag_body.specs.BodyValue.{BodyValue, IsLegalBody};

    ghost Value = { BodyValue };

    ghost view = { λ body. record { memory = body.parts.value.memory; locks = body.parts.value.locks; flags = body.parts.value.flags; words = body.parts.value.words; next_draw = body.parts.value.next_draw } };

    ghost invariant = { λ body. IsLegalBody
        (record { memory = body.parts.value.memory; locks = body.parts.value.locks; flags = body.parts.value.flags; words = body.parts.value.words; next_draw = body.parts.value.next_draw }) };
}

/// The place behind this one, among so many.
fn place_behind(place: usize, count: usize) -> usize
    requires { place < count }
    ensures value { result ≡ place_behind count place }
    ensures inside { result < count }
{
    if place + 1 == count { 0 } else { place + 1 }
}

impl Body {
    /// The body of a new tag.
    pub fn new(
        alloc: Global,
        memory: Memory,
        locks: Locks,
        words: DrawWords,
    ) -> Result<Body, OutOfMemory>
        ensures { IfOk result
            (λ body. body ≡ record {
              memory = memory;
              locks = locks;
              flags = new_flags;
              words = words;
              next_draw = 0;
            }) }
    {
        let parts = Parts {
            next_draw: 0,
            flags: Flags::new(),
            words,
            locks,
            memory,
        };
        let parts = Box::new(alloc, parts)?;
        Ok(Body { parts })
    }

    /// The word that the next draw gives.
    fn next_word(&self) -> u16
        ensures { result ≡ draw_of self.now }
    {
        self.parts.words.words()[self.parts.next_draw]
    }

    /// Draws a word (6.3.2.5 Tag random or pseudo-random number generator).
    pub fn draw(&mut self) -> u16
        ensures word { result ≡ draw_of self.old }
        ensures after { self.new ≡ body_after_draw self.old }
    {
        let word = self.next_word();
        let parts = &mut *self.parts;
        parts.next_draw = place_behind(parts.next_draw, parts.words.words().len());
        word
    }

    /// Draws a slot, the last Q bits of a word (6.3.2.4.8 Slot counter), unless it is 0: then there is none, and no word is drawn.
    pub fn draw_slot(&mut self, q: QValue) -> Option<Slot>
        ensures some { IfSome result
            (λ slot. (slot ≡ slot_of_draw q self.old) × (slot ≢ 0)
            × (self.new ≡ body_after_draw self.old)) }
        ensures none { IfNone result
            ((slot_of_draw q self.old ≡ 0) × (self.new ≡ self.old)) }
    {
        let number = self.next_word() % (1 << q.get());
        if number == 0 {
            return None;
        }
        self.draw();
        Some(Slot::new(number))
    }

    /// Draws these words from now on, the first of them next. There are as many as before.
    pub fn give_words(&mut self, words: &[u16])
        requires { length words.now ≡ length self.old.words }
        ensures { self.new ≡ record self.old { words = words.now; next_draw = 0 } }
    {
        let parts = &mut *self.parts;
        parts.words.replace(words);
        parts.next_draw = 0;
    }

    /// The words that are drawn.
    pub fn words(&self) -> &[u16]
        ensures { result.now ≡ self.now.words }
    {
        self.parts.words.words()
    }

    /// Lets a Select change its flag.
    pub fn select(
        &mut self,
        target: FlagName,
        action: Action,
        bank: MaskBank,
        pointer: Pointer,
        mask: &Mask,
    )
        ensures { self.new ≡ selected_body target action bank pointer mask.now self.old }
    {
        let matching = mask_matches(self.parts.memory.words(bank), pointer, mask);
        self.parts.flags.select(target, action, matching);
    }
}
