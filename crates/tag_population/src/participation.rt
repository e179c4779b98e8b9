//! Which tags wait for their slots, and which are called.
ghost use Rattle.std.specs.Prelude.{◌≡◌, ℕ, ◌<◌, ◌≤◌, Some, None, length, map, replicate, slice_set, IfOk};
ghost use Rattle.std.specs.Option.{is_some};
ghost use Rattle.air_events.specs.TagNumbers.{most_tags};
ghost use Rattle.tag_population.specs.Participation.{AreSlots, IsDue, IsLegalParticipation, IsNextCalled, counted_down, waiting_slot, slot_place, participation_at, waits_in};

use crate::tag_set::TagSet;
use crate::wheel::Wheel;
use air_events::TagNumber;
use bit_strings::{OutOfMemory, Session};
use std::alloc::Global;
use std::marker::Model;

/// How many values a slot counter has: 15 bits (6.3.2.4.8 Slot counter).
const SLOTS: usize = 32_768;

/// How a tag takes part in a round.
#[derive(Clone, Copy)]
pub(crate) enum Participation {
    /// It waits in a round of the session with this number, and has this slot counter.
    Waits(u8, u16),
    /// It is called: it has to hear the next command.
    Called,
}

/// Tags, of which some wait for their slots and some are called. All waiting tags of a session are
/// counted down at once: each stands at the place that its slot counter has behind the base of the session, and
/// the base moves. Called tags stand nowhere, and are kept as a set, since they hear in the order of their numbers.
///
/// A contract sees for each tag how it takes part.
#[derive(Drop)]
pub(crate) struct Waiting {
    bases: [u16; 4],
    wheel: Wheel,
    called: TagSet,
}

impl Model for Waiting {
    ghost use Rattle.std.specs.Prelude.{List, Option};
    ghost use Rattle.tag_population.specs.declared.participation.Participation.{Participation};
    ghost use Rattle.tag_population.specs.Participation.{AreBases, AreCalled, participations_on};

    ghost Value = { List (Option Participation) };

    ghost view = { λ a. participations_on a.bases a.called a.wheel };

    ghost invariant = { λ a. AreBases a.bases × AreCalled a.called a.wheel };
}

impl Waiting {
    /// So many tags, none of which takes part.
    pub(crate) fn new(alloc: Global, count: usize) -> Result<Waiting, OutOfMemory>
        requires { count ≤ most_tags }
        ensures { IfOk result (λ waiting. waiting ≡ replicate count None) }
    {
        let wheel = Wheel::new(alloc, count)?;
        let called = TagSet::new(alloc)?;
        Ok(Waiting {
            bases: [0; 4],
            wheel,
            called,
        })
    }

    /// The slot counter of the tag with this number, if it waits for its slot.
    pub(crate) fn slot(&self, number: TagNumber) -> Option<u16>
        requires { number < length self.now }
        ensures value { result ≡ waiting_slot (participation_at self.now number) }
        ensures range { (slot : ℕ) → result ≡ Some slot → slot < 32768 }
    {
        let place = self.wheel.place(number)?;
        let base = usize::from(self.bases[place / SLOTS]);
        Some(((place % SLOTS + SLOTS - base) % SLOTS) as u16)
    }

    /// Whether the tag with this number waits for its slot in a round of this session.
    pub(crate) fn waits_in(&self, number: TagNumber, session: Session) -> bool
        requires { number < length self.now }
        ensures { result ≡ waits_in session (participation_at self.now number) }
    {
        match self.wheel.place(number) {
            Some(place) => place / SLOTS == usize::from(session.get()),
            None => false,
        }
    }

    /// Whether the tag with this number takes part in a round: whether it waits for its slot or is called.
    pub(crate) fn takes_part(&self, number: TagNumber) -> bool
        requires { number < length self.now }
        ensures { result ≡ is_some (participation_at self.now number) }
    {
        self.wheel.place(number).is_some() || self.called.contains(number)
    }

    /// Lets a tag take part as is said.
    #[inline(always)]
    pub(crate) fn put(&mut self, number: TagNumber, participation: Option<Participation>)
        requires number { number < length self.old }
        requires legal { IsLegalParticipation participation }
        ensures participations { self.new ≡ slice_set self.old number participation }
        ensures slots { AreSlots self.new }
    {
        match participation {
            Some(Participation::Waits(session, slot)) => {
                self.release(number);
                let base = self.bases[usize::from(session)];
                self.wheel.put(number, slot_place(base, session, slot));
            }
            Some(Participation::Called) => {
                self.wheel.take(number);
                self.called.insert(number);
            }
            None => self.release(number),
        }
    }

    /// Lets a tag take no part.
    #[inline(always)]
    fn release(&mut self, number: TagNumber)
        requires { number < length self.old }
        ensures part { self.new ≡ slice_set self.old number None }
        ensures slots { AreSlots self.new }
    {
        // No tag that stood on a place is called.
        if !self.wheel.take(number) {
            self.called.remove(number);
        }
    }

    /// The first of the tags that are called whose number is this one or above.
    pub(crate) fn next_called(&self, from: usize) -> Option<TagNumber>
        requires { from ≤ length self.now }
        ensures { IsNextCalled self.now from result }
    {
        self.called.next(from)
    }

    /// A tag that waits with slot counter 1 in this session; none exactly where no tag does.
    pub(crate) fn due(&self, session: Session) -> Option<TagNumber>
        ensures { IsDue self.now session result }
    {
        let session = session.get();
        let base = self.bases[usize::from(session)];
        self.wheel.tag_on(slot_place(base, session, 1))
    }

    /// Counts down the slot counters of all tags that wait in this session at once: moves the base of the session.
    pub(crate) fn count_down(&mut self, session: Session)
        ensures counted { self.new ≡ map (counted_down session) self.old }
        ensures slots { AreSlots self.new }
    {
        let at = usize::from(session.get());
        self.bases[at] = ((usize::from(self.bases[at]) + 1) % SLOTS) as u16;
    }
}

/// The place of the tags that wait with this slot counter, counted from the base of their session.
fn slot_place(base: u16, session: u8, slot: u16) -> usize
    requires session { session ≤ 3 }
    ensures { result ≡ slot_place base session slot }
{
    usize::from(session) * SLOTS + (usize::from(base) + usize::from(slot)) % SLOTS
}
