//! The slot counter of a tag in arbitrate (6.3.2.4.8 Slot counter).
ghost use Rattle.std.specs.Prelude.{◌≡◌, ◌+◌, ◌<◌, ◌^◌, ℕ};
ghost use Rattle.tag_machine.specs.TagValue.{ArbitrateState};

use crate::states::Arbitrate;
use crate::step_counter::Steps;
use crate::tag::Tag;
use bit_strings::Session;
use std::sync::ledger::Ledger;
use tag_body::Slot;

impl Tag<Arbitrate> {
    /// The session of the round that the tag takes part in.
    pub fn session(&self) -> Session
        ensures { (q : ℕ) × (slot : ℕ) × (self.now.state ≡ ArbitrateState result q slot) }
    {
        self.state.session
    }

    /// The slot counter of the tag in arbitrate.
    pub fn slot(&self) -> u16
        ensures value { (session : ℕ) × (q : ℕ)
            × (self.now.state ≡ ArbitrateState session q result) }
        ensures range { result < 2 ^ 15 }
    {
        self.state.slot.get()
    }

    /// Changes the slot counter, and nothing else.
    pub fn set_slot<L: Ledger>(&mut self, slot: u16, steps: &mut Steps<L>)
        requires { slot < 32768 }
        ensures changed { (session : ℕ) × (q : ℕ) × (old : ℕ)
            × (self.old.state ≡ ArbitrateState session q old)
            × (self.new ≡ record self.old { state = ArbitrateState session q slot }) }
        ensures counted { steps.new ≡ steps.old + 1 }
    {
        steps.tick();
        self.state.slot = Slot::new(slot);
    }
}
