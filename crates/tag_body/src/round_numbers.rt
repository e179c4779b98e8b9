//! The numbers of a round that change while a tag waits in it: its slot counter (6.3.2.4.8 Slot counter) and Q
//! (6.3.2.11.2.2 QueryAdjust).
ghost use Rattle.std.specs.Prelude.{◌≡◌, ◌<◌, ◌^◌};
ghost use Rattle.tag_body.specs.RoundNumbers.{slot_below, q_after_adjust};

use bit_strings::QValue;
use command_fields::UpDn;
use std::marker::Model;

/// A slot counter: 15 bits (6.3.2.4.8 Slot counter). A contract sees its number.
#[derive(Clone, Copy)]
pub struct Slot {
    number: u16,
}

impl Model for Slot {
    ghost use Rattle.std.specs.Prelude.{ℕ, ◌<◌, ◌^◌};

    ghost Value = { ℕ };

    ghost view = { λ slot. slot.number };

    ghost invariant = { λ slot. slot.number < 2 ^ 15 };

    ghost inverse = { λ n. record { number = n } };
}

impl Slot {
    /// The counter with this number.
    pub fn new(number: u16) -> Slot
        requires { number < 2 ^ 15 }
        ensures { result ≡ number }
    {
        Slot { number }
    }

    /// The number of the slot counter.
    pub fn get(&self) -> u16
        ensures value { result ≡ self.now }
        ensures range { self.now < 2 ^ 15 }
    {
        self.number
    }

    /// The counter that is one less; below 0 stands 7FFFh (6.3.2.4.8 Slot counter).
    pub fn below(self) -> Slot
        ensures { result ≡ slot_below self }
    {
        let number = self.get();
        if number == 0 {
            return Slot::new(0x7FFF);
        }
        Slot::new(number - 1)
    }
}

/// Q after a QueryAdjust: it stays at 15 on up and at 0 on down.
pub fn q_after_adjust(updn: UpDn, q: QValue) -> QValue
    ensures { result ≡ q_after_adjust updn q }
{
    let number = q.get();
    let number = match updn {
        UpDn::Up => number + 1,
        UpDn::Same => number,
        UpDn::Down => number.saturating_sub(1),
    };
    QValue::new(number).unwrap_or(q)
}
