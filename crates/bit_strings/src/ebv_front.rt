//! Extensible bit vectors, one bit at a time.
ghost use Rattle.std.specs.Prelude.{◌≡◌, ◌+◌, ◌%◌, ◌++◌, ◌∷◌, [], ℕ, List, Bool, length};
ghost use Rattle.bit_strings.specs.NumbersInBits.{value_of};
ghost use Rattle.bit_strings.specs.Ebv.{IsEbv, IsCutEbv};
ghost use Rattle.bit_strings.specs.EbvAnswers.{IsEbvStep};
ghost use Rattle.bit_strings.specs.declared.ebv_front.EbvStep.{EbvStep};

use std::marker::Model;

/// The first block 10000000, which says only that another follows: no vector begins with it.
const NOTHING: u32 = 0b1000_0000;

/// The bits of an extensible bit vector (Annex A) that came so far, without its last one.
///
/// A contract sees it as the list of these bits.
#[derive(Clone, Copy, Debug)]
pub struct EbvFront {
    /// The number that the bits are.
    bits: u32,
    /// How many they are.
    count: u32,
}

impl Model for EbvFront {
    ghost use Rattle.std.specs.Prelude.{◌^◌, ◌<◌, Bool, List, length};
    ghost use Rattle.bit_strings.specs.NumbersInBits.{value_of, field_of};
    ghost use Rattle.bit_strings.specs.Ebv.{IsCutEbv};
    ghost use Rattle.bit_strings.specs.laws.NumbersInBits.{value_and_width};

    ghost Value = { List Bool };

    ghost view = { λ a. field_of a.bits a.count };

    ghost invariant = { λ a. (a.bits < 2 ^ a.count) × IsCutEbv (field_of a.bits a.count) };

    ghost inverse = { λ l. record { bits = value_of l; count = length l } };

    ghost inverse_ok = { λ a h. value_and_width (λ bits count. record { bits = bits; count = count }) a.bits a.count h.0 };
}

/// What one bit more makes of the bits of an extensible bit vector.
#[derive(Clone, Copy, Debug)]
pub enum EbvStep {
    /// More bits are to come.
    More(EbvFront),
    /// The vector is whole: it is that of this number, below `2^28`.
    Value(u32),
    /// The first block is 10000000, so a shorter spelling exists.
    NotShortest,
    /// Four blocks are begun and each says that another follows.
    TooLong,
}

impl EbvFront {
    /// An extensible bit vector of which no bit came yet.
    pub fn new() -> EbvFront
        ensures none { result ≡ [] }
        ensures begun { IsCutEbv result }
    {
        EbvFront { bits: 0, count: 0 }
    }

    /// What one bit more makes of it.
    pub fn take(self, bit: bool) -> EbvStep
        ensures answer { IsEbvStep result (self ++ bit ∷ []) }
        ensures begun { IsCutEbv self }
        ensures only { (other : EbvStep) → IsEbvStep other (self ++ bit ∷ []) → result ≡ other }
    {
        let place = self.count % 8;
        if place == 0 {
            return self.begin_block(bit);
        }
        if place == 7 {
            return self.end_block(bit);
        }
        EbvStep::More(self.with(bit))
    }

    /// The bits with one more behind them.
    fn with(self, bit: bool) -> EbvFront
        requires { IsCutEbv (self ++ bit ∷ []) }
        ensures pushed { result ≡ self ++ bit ∷ [] }
        ensures begun { IsCutEbv result }
    {
        EbvFront {
            bits: 2 * self.bits + u32::from(bit),
            count: self.count + 1,
        }
    }

    /// The extension bit of a block.
    fn begin_block(self, bit: bool) -> EbvStep
        requires { length self % 8 ≡ 0 }
        ensures { IsEbvStep result (self ++ bit ∷ []) }
    {
        if bit && self.count == 24 {
            return EbvStep::TooLong;
        }
        EbvStep::More(self.with(bit))
    }

    /// The last bit of a block.
    fn end_block(self, bit: bool) -> EbvStep
        requires { length self % 8 ≡ 7 }
        ensures { IsEbvStep result (self ++ bit ∷ []) }
    {
        let bits = 2 * self.bits + u32::from(bit);
        // Where the block's extension bit is 0 it is the last one.
        if bits / 128 % 2 == 0 {
            return EbvStep::Value(number_of_blocks(bits));
        }
        if bits == NOTHING {
            return EbvStep::NotShortest;
        }
        EbvStep::More(self.with(bit))
    }
}

/// The number that the digits of at most four blocks are.
fn number_of_blocks(bits: u32) -> u32
    ensures { (number : ℕ) (vector : List Bool) → IsEbv number vector → bits ≡ value_of vector
        → result ≡ number }
{
    bits % 128
        + bits / 0x100 % 128 * 0x80
        + bits / 0x1_0000 % 128 * 0x4000
        + bits / 0x100_0000 % 128 * 0x20_0000
}
