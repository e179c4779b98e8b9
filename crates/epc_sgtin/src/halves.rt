//! The two halves of an EPC of six words, 48 bits each.
ghost use Rattle.std.specs.Prelude.{◌≡◌, ◌^◌, ◌<◌, [], ◌∷◌};
ghost use Rattle.bit_strings.specs.NumbersInBits.{field_of};
ghost use Rattle.bit_strings.specs.Words.{bits_of_words};

/// The 48 bits of three words, as a number.
pub(crate) fn half_of(first: u16, second: u16, third: u16) -> u64
    ensures below { result < 2 ^ 48 }
    ensures bits { field_of result 48 ≡ bits_of_words (first ∷ second ∷ third ∷ []) }
{
    (u64::from(first) << 32) + (u64::from(second) << 16) + u64::from(third)
}

/// The three words of 48 bits.
pub(crate) fn words_of(half: u64) -> (u16, u16, u16)
    requires { half < 2 ^ 48 }
    ensures { bits_of_words (result.0 ∷ result.1 ∷ result.2 ∷ []) ≡ field_of half 48 }
{
    (
        (half >> 32) as u16,
        (half >> 16 & 0xFFFF) as u16,
        (half & 0xFFFF) as u16,
    )
}
