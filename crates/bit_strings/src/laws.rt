//! Laws of the definitions that the contracts of this crate cite.
ghost use Rattle.std.specs.Prelude.{◌≡◌, ◌^◌, ◌<◌, ◌++◌, ℕ, List, Bool, length};
ghost use Rattle.bit_strings.specs.NumbersInBits.{value_of, field_of};
ghost use Rattle.bit_strings.specs.Ebv.{IsEbv, ebv_of};

/// A field is the one list of its width with its value.
pub fn field_laws()
    ensures length { (value width : ℕ) → length (field_of value width) ≡ width }
    ensures below { (bits : List Bool) → value_of bits < 2 ^ length bits }
    ensures value { (value width : ℕ) → value < 2 ^ width
        → value_of (field_of value width) ≡ value }
    ensures field { (bits : List Bool) → field_of (value_of bits) (length bits) ≡ bits }
{}

/// Each number below `2^28` has exactly one extensible bit vector, larger numbers have none, and none
/// begins another.
pub fn ebv_laws()
    ensures some { (number : ℕ) → number < 2 ^ 28 → IsEbv number (ebv_of number) }
    ensures below { (number : ℕ) (bits : List Bool) → IsEbv number bits → number < 2 ^ 28 }
    ensures one { (number : ℕ) (bits : List Bool) → IsEbv number bits → bits ≡ ebv_of number }
    ensures apart { (n m : ℕ) (xs ys more rest : List Bool) → IsEbv n xs → IsEbv m ys
        → xs ++ more ≡ ys ++ rest → (n ≡ m) × (xs ≡ ys) }
{}
