//! The comparison of a mask with a bank.
ghost use Rattle.std.specs.Prelude.{◌≡◌, ◌^◌, ◌<◌, ◌↔◌, IsTrue, drop, slice_get};
ghost use Rattle.bit_strings.specs.Words.{bits_of_words};
ghost use Rattle.session_flags.specs.MaskMatch.{begins_with, mask_match, MaskStandsAt};

use bit_strings::Pointer;
use command_fields::Mask;

/// The word of a bank at a place, counted from 0; none past the bank.
fn word_at(words: &[u16], place: usize) -> Option<u16>
    ensures { result ≡ slice_get words.now place }
{
    words.get(place).copied()
}

/// The bit of a bank at the place `at`, counted from 0; none past the bank.
fn bit_of_bank(words: &[u16], at: usize) -> Option<bool>
    ensures { result ≡ slice_get (bits_of_words words.now) at }
{
    let word = word_at(words, at / 16)?;
    Some((word >> (15 - at % 16)) % 2 == 1)
}

/// Whether the bits of a bank from the place `start` on begin with the mask.
fn begins_at(words: &[u16], start: u32, mask: &Mask) -> bool
    requires { start < 2 ^ 28 }
    ensures { result ≡ begins_with (drop start (bits_of_words words.now)) mask.now }
{
    for (at, want) in mask.as_slice().iter().enumerate() {
        match bit_of_bank(words, start as usize + at) {
            Some(bit) if bit == *want => {}
            _ => return false,
        }
    }
    true
}

/// Whether a mask equals the bits of a bank from the place of the pointer on (6.3.2.11.1.1 Select).
/// `words` is the whole bank. A mask that reaches past the bank doesn't match; an empty mask matches
/// up to the place after the bank's last bit (profile).
pub fn mask_matches(words: &[u16], pointer: Pointer, mask: &Mask) -> bool
    ensures value { result ≡ mask_match words.now pointer mask.now }
    ensures meaning { IsTrue result ↔ MaskStandsAt (bits_of_words words.now) pointer mask.now }
{
    let start = pointer.get();
    start.div_ceil(16) as usize <= words.len() && begins_at(words, start, mask)
}
