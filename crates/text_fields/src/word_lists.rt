//! Lists of words as fields.
ghost use Rattle.std.specs.Prelude.{◌≡◌, ◌≤◌, ◌<◌, ◌+◌, ◌*◌, ◌^◌, ℕ, ◌↔◌, true, List, [], length, slice_get, map, All, IsTrue, IfOk, OnOk, IfSome, IsSomeAnd};
ghost use Rattle.std.specs.List.{AllPass};
ghost use Rattle.text_fields.specs.Binary.{hyphen};
ghost use Rattle.text_fields.specs.Hexadecimal.{hex_words};
ghost use Rattle.text_fields.specs.WordLists.{digit_number, first_word, is_upper_hex_digit};

use crate::binary::list_digits;
use crate::byte_tests::{ByteTest, all_pass};
use bit_strings::OutOfMemory;
use std::alloc::Global;
use std::marker::Model;

/// A list of words that a field spells: four upper-case hexadecimal digits a word, or a hyphen for no
/// words. A contract sees it as the list of these words.
#[derive(Drop)]
pub struct Words<'a> {
    digits: &'a [u8],
}

impl<'a> Model for Words<'a> {
    ghost use Rattle.std.specs.Prelude.{List, ℕ};
    ghost use Rattle.text_fields.specs.WordLists.{AreWordDigits, words_of_digits};

    ghost Value = { List ℕ };

    ghost view = { λ a. words_of_digits a.digits.now };

    ghost invariant = { λ a. AreWordDigits a.digits.now };
}

/// The test of the digits 0 to 9 and of the letters A to F.
pub(crate) struct UpperHexDigit;

impl ByteTest for UpperHexDigit {
    ghost test = { is_upper_hex_digit };

    fn passes(byte: u8) -> bool {
        matches!(byte, b'0'..=b'9' | b'A'..=b'F')
    }
}

/// The number of an upper-case hexadecimal digit.
#[inline(always)]
fn number_of(digit: u8) -> u8
    requires { is_upper_hex_digit digit ≡ true }
    ensures { result ≡ digit_number digit }
{
    // `hex` reads one digit, behind a zero, and writes its number over it. The bounds, which change no digit, tell the compiler which bytes come:
    // so it needs no jump for a digit, and reads many words at once.
    let bounded = digit.clamp(b'0', b'F');
    let mut byte = [bounded];
    // `hex` refuses no upper-case digit.
    let _ = hex::decode_to_slice([b'0', bounded].as_slice(), &mut byte);
    byte[0]
}

/// The byte that two upper-case hexadecimal digits spell.
#[inline(always)]
#[tactic(auto, using(crate::proofs::WordDigits::number_small))]
pub(crate) fn byte_of(high: u8, low: u8) -> u8
    requires high { is_upper_hex_digit high ≡ true }
    requires low { is_upper_hex_digit low ≡ true }
    ensures { result ≡ digit_number high * 16 + digit_number low }
{
    number_of(high) * 16 + number_of(low)
}

/// The word of 16 bits that four upper-case hexadecimal digits spell.
#[inline(always)]
#[tactic(auto, using(crate::proofs::WordDigits::digit_at, crate::proofs::WordDigits::word_is))]
pub(crate) fn word_of(digits: &[u8; 4]) -> u16
    requires { AllPass is_upper_hex_digit digits.now }
    ensures { result ≡ first_word digits.now }
{
    let high = byte_of(digits[0], digits[1]);
    let low = byte_of(digits[2], digits[3]);
    high as u16 * 256 + low as u16
}

/// Writes the word of each group of four upper-case hexadecimal digits.
fn write_words(groups: &[[u8; 4]], out: &mut [u16])
    requires digits { All (AllPass is_upper_hex_digit) groups.now }
    requires count { length groups.now ≡ length out.old }
    ensures { out.new ≡ map first_word groups.now }
{
    for (at, digits) in groups.iter().enumerate() {
        out[at] = word_of(digits);
    }
}

impl<'a> Words<'a> {
    /// The words that a field spells; none exactly where the field isn't the spelling of a list of at
    /// most `most` words.
    pub fn new(field: &'a [u8], most: u32) -> Option<Words<'a>>
        ensures value { IfSome result
            (λ words. (field.now ≡ hex_words words) × (length words ≤ most)
            × All (λ word. word < 2 ^ 16) words) }
        ensures only { (words : List ℕ) → All (λ word. word < 2 ^ 16) words → length words ≤ most
            → field.now ≡ hex_words words
            → IsSomeAnd result (λ it. it ≡ words) }
    {
        let digits = list_digits(field)?;
        let is_short = digits.len() / 4 <= most as usize;
        if digits.len() % 4 != 0 || !is_short || !all_pass::<UpperHexDigit>(digits) {
            return None;
        }
        Some(Words { digits })
    }

    /// How many words there are.
    #[tactic(auto, using(crate::proofs::WordDigits::words_length))]
    pub fn len(&self) -> u32
        ensures { result ≡ length self.now }
    {
        (self.digits.len() / 4) as u32
    }

    /// Whether there are no words.
    pub fn is_empty(&self) -> bool
        ensures { IsTrue result ↔ (self.now ≡ []) }
    {
        self.len() == 0
    }

    /// The first word; none exactly where there are no words.
    #[tactic(auto, using(crate::proofs::WordDigits::first_digits))]
    pub fn first(&self) -> Option<u16>
        ensures { result ≡ slice_get self.now 0 }
    {
        let digits = self.digits.first_chunk::<4>()?;
        Some(word_of(digits))
    }

    /// Writes the words over `out`, which has room for exactly these.
    pub fn write_to(&self, out: &mut [u16])
        requires { length out.old ≡ length self.now }
        ensures { out.new ≡ self.now }
    {
        let (groups, _) = self.digits.as_chunks::<4>();
        write_words(groups, out);
    }

    /// Writes the words into a list in place of what it holds. After an error it may hold others.
    pub fn copy_to(&self, out: &mut Vec<u16>) -> Result<(), OutOfMemory>
        ensures { OnOk result (out.new.items ≡ self.now) }
    {
        out.resize(self.len() as usize, 0)?;
        self.write_to(out);
        Ok(())
    }

    /// The words, in memory of their own.
    pub fn to_vec(&self, alloc: Global) -> Result<Vec<u16>, OutOfMemory>
        ensures { IfOk result (λ words. words.items ≡ self.now) }
    {
        let mut words = Vec::with_capacity(alloc, self.digits.len() / 4)?;
        self.copy_to(&mut words)?;
        Ok(words)
    }
}
