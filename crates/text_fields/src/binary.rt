//! Binary digits as fields.
ghost use Rattle.std.specs.Prelude.{◌≡◌, ◌≢◌, ◌≤◌, ℕ, ◌↔◌, ◌++◌, [], ◌∷◌, length, map, Bool, List, IsTrue, IfOk, IfSome, IsSomeAnd, OnOk};
ghost use Rattle.std.specs.List.{AllPass};
ghost use Rattle.std.specs.String.{string_bytes};
ghost use Rattle.text_fields.specs.Binary.{binary, binary_digit, hyphen, is_binary_digit, or_hyphen};

use crate::ascii::push_ascii;
use crate::byte_tests::{ByteTest, all_pass};
use bit_strings::{Bits, List, OutOfMemory};
use std::alloc::Global;
use std::marker::Model;

/// The one byte of a field that spells a list without items.
const HYPHEN: u8 = b'-';

/// A list of bits that a field spells: its digits 0 and 1, the first bit first, or a hyphen for no
/// bits. A contract sees it as the list of these bits.
#[derive(Drop)]
pub struct Digits<'a> {
    digits: &'a [u8],
}

impl<'a> Model for Digits<'a> {
    ghost use Rattle.std.specs.Prelude.{List, Bool, ◌<◌, ◌^◌, length};
    ghost use Rattle.std.specs.List.{AllPass};
    ghost use Rattle.text_fields.specs.Binary.{bits_of_digits, is_binary_digit};

    ghost Value = { List Bool };

    ghost view = { λ a. bits_of_digits a.digits.now };

    ghost invariant = { λ a. AllPass is_binary_digit a.digits.now
        × (length a.digits.now < 2 ^ 32) };
}

/// Whether a byte is one of the digits 0 and 1.
pub fn is_binary_digit(byte: u8) -> bool
    ensures { result ≡ is_binary_digit byte }
{
    matches!(byte, b'0' | b'1')
}

/// The test of the digits 0 and 1.
struct BinaryDigit;

impl ByteTest for BinaryDigit {
    ghost test = { is_binary_digit };

    fn passes(byte: u8) -> bool {
        is_binary_digit(byte)
    }
}

/// The digits that a field spells a list with, which are none where the field is a hyphen. None exactly
/// where the field is empty.
pub fn list_digits(field: &[u8]) -> Option<&[u8]>
    ensures value { IfSome result (λ digits. field.now ≡ or_hyphen digits.now) }
    ensures only { (digits : List ℕ) → digits ≢ hyphen ∷ [] → field.now ≡ or_hyphen digits
        → IsSomeAnd result (λ it. it.now ≡ digits) }
{
    match field {
        [] => None,
        [HYPHEN] => Some(&[]),
        _ => Some(field),
    }
}

/// The bit that a field of one binary digit spells; none exactly where the field is neither `0` nor
/// `1`.
pub fn one_bit(field: &[u8]) -> Option<bool>
    ensures value { IfSome result (λ bit. field.now ≡ binary_digit bit ∷ []) }
    ensures only { (bit : Bool) → field.now ≡ binary_digit bit ∷ [] → result ≡ Some bit }
{
    match field {
        b"0" => Some(false),
        b"1" => Some(true),
        _ => None,
    }
}

impl<'a> Digits<'a> {
    /// The bits that a field spells; none exactly where the field isn't the spelling of a list of at
    /// most `most` bits.
    pub fn new(field: &'a [u8], most: u32) -> Option<Digits<'a>>
        ensures value { IfSome result (λ bits. (field.now ≡ binary bits) × (length bits ≤ most)) }
        ensures only { (bits : List Bool) → length bits ≤ most → field.now ≡ binary bits
            → IsSomeAnd result (λ it. it ≡ bits) }
    {
        let digits = list_digits(field)?;
        if digits.len() > most as usize || !all_pass::<BinaryDigit>(digits) {
            return None;
        }
        Some(Digits { digits })
    }

    /// How many bits there are.
    pub fn len(&self) -> u32
        ensures { result ≡ length self.now }
    {
        self.digits.len() as u32
    }

    /// Whether there are no bits.
    pub fn is_empty(&self) -> bool
        ensures { IsTrue result ↔ (self.now ≡ []) }
    {
        self.digits.is_empty()
    }

    /// Writes the bits into a list in place of what it holds.
    pub fn copy_to(&self, out: &mut Bits)
        requires { length self.now ≤ out.old.capacity }
        ensures { out.new ≡ record out.old { items = self.now } }
    {
        // There is room for each bit.
        let _ = out.copy_bytes(self.digits, b'1');
    }

    /// The bits, in memory of their own.
    pub fn to_list(&self, alloc: Global) -> Result<List<bool>, OutOfMemory>
        ensures { IfOk result (λ bits. bits ≡ self.now) }
    {
        let mut bits = Bits::new(alloc, self.len())?;
        self.copy_to(&mut bits);
        Ok(bits.into_list())
    }
}

/// How many digits are written at once.
const TOGETHER: usize = 64;

/// Writes bits in binary digits, or a hyphen for none, at the end of the text. After an error the
/// text may hold a part of them.
pub fn push_bits(text: &mut String, bits: &[bool]) -> Result<(), OutOfMemory>
    ensures { OnOk result (string_bytes text.new ≡ string_bytes text.old ++ binary bits.now) }
{
    if bits.is_empty() {
        return text.push('-');
    }
    push_parts(text, bits)
}

/// Writes bits in binary digits at the end of the text.
fn push_parts(text: &mut String, bits: &[bool]) -> Result<(), OutOfMemory>
    ensures { OnOk result (string_bytes text.new ≡ string_bytes text.old
        ++ map binary_digit bits.now) }
{
    let mut rest = bits;
    while let Some((part, behind)) = rest.split_first_chunk::<TOGETHER>() {
        push_whole_part(text, part)?;
        rest = behind;
    }
    push_part(text, rest)
}

/// Writes [`TOGETHER`] bits in binary digits at the end of the text.
fn push_whole_part(text: &mut String, bits: &[bool; TOGETHER]) -> Result<(), OutOfMemory>
    ensures { OnOk result (string_bytes text.new ≡ string_bytes text.old
        ++ map binary_digit bits.now) }
{
    let mut digits = [b'0'; TOGETHER];
    write_digits(bits, &mut digits);
    push_ascii(text, &digits)
}

/// Writes at most [`TOGETHER`] bits in binary digits at the end of the text.
fn push_part(text: &mut String, bits: &[bool]) -> Result<(), OutOfMemory>
    requires { length bits.now ≤ TOGETHER }
    ensures { OnOk result (string_bytes text.new ≡ string_bytes text.old
        ++ map binary_digit bits.now) }
{
    let mut room = [b'0'; TOGETHER];
    let digits = &mut room[..bits.len()];
    write_digits(bits, digits);
    push_ascii(text, digits)
}

/// Writes the digit of each bit.
fn write_digits(bits: &[bool], digits: &mut [u8])
    requires { length bits.now ≡ length digits.old }
    ensures { digits.new ≡ map binary_digit bits.now }
{
    for (at, bit) in bits.iter().enumerate() {
        digits[at] = if *bit { b'1' } else { b'0' };
    }
}
