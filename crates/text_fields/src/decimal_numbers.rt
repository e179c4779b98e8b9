//! Numbers as fields: decimal digits without a sign and without leading zeros.
ghost use Rattle.std.specs.Prelude.{◌≡◌, ◌≢◌, ◌≤◌, ◌<◌, ◌^◌, ℕ, ◌++◌, length, slice_index, IsTrue, IfSome, OnOk};
ghost use Rattle.std.specs.String.{string_bytes};
ghost use Rattle.std.specs.Fmt.{decimal};

use bit_strings::OutOfMemory;
use itoa::Buffer;

/// Whether a field begins as a number does: with a digit that is not a leading zero.
#[tactic(auto, using(crate::proofs::DecimalDigits::decimal_starts))]
fn begins_as_number(field: &[u8]) -> bool
    ensures filled { IsTrue result → 0 < length field.now }
    ensures zero { IsTrue result → slice_index field.now 0 ≡ 48 → length field.now ≡ 1 }
    ensures only { (n : ℕ) → n < 2 ^ 32 → field.now ≡ decimal n → IsTrue result }
{
    matches!(field, [b'0'] | [b'1'..=b'9', ..])
}

/// The number that a field spells in decimal digits, without a sign and without leading zeros; none
/// exactly where the field spells no number up to `most`.
pub fn number(field: &[u8], most: u32) -> Option<u32>
    ensures value { IfSome result (λ n. (field.now ≡ decimal n) × (n ≤ most)) }
    ensures only { (n : ℕ) → n ≤ most → field.now ≡ decimal n → result ≡ Some n }
{
    if !begins_as_number(field) {
        return None;
    }
    let mut number = 0;
    for digit in field {
        if !digit.is_ascii_digit() {
            return None;
        }
        number = 10 * number + (*digit - b'0') as u64;
        if number > most as u64 {
            return None;
        }
    }
    Some(number as u32)
}

/// Writes a number in decimal digits, without leading zeros, at the end of the text. After an error
/// the text may hold a part of them.
#[tactic(auto, using(crate::proofs::DecimalDigits::one_digit))]
pub fn push_number(text: &mut String, number: u32) -> Result<(), OutOfMemory>
    ensures { OnOk result (string_bytes text.new ≡ string_bytes text.old ++ decimal number) }
{
    // One digit takes no call.
    if number < 10 {
        return text.push(char::from(b'0' + number as u8));
    }
    text.push_str(Buffer::new().format(number))
}

/// Writes a number of 64 bits in decimal digits, without leading zeros, at the end of the text. After an
/// error the text may hold a part of them.
pub fn push_long_number(text: &mut String, value: u64) -> Result<(), OutOfMemory>
    ensures { OnOk result (string_bytes text.new ≡ string_bytes text.old ++ decimal value) }
{
    text.push_str(Buffer::new().format(value))
}
