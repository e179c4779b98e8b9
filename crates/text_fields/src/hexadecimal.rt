//! Words and bytes in hexadecimal digits.
ghost use Rattle.std.specs.Prelude.{◌≡◌, ◌<◌, ◌≤◌, ◌*◌, ◌^◌, ◌++◌, ℕ, [], ◌∷◌, length, map, IfSome, OnOk};
ghost use Rattle.std.specs.Int.{to_be_bytes, w16};
ghost use Rattle.std.specs.List.{flat_map};
ghost use Rattle.std.specs.String.{string_bytes};
ghost use Rattle.text_fields.specs.Hexadecimal.{hex_byte, hex_digit, hex_word, hex_words};

use crate::ascii::push_ascii;
use crate::byte_tests::all_pass;
use crate::word_lists::{UpperHexDigit, byte_of, word_of};
use bit_strings::OutOfMemory;

/// The byte that a field spells in two upper-case hexadecimal digits; none exactly where the field isn't
/// the spelling of a byte.
#[tactic(auto, using(crate::proofs::WordDigits::byte_digits))]
pub fn byte(field: &[u8]) -> Option<u8>
    ensures value { IfSome result (λ n. field.now ≡ hex_byte n) }
    ensures only { (n : ℕ) → n < 2 ^ 8 → field.now ≡ hex_byte n → result ≡ Some n }
{
    if field.len() != 2 || !all_pass::<UpperHexDigit>(field) {
        return None;
    }
    Some(byte_of(field[0], field[1]))
}

/// The word that a field spells in four upper-case hexadecimal digits; none exactly where the field
/// isn't the spelling of a word.
#[tactic(auto, using(crate::proofs::WordDigits::word_digits))]
pub fn word(field: &[u8]) -> Option<u16>
    ensures value { IfSome result (λ n. field.now ≡ hex_word n) }
    ensures only { (n : ℕ) → n < 2 ^ 16 → field.now ≡ hex_word n → result ≡ Some n }
{
    let digits = field.first_chunk::<4>()?;
    if field.len() != 4 {
        return None;
    }
    if !all_pass::<UpperHexDigit>(field) {
        return None;
    }
    Some(word_of(digits))
}

/// The upper-case hexadecimal digit of a number below 16.
fn digit_of(number: u8) -> u8
    requires { number < 16 }
    ensures { result ≡ hex_digit number }
{
    if number < 10 {
        b'0' + number
    } else {
        b'A' - 10 + number
    }
}

/// Writes the upper-case digits of bytes over `digits`, which has room for exactly these.
#[tactic(auto, using(crate::proofs::ByteDigits::upper_written))]
fn write_upper(bytes: &[u8], digits: &mut [u8])
    requires { length digits.old ≡ 2 * length bytes.now }
    ensures { digits.new ≡ flat_map hex_byte bytes.now }
{
    match hex::encode_to_slice(bytes, digits) {
        Ok(()) => digits.make_ascii_uppercase(),
        Err(_) => unreachable!(),
    }
}

/// How many words are written at once.
const PART: usize = 16;

/// Writes at most [`PART`] words in hexadecimal digits at the end of the text.
fn push_part(text: &mut String, words: &[u16]) -> Result<(), OutOfMemory>
    requires { length words.now ≤ PART }
    ensures { OnOk result (string_bytes text.new ≡ string_bytes text.old
        ++ flat_map hex_word words.now) }
{
    let mut bytes = [[0; 2]; PART];
    let mut digits = [b'0'; 4 * PART];
    let bytes = &mut bytes[..words.len()];
    let digits = &mut digits[..4 * words.len()];
    write_bytes(words, bytes);
    write_upper(bytes.as_flattened(), digits);
    push_ascii(text, digits)
}

/// Writes the two bytes of each word, the most significant first.
fn write_bytes(words: &[u16], bytes: &mut [[u8; 2]])
    requires { length words.now ≡ length bytes.old }
    ensures { bytes.new ≡ map (to_be_bytes w16) words.now }
{
    for (at, word) in words.iter().enumerate() {
        bytes[at] = word.to_be_bytes();
    }
}

/// Writes words in hexadecimal digits at the end of the text.
fn push_parts(text: &mut String, words: &[u16]) -> Result<(), OutOfMemory>
    ensures { OnOk result (string_bytes text.new ≡ string_bytes text.old
        ++ flat_map hex_word words.now) }
{
    let mut rest = words;
    while !rest.is_empty() {
        let (part, behind) = rest.split_at(rest.len().min(PART));
        push_part(text, part)?;
        rest = behind;
    }
    Ok(())
}

/// Writes a number below 16 as one upper-case hexadecimal digit at the end of the text.
pub fn push_hex_digit(text: &mut String, value: u8) -> Result<(), OutOfMemory>
    requires { value < 16 }
    ensures { OnOk result (string_bytes text.new ≡ string_bytes text.old ++ hex_digit value ∷ []) }
{
    text.push(char::from(digit_of(value)))
}

/// Writes a byte in two upper-case hexadecimal digits at the end of the text. After an error the text
/// may hold a part of them.
pub fn push_byte_hex(text: &mut String, byte: u8) -> Result<(), OutOfMemory>
    ensures { OnOk result (string_bytes text.new ≡ string_bytes text.old ++ hex_byte byte) }
{
    let mut digits = [b'0'; 2];
    write_upper(&[byte], &mut digits);
    push_ascii(text, &digits)
}

/// Writes a word in four upper-case hexadecimal digits at the end of the text. After an error the text
/// may hold a part of them.
pub fn push_word(text: &mut String, word: u16) -> Result<(), OutOfMemory>
    ensures { OnOk result (string_bytes text.new ≡ string_bytes text.old ++ hex_word word) }
{
    push_part(text, &[word])
}

/// Writes words in hexadecimal digits without anything between them, or a hyphen for none, at the end
/// of the text. After an error the text may hold a part of them.
#[tactic(auto, using(crate::proofs::UpperHexadecimal::words_filled))]
pub fn push_words(text: &mut String, words: &[u16]) -> Result<(), OutOfMemory>
    ensures { OnOk result (string_bytes text.new ≡ string_bytes text.old ++ hex_words words.now) }
{
    if words.is_empty() {
        return text.push('-');
    }
    push_parts(text, words)
}
