//! The payload of a Lock, read and written.
ghost use Rattle.std.specs.Prelude.{◌≡◌, ◌≤◌, ℕ, ◌++◌, ◌∷◌, IfSome, IsSomeAnd, OnOk};
ghost use Rattle.std.specs.String.{string_bytes};
ghost use Rattle.text_fields.specs.Lines.{space};
ghost use Rattle.wire_text.specs.CommandText.{payload_digits};

use bit_strings::{OutOfMemory, Payload};
use text_fields::{push_hex_digit, push_word, word};

/// The payload of a Lock that a field spells in five digits. The first digit is that of the word which
/// the first four spell.
pub fn payload_of(field: &[u8]) -> Option<Payload>
    ensures value { IfSome result
        (λ payload. (field.now ≡ payload_digits payload) × (payload ≤ 1048575)) }
    ensures only { (n : ℕ) → n ≤ 1048575 → field.now ≡ payload_digits n
        → IsSomeAnd result (λ payload. payload ≡ n) }
{
    if field.len() != 5 {
        return None;
    }
    let (upper, _) = field.split_at(4);
    let (_, lower) = field.split_at(1);
    let first = u32::from(word(upper)?) / 4096;
    let others = u32::from(word(lower)?);
    Payload::new(first * 65536 + others)
}

/// Writes the payload of a Lock as the next field, in five upper-case hexadecimal digits. After an error
/// the text may hold a part of it.
pub fn push_next_payload(text: &mut String, payload: &Payload) -> Result<(), OutOfMemory>
    ensures { OnOk result (string_bytes text.new ≡ string_bytes text.old
        ++ space ∷ payload_digits payload.now) }
{
    let number = payload.get();
    text.push(' ')?;
    push_hex_digit(text, (number / 65536) as u8)?;
    push_word(text, (number % 65536) as u16)
}
