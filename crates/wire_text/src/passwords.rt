//! Passwords, read and written.
ghost use Rattle.std.specs.Prelude.{◌≡◌, ◌<◌, ◌^◌, ◌++◌, ◌∷◌, ℕ, IfSome, OnOk};
ghost use Rattle.std.specs.String.{string_bytes};
ghost use Rattle.text_fields.specs.Lines.{space};
ghost use Rattle.wire_text.specs.PasswordsAndLocks.{password_text};

use bit_strings::OutOfMemory;
use text_fields::{push_word, word};

/// The password that a field spells in its two words.
pub fn password_of(field: &[u8]) -> Option<u32>
    ensures value { IfSome result
        (λ password. (field.now ≡ password_text password) × (password < 2 ^ 32)) }
    ensures only { (password : ℕ) → password < 2 ^ 32 → field.now ≡ password_text password
        → result ≡ Some password }
{
    if field.len() != 8 {
        return None;
    }
    let (upper, lower) = field.split_at(4);
    let upper = u32::from(word(upper)?);
    let lower = u32::from(word(lower)?);
    Some(upper * 65536 + lower)
}

/// Writes a password as the next field, in two words. After an error the text may hold a
/// part of it.
pub fn push_next_password(text: &mut String, password: u32) -> Result<(), OutOfMemory>
    ensures { OnOk result (string_bytes text.new ≡ string_bytes text.old
        ++ space ∷ password_text password) }
{
    text.push(' ')?;
    push_word(text, (password >> 16) as u16)?;
    push_word(text, (password % 65536) as u16)
}
