//! Numbers and lists of words in their ranges, read from fields.
ghost use Rattle.std.specs.Prelude.{◌≡◌, ◌≤◌, ℕ, List, IfSome, IsSomeAnd};
ghost use Rattle.std.specs.Fmt.{decimal};
ghost use Rattle.text_fields.specs.Hexadecimal.{hex_words};
ghost use Rattle.text_fields.specs.WordLists.{IsWordList};

use crate::decimal_numbers::number;
use crate::word_lists::Words;
use bit_strings::{Action, Count1, Pointer, QValue, Session};

/// The number from `least` to `most` that a field spells.
pub fn number_from(field: &[u8], least: u32, most: u32) -> Option<u32>
    ensures value { IfSome result (λ n. (field.now ≡ decimal n) × (least ≤ n) × (n ≤ most)) }
    ensures only { (n : ℕ) → least ≤ n → n ≤ most → field.now ≡ decimal n → result ≡ Some n }
{
    let number = number(field, most)?;
    if number < least { None } else { Some(number) }
}

/// The session that a field names by its number.
pub fn session_of(field: &[u8]) -> Option<Session>
    ensures value { IfSome result (λ session. (field.now ≡ decimal session) × (session ≤ 3)) }
    ensures only { (n : ℕ) → n ≤ 3 → field.now ≡ decimal n
        → IsSomeAnd result (λ session. session ≡ n) }
{
    Session::new(number(field, 255)? as u8)
}

/// The Q that a field spells.
pub fn q_of(field: &[u8]) -> Option<QValue>
    ensures value { IfSome result (λ q. (field.now ≡ decimal q) × (q ≤ 15)) }
    ensures only { (n : ℕ) → n ≤ 15 → field.now ≡ decimal n → IsSomeAnd result (λ q. q ≡ n) }
{
    QValue::new(number(field, 255)? as u8)
}

/// The action of a Select that a field names by its number.
pub fn action_of(field: &[u8]) -> Option<Action>
    ensures value { IfSome result (λ action. (field.now ≡ decimal action) × (action ≤ 7)) }
    ensures only { (n : ℕ) → n ≤ 7 → field.now ≡ decimal n
        → IsSomeAnd result (λ action. action ≡ n) }
{
    Action::new(number(field, 255)? as u8)
}

/// The pointer that a field spells.
pub fn pointer_of(field: &[u8]) -> Option<Pointer>
    ensures value { IfSome result
        (λ pointer. (field.now ≡ decimal pointer) × (pointer ≤ 268435455)) }
    ensures only { (n : ℕ) → n ≤ 268435455 → field.now ≡ decimal n
        → IsSomeAnd result (λ pointer. pointer ≡ n) }
{
    Pointer::new(number(field, u32::MAX)?)
}

/// The number of 1 to 255 words that a field spells.
pub fn count_of(field: &[u8]) -> Option<Count1>
    ensures value { IfSome result
        (λ count. (field.now ≡ decimal count) × (1 ≤ count) × (count ≤ 255)) }
    ensures only { (n : ℕ) → 1 ≤ n → n ≤ 255 → field.now ≡ decimal n
        → IsSomeAnd result (λ count. count ≡ n) }
{
    Count1::new(number(field, 255)? as u8)
}

/// The list of `least` to `most` words that a field spells.
pub fn words_from<'a>(field: &'a [u8], least: u32, most: u32) -> Option<Words<'a>>
    ensures value { IfSome result
        (λ words. (field.now ≡ hex_words words) × IsWordList least most words) }
    ensures only { (words : List ℕ) → IsWordList least most words → field.now ≡ hex_words words
        → IsSomeAnd result (λ it. it ≡ words) }
{
    let words = Words::new(field, most)?;
    if words.len() < least {
        None
    } else {
        Some(words)
    }
}
