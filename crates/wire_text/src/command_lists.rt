//! The lists that commands carry, read: the mask of a Select and the words of a BlockWrite.
ghost use Rattle.std.specs.Prelude.{◌≡◌, ◌≢◌, ◌≤◌, ℕ, Bool, List, length, map, IfSome, IfNone, IsSomeAnd, ◌∷◌};
ghost use Rattle.text_fields.specs.Binary.{binary, binary_digit};
ghost use Rattle.text_fields.specs.Hexadecimal.{hex_words};
ghost use Rattle.text_fields.specs.WordLists.{IsWordList};

use command_fields::{BlockWords, Mask};
use text_fields::{list_digits, words_from};

/// The mask of at most 255 bits that a field spells.
pub fn mask_of(field: &[u8]) -> Option<Mask>
    ensures value { IfSome result (λ mask. (field.now ≡ binary mask) × (length mask ≤ 255)) }
    ensures only { (bits : List Bool) → length bits ≤ 255 → field.now ≡ binary bits
        → IsSomeAnd result (λ mask. mask ≡ bits) }
{
    mask_of_digits(list_digits(field)?)
}

/// The bit of the first digit, and what stands behind it; none exactly where no binary digit stands
/// first.
fn split_bit(digits: &[u8]) -> Option<(bool, &[u8])>
    ensures value { IfSome result (λ it. digits.now ≡ binary_digit it.0 ∷ it.1.now) }
    ensures none { IfNone result
        ((bit : Bool) (behind : List ℕ) → digits.now ≢ binary_digit bit ∷ behind) }
{
    match digits {
        [b'0', behind @ ..] => Some((false, behind)),
        [b'1', behind @ ..] => Some((true, behind)),
        _ => None,
    }
}

/// The mask of these digits; none exactly where a byte is no digit, or there are more than 255.
fn mask_of_digits(digits: &[u8]) -> Option<Mask>
    ensures value { IfSome result
        (λ mask. (digits.now ≡ map binary_digit mask) × (length mask ≤ 255)) }
    ensures only { (bits : List Bool) → length bits ≤ 255 → digits.now ≡ map binary_digit bits
        → IsSomeAnd result (λ mask. mask ≡ bits) }
{
    let mut mask = Mask::new();
    let mut rest = digits;
    while let Some((bit, behind)) = split_bit(rest) {
        if mask.push(bit).is_err() {
            return None;
        }
        rest = behind;
    }
    if rest.is_empty() { Some(mask) } else { None }
}

/// The block of 1 to 255 words that a field spells.
pub fn block_of(field: &[u8]) -> Option<BlockWords>
    ensures value { IfSome result
        (λ block. (field.now ≡ hex_words block) × IsWordList 1 255 block) }
    ensures only { (words : List ℕ) → IsWordList 1 255 words → field.now ≡ hex_words words
        → IsSomeAnd result (λ block. block ≡ words) }
{
    let words = words_from(field, 1, 255)?;
    let mut room = [0_u16; 255];
    let block = &mut room[..words.len() as usize];
    words.write_to(block);
    Some(BlockWords::of(block))
}
