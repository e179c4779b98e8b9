//! The lists of words that replies carry, read.
ghost use Rattle.std.specs.Prelude.{◌≡◌, ℕ, List, IfSome, IsSomeAnd};
ghost use Rattle.text_fields.specs.Hexadecimal.{hex_words};
ghost use Rattle.text_fields.specs.WordLists.{IsWordList};

use reply_grammar::{EpcWords, ReadWords};
use text_fields::words_from;

/// The EPC of 0 to 31 words that a field spells.
pub fn epc_of(field: &[u8]) -> Option<EpcWords>
    ensures value { IfSome result (λ epc. (field.now ≡ hex_words epc) × IsWordList 0 31 epc) }
    ensures only { (words : List ℕ) → IsWordList 0 31 words → field.now ≡ hex_words words
        → IsSomeAnd result (λ epc. epc ≡ words) }
{
    let words = words_from(field, 0, 31)?;
    let mut room = [0_u16; 31];
    let epc = &mut room[..words.len() as usize];
    words.write_to(epc);
    Some(EpcWords::of(epc))
}

/// What a Read brings, 1 to 512 words, which a field spells.
pub(crate) fn read_words_of(field: &[u8]) -> Option<ReadWords>
    ensures value { IfSome result (λ it. (field.now ≡ hex_words it) × IsWordList 1 512 it) }
    ensures only { (words : List ℕ) → IsWordList 1 512 words → field.now ≡ hex_words words
        → IsSomeAnd result (λ it. it ≡ words) }
{
    let words = words_from(field, 1, 512)?;
    let mut room = [0_u16; 512];
    let read = &mut room[..words.len() as usize];
    words.write_to(read);
    Some(ReadWords::of(read))
}
