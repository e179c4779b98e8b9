//! What fields say, as values.
ghost use Rattle.std.specs.Prelude.{◌≡◌, ◌↔◌, ◌<◌, ◌^◌, ℕ, List, IfNone, IfSome, IsTrue, Option, Some};
ghost use Rattle.std.specs.Fmt.{decimal};
ghost use Rattle.epc_sgtin.specs.SgtinValue.{SgtinValue};
ghost use Rattle.line_objects.specs.Values.{AreUris, IsEpcOf, number_in};

use epc_sgtin::{Sgtin, Uri, sgtin_laws};
use itoa::Buffer;
use text_fields::Words;

/// Whether two lists of bytes are one.
fn are_same(one: &[u8], other: &[u8]) -> bool
    ensures { IsTrue result ↔ (one.now ≡ other.now) }
{
    one == other
}

/// The number of 64 bits that a field spells in decimal digits, without a sign and without leading zeros; none exactly where it spells none.
pub fn spelled_number(field: &[u8]) -> Option<u64>
    ensures value { IfSome result (λ number. (field.now ≡ decimal number) × (number < 2 ^ 64)) }
    ensures only { (number : ℕ) → number < 2 ^ 64 → field.now ≡ decimal number
        → result ≡ Some number }
{
    let Ok(digits) = str::from_utf8(field) else {
        return None;
    };
    let Ok(number) = digits.parse::<u64>() else {
        return None;
    };
    // std reads a plus and leading zeros as well.
    let mut digits = Buffer::new();
    if are_same(digits.format(number).as_bytes(), field) {
        Some(number)
    } else {
        None
    }
}

/// The number that a field of a line spells, for an object, if it spells one.
pub(crate) fn number_in(field: &[u8]) -> Option<u64>
    ensures { result ≡ number_in field.now }
{
    spelled_number(field)
}

/// The most words of an EPC.
const MOST_WORDS: u32 = 31;

/// The SGTIN-96 whose words a field is; none exactly where it is those of none.
fn sgtin_in(field: &[u8]) -> Option<Sgtin>
    ensures some { IfSome result (λ sgtin. IsEpcOf sgtin field.now) }
    ensures none { IfNone result ((sgtin : SgtinValue) → ¬ IsEpcOf sgtin field.now) }
{
    // By these laws words are those of an SGTIN or are refused, and not both.
    sgtin_laws();
    let words = Words::new(field, MOST_WORDS)?;
    let mut room = [0_u16; MOST_WORDS as usize];
    let room = &mut room[..words.len() as usize];
    words.write_to(room);
    Sgtin::decode(room).ok()
}

/// The URI of the SGTIN-96 whose words a field is; none where it is those of none.
pub(crate) fn uri_in(field: &[u8]) -> Option<Uri>
    ensures { (uris : List ℕ → Option (List ℕ)) → AreUris uris → result ≡ uris field.now }
{
    // By these laws a field has one URI at most.
    sgtin_laws();
    let sgtin = sgtin_in(field)?;
    let mut uri = Uri::new();
    sgtin.write_uri(&mut uri);
    Some(uri)
}
