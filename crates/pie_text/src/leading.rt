//! The number with which a text begins.
ghost use Rattle.std.specs.Prelude.{◌≡◌, ◌<◌, ◌≤◌, ◌↔◌, ℕ, [], ◌∷◌, length, take, slice_index, IfSome, IfNone, IsTrue};
ghost use Rattle.std.specs.Option.{option_map_or};
ghost use Rattle.text_fields.specs.Lines.{Lacks, fields_of, space};
ghost use Rattle.pie_text.specs.FieldEnd.{IsFieldEnd};
ghost use Rattle.pie_text.specs.Spelling.{IsNumberUpTo, decimal_value};

/// The byte behind the number with which a text begins, where other fields follow it.
const SPACE: u8 = b' ';

/// Whether digits are some, without leading zeros.
fn has_number_form(digits: &[u8]) -> bool
    ensures some { IsTrue result → 0 < length digits.now }
    ensures zeros { IsTrue result → slice_index digits.now 0 ≡ 48 → length digits.now ≡ 1 }
    ensures only { 0 < length digits.now → (slice_index digits.now 0 ≡ 48 → length digits.now ≡ 1)
        → IsTrue result }
{
    match digits {
        [] => false,
        [b'0', rest @ ..] => rest.is_empty(),
        _ => true,
    }
}

/// Whether the text is at its end at a place, or has a space there.
fn is_field_end(text: &[u8], end: usize) -> bool
    requires { end ≤ length text.now }
    ensures { IsTrue result ↔ IsFieldEnd text.now end }
{
    end == text.len() || text[end] == SPACE
}

/// The number up to `most` that the first field of a text spells, and the place where this field ends;
/// none exactly where it spells no such number.
pub(crate) fn leading_number(text: &[u8], most: u32) -> Option<(u32, usize)>
    ensures end { IfSome result (λ it. IsFieldEnd text.now it.1) }
    ensures number { IfSome result
        (λ it. IsNumberUpTo most (take it.1 text.now)
        × (it.0 ≡ decimal_value (take it.1 text.now))) }
    ensures none { IfNone result
        ((end : ℕ) → IsFieldEnd text.now end → ¬ IsNumberUpTo most (take end text.now)) }
{
    let mut number = 0;
    let mut end = 0;
    while end < text.len() && text[end].is_ascii_digit() {
        number = 10 * number + (text[end] - b'0') as u64;
        if number > most as u64 {
            return None;
        }
        end += 1;
    }
    if !is_field_end(text, end) || !has_number_form(&text[..end]) {
        return None;
    }
    Some((number as u32, end))
}

/// What stands behind the space at which the first field of a text ends; none where the text ends there.
pub(crate) fn behind_field(text: &[u8], end: usize) -> Option<&[u8]>
    requires { IsFieldEnd text.now end }
    ensures fields { Lacks space (take end text.now)
        → fields_of text.now ≡ take end text.now ∷ option_map_or
        (λ rest. fields_of rest.now) result [] }
    ensures shorter { IfSome result (λ rest. length rest.now < length text.now) }
{
    if end < text.len() {
        Some(&text[end + 1..])
    } else {
        None
    }
}
