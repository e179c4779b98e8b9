//! The fields of the lines that are read.
ghost use Rattle.std.specs.Prelude.{◌≡◌, ◌≢◌, ◌∷◌, [], IfNone, IfSome, IsFalse, IsTrue, length};
ghost use Rattle.text_fields.specs.Lines.{fields_of};
ghost use Rattle.report_lines.specs.ReadLines.{IsDecimal, first_field};

use text_fields::Fields;

/// How many fields a line has that is read as a tx line or an rx line.
pub(crate) fn field_count(line: &[u8]) -> usize
    ensures { result ≡ length (fields_of line.now) }
{
    Fields::new(line).count()
}

/// The next field; none exactly where none is left.
pub(crate) fn next_field<'a>(fields: &mut Fields<'a>) -> Option<&'a [u8]>
    ensures some { IfSome result (λ field. fields.old ≡ field.now ∷ fields.new) }
    ensures none { IfNone result (fields.old ≡ []) }
{
    fields.next()
}

/// The word that a line begins with, and the fields behind it.
fn split_word(line: &[u8]) -> (&[u8], Fields<'_>)
    ensures { fields_of line.now ≡ result.0.now ∷ result.1 }
{
    let mut fields = Fields::new(line);
    match next_field(&mut fields) {
        Some(word) => (word, fields),
        // A line has a field at least.
        None => unreachable!(),
    }
}

/// The first field of a line of a trace: the word that the line begins with.
pub fn first_field(line: &[u8]) -> &[u8]
    ensures { result.now ≡ first_field line.now }
{
    split_word(line).0
}

/// The fields behind the word that a line begins with; none exactly where it begins with another.
pub(crate) fn fields_behind<'a>(line: &'a [u8], word: &[u8]) -> Option<Fields<'a>>
    ensures some { IfSome result (λ others. fields_of line.now ≡ word.now ∷ others) }
    ensures none { IfNone result (first_field line.now ≢ word.now) }
{
    let (first, others) = split_word(line);
    if first == word { Some(others) } else { None }
}

/// Whether a field is decimal digits, without leading zeros.
pub(crate) fn is_number(field: &[u8]) -> bool
    ensures yes { IsTrue result → IsDecimal field.now }
    ensures no { IsFalse result → ¬ IsDecimal field.now }
{
    match field {
        [b'0'] => true,
        [b'1'..=b'9', others @ ..] => others.iter().all(|digit| digit.is_ascii_digit()),
        _ => false,
    }
}
