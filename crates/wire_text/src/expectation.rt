//! What an interrogator expects, as a field: read and written.
ghost use Rattle.std.specs.Prelude.{◌≡◌, ◌≤◌, ◌<◌, ◌^◌, ◌++◌, ◌∷◌, ℕ, List, IfSome, IsSomeAnd, OnOk, Some, codes, length};
ghost use Rattle.std.specs.Fmt.{decimal};
ghost use Rattle.std.specs.String.{string_bytes};
ghost use Rattle.text_fields.specs.Hexadecimal.{hex_word};
ghost use Rattle.text_fields.specs.Lines.{space};
ghost use Rattle.reply_grammar.specs.declared.expected.Expect.{Expect};
ghost use Rattle.wire_text.specs.ReplyText.{IsExpect, expect_word};

use bit_strings::{Count1, OutOfMemory};
use reply_grammar::Expect;
use text_fields::{number, push_next_name, push_number, push_word, word};

/// The greatest number of words that a Read can ask for by its WordCount.
const MOST_WORDS: u32 = 255;

/// How many bytes a hyphen and a handle behind it take.
const HYPHEN_AND_HANDLE: usize = 5;

/// The expectation that a field spells; none exactly where the field is the spelling of none.
///
/// Profile: `rn16`, `epc`, `handle`, `same-HHHH`, `words-N-HHHH`, `any-HHHH` and `header-HHHH`, where
/// `HHHH` is the handle in four upper-case hexadecimal digits and `N` the number of words from 1 to 255,
/// in decimal digits.
pub fn expect_of(field: &[u8]) -> Option<Expect>
    ensures value { IfSome result (λ expect. (field.now ≡ expect_word expect) × IsExpect expect) }
    ensures only { (expect : Expect) → IsExpect expect → field.now ≡ expect_word expect
        → result ≡ Some expect }
{
    match field {
        b"rn16" => Some(Expect::Rn16),
        b"epc" => Some(Expect::Epc),
        b"handle" => Some(Expect::Handle),
        _ => with_handle(field),
    }
}

/// The expectation with a handle that a field spells.
fn with_handle(field: &[u8]) -> Option<Expect>
    ensures value { IfSome result (λ expect. (field.now ≡ expect_word expect) × IsExpect expect) }
    ensures same { (handle : ℕ) → handle < 2 ^ 16 → field.now ≡ expect_word (Expect.Same handle)
        → result ≡ Some (Expect.Same handle) }
    ensures any { (handle : ℕ) → handle < 2 ^ 16 → field.now ≡ expect_word (Expect.AnyWords handle)
        → result ≡ Some (Expect.AnyWords handle) }
    ensures header { (handle : ℕ) → handle < 2 ^ 16 → field.now ≡ expect_word (Expect.Header handle)
        → result ≡ Some (Expect.Header handle) }
    ensures words { (count handle : ℕ) → 1 ≤ count → count ≤ 255 → handle < 2 ^ 16
        → field.now ≡ expect_word (Expect.Words count handle)
        → result ≡ Some (Expect.Words count handle) }
{
    if let Some(handle) = handle_behind(field, b"same-") {
        return Some(Expect::Same(handle));
    }
    if let Some(handle) = handle_behind(field, b"any-") {
        return Some(Expect::AnyWords(handle));
    }
    if let Some(handle) = handle_behind(field, b"header-") {
        return Some(Expect::Header(handle));
    }
    let (count, handle) = count_and_handle(behind(field, b"words-")?)?;
    Some(Expect::Words(count, handle))
}

/// The handle behind a front; none exactly where the text is not this front and a handle.
fn handle_behind(text: &[u8], front: &[u8]) -> Option<u16>
    ensures value { IfSome result (λ handle. text.now ≡ front.now ++ hex_word handle) }
    ensures only { (handle : ℕ) → handle < 2 ^ 16 → text.now ≡ front.now ++ hex_word handle
        → result ≡ Some handle }
{
    word(behind(text, front)?)
}

/// What stands behind a front; none exactly where the text doesn't begin with it.
fn behind<'a>(text: &'a [u8], front: &[u8]) -> Option<&'a [u8]>
    ensures value { IfSome result (λ rest. text.now ≡ front.now ++ rest.now) }
    ensures only { (rest : List ℕ) → text.now ≡ front.now ++ rest
        → IsSomeAnd result (λ it. it.now ≡ rest) }
{
    text.strip_prefix(front)
}

/// The number of words and the handle of `N-HHHH`; none exactly where the text is no such pair.
fn count_and_handle(text: &[u8]) -> Option<(Count1, u16)>
    ensures value { IfSome result (λ it. text.now ≡ decimal it.0 ++ (codes "-" ++ hex_word it.1)) }
    ensures only { (count handle : ℕ) → 1 ≤ count → count ≤ 255 → handle < 2 ^ 16
        → text.now ≡ decimal count ++ (codes "-" ++ hex_word handle)
        → result ≡ Some (count, handle) }
{
    let (count, tail) = split_tail(text)?;
    Some((word_count(count)?, handle_behind(tail, b"-")?))
}

/// What stands before the last five bytes, which a hyphen and a handle take, and these; none exactly
/// where there are fewer.
fn split_tail(text: &[u8]) -> Option<(&[u8], &[u8])>
    ensures value { IfSome result (λ it. text.now ≡ it.0.now ++ it.1.now) }
    ensures only { (front back : List ℕ) → length back ≡ 5 → text.now ≡ front ++ back
        → IsSomeAnd result (λ it. (it.0.now ≡ front) × (it.1.now ≡ back)) }
{
    let end = text.len().checked_sub(HYPHEN_AND_HANDLE)?;
    Some(text.split_at(end))
}

/// The number of words from 1 to 255 that a text spells; none exactly where it spells no such number.
fn word_count(text: &[u8]) -> Option<Count1>
    ensures value { IfSome result (λ count. text.now ≡ decimal count) }
    ensures only { (count : ℕ) → 1 ≤ count → count ≤ 255 → text.now ≡ decimal count
        → result ≡ Some count }
{
    Count1::new(number(text, MOST_WORDS)? as u8)
}

/// Writes what is expected as the next field, as [`expect_of`] reads it. After an error the text may hold
/// a part of it.
pub fn push_next_expect(text: &mut String, expect: &Expect) -> Result<(), OutOfMemory>
    ensures { OnOk result (string_bytes text.new ≡ string_bytes text.old
        ++ space ∷ expect_word expect.now) }
{
    match expect {
        Expect::Rn16 => push_next_name(text, "rn16"),
        Expect::Epc => push_next_name(text, "epc"),
        Expect::Handle => push_next_name(text, "handle"),
        Expect::Same(handle) => push_front(text, "same-", *handle),
        Expect::Words(count, handle) => push_counted(text, *count, *handle),
        Expect::AnyWords(handle) => push_front(text, "any-", *handle),
        Expect::Header(handle) => push_front(text, "header-", *handle),
    }
}

/// Writes a field that is a front and a handle.
fn push_front(text: &mut String, front: &str, handle: u16) -> Result<(), OutOfMemory>
    ensures { OnOk result (string_bytes text.new ≡ string_bytes text.old
        ++ space ∷ (front.now ++ hex_word handle)) }
{
    push_next_name(text, front)?;
    push_word(text, handle)
}

/// Writes the field `words-N-HHHH`.
fn push_counted(text: &mut String, count: Count1, handle: u16) -> Result<(), OutOfMemory>
    ensures { OnOk result (string_bytes text.new ≡ string_bytes text.old
        ++ space ∷ (codes "words-" ++ (decimal count ++ (codes "-" ++ hex_word handle)))) }
{
    push_next_name(text, "words-")?;
    push_number(text, u32::from(count.get()))?;
    text.push('-')?;
    push_word(text, handle)
}
