//! Fields, written behind others: each is a space and the field.
ghost use Rattle.std.specs.Prelude.{◌≡◌, ◌++◌, [], ◌∷◌, map, OnOk};
ghost use Rattle.std.specs.String.{string_bytes};
ghost use Rattle.std.specs.Fmt.{decimal};
ghost use Rattle.text_fields.specs.Binary.{binary};
ghost use Rattle.text_fields.specs.Hexadecimal.{hex_word, hex_words};
ghost use Rattle.text_fields.specs.Lines.{fields_behind, line_with, space};

use crate::binary::push_bits;
use crate::decimal_numbers::{push_long_number, push_number};
use crate::hexadecimal::{push_word, push_words};
use bit_strings::OutOfMemory;

/// Writes a name as the next field. After an error the text may hold a part of it.
pub fn push_next_name(text: &mut String, name: &str) -> Result<(), OutOfMemory>
    ensures { OnOk result (string_bytes text.new ≡ string_bytes text.old ++ space ∷ name.now) }
{
    text.push(' ')?;
    text.push_str(name)
}

/// Writes a number as the next field, in decimal digits. After an error the text may hold a part of it.
pub fn push_next_number(text: &mut String, number: u32) -> Result<(), OutOfMemory>
    ensures { OnOk result (string_bytes text.new ≡ string_bytes text.old
        ++ space ∷ decimal number) }
{
    text.push(' ')?;
    push_number(text, number)
}

/// Writes a number of 64 bits as the next field, in decimal digits. After an error the text may hold a
/// part of it.
pub fn push_next_long_number(text: &mut String, number: u64) -> Result<(), OutOfMemory>
    ensures { OnOk result (string_bytes text.new ≡ string_bytes text.old
        ++ space ∷ decimal number) }
{
    text.push(' ')?;
    push_long_number(text, number)
}

/// Writes numbers as the next fields, in decimal digits. After an error the text may hold a part of them.
pub fn push_next_numbers(text: &mut String, numbers: &[u32]) -> Result<(), OutOfMemory>
    ensures { OnOk result (string_bytes text.new ≡ string_bytes text.old
        ++ fields_behind (map decimal numbers.now)) }
{
    for number in numbers {
        push_next_number(text, *number)?;
    }
    Ok(())
}

/// Writes a word as the next field, in hexadecimal digits. After an error the text may hold a part of it.
pub fn push_next_word(text: &mut String, word: u16) -> Result<(), OutOfMemory>
    ensures { OnOk result (string_bytes text.new ≡ string_bytes text.old ++ space ∷ hex_word word) }
{
    text.push(' ')?;
    push_word(text, word)
}

/// Writes words as the next field, in hexadecimal digits, or a hyphen for none. After an error the text
/// may hold a part of them.
pub fn push_next_words(text: &mut String, words: &[u16]) -> Result<(), OutOfMemory>
    ensures { OnOk result (string_bytes text.new ≡ string_bytes text.old
        ++ space ∷ hex_words words.now) }
{
    text.push(' ')?;
    push_words(text, words)
}

/// Writes bits as the next field, in binary digits, or a hyphen for none. After an error the text may
/// hold a part of them.
pub fn push_next_bits(text: &mut String, bits: &[bool]) -> Result<(), OutOfMemory>
    ensures { OnOk result (string_bytes text.new ≡ string_bytes text.old
        ++ space ∷ binary bits.now) }
{
    text.push(' ')?;
    push_bits(text, bits)
}

/// Writes a name and a number behind it, in decimal digits. After an error the text may hold a part of
/// them.
pub fn push_named_number(text: &mut String, name: &str, number: u32) -> Result<(), OutOfMemory>
    ensures { OnOk result (string_bytes text.new ≡ string_bytes text.old
        ++ line_with (name.now ∷ decimal number ∷ [])) }
{
    text.push_str(name)?;
    push_next_number(text, number)
}

/// Writes a name and a word behind it, in hexadecimal digits. After an error the text may hold a part of
/// them.
pub fn push_named_word(text: &mut String, name: &str, word: u16) -> Result<(), OutOfMemory>
    ensures { OnOk result (string_bytes text.new ≡ string_bytes text.old
        ++ line_with (name.now ∷ hex_word word ∷ [])) }
{
    text.push_str(name)?;
    push_next_word(text, word)
}
