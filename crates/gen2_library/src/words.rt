//! The words of a call: one text, with a space between two of them.
ghost use Rattle.std.specs.Prelude.{◌≡◌, [], ◌∷◌, ◌++◌, All, IfOk, IfSome, IsFalse, IsTrue, OnOk, Some};
ghost use Rattle.std.specs.Str.{IsUtf8};
ghost use Rattle.gen2_library.specs.LentRoom.{HasUnreadableWord};
ghost use Rattle.text_fields.specs.Lines.{fields_of};
ghost use Rattle.top_call.specs.Form.{texts, SpellForm};
ghost use Rattle.top_call.specs.declared.forms.Form.{Form};

use std::alloc::{AllocError, Global};
use std::str;
use text_fields::Fields;
use top_call::{Form, form_of_one, form_of_three, form_of_two};

/// Whether a word of a text isn't UTF-8.
pub fn has_unreadable_word(text: &[u8]) -> bool
    ensures one { IsTrue result → HasUnreadableWord text.now }
    ensures none { IsFalse result → All IsUtf8 (fields_of text.now) }
{
    let mut fields = Fields::new(text);
    while let Some(field) = fields.next() {
        let Ok(_) = str::from_utf8(field) else {
            return true;
        };
    }
    false
}

/// The form of the words of a text; none exactly where they are the spelling of no form. It takes no memory.
pub fn form_in(text: &[u8]) -> Option<Form>
    ensures found { IfSome result (SpellForm (fields_of text.now)) }
    ensures only { (form : Form) → SpellForm (fields_of text.now) form → result ≡ Some form }
{
    let mut fields = Fields::new(text);
    let word = fields.next()?;
    let Some(behind) = fields.next() else {
        return form_of_one(word);
    };
    let Some(last) = fields.next() else {
        return form_of_two(word, behind);
    };
    match fields.next() {
        Some(_) => None,
        None => form_of_three(word, behind, last),
    }
}

/// Adds a word to the words of a call.
fn add(alloc: Global, words: &mut Vec<String>, word: &str) -> Result<(), AllocError>
    ensures { OnOk result (texts words.new.items ≡ texts words.old.items ++ word.now ∷ []) }
{
    words.push(String::from_str(alloc, word)?)?;
    Ok(())
}

/// The words of a text, each of which is UTF-8.
///
/// # Errors
///
/// There is no memory for them.
pub fn words_of(alloc: Global, text: &[u8]) -> Result<Vec<String>, AllocError>
    requires { All IsUtf8 (fields_of text.now) }
    ensures { IfOk result (λ words. texts words.items ≡ fields_of text.now) }
{
    let mut words = Vec::new(alloc);
    let mut fields = Fields::new(text);
    while let Some(field) = fields.next() {
        match str::from_utf8(field) {
            Ok(word) => add(alloc, &mut words, word)?,
            Err(_) => unreachable!(),
        }
    }
    Ok(words)
}
