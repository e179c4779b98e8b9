//! The fields with which a line tells how a tag's reply is heard: `CODE TREXT EXPECT`.
ghost use Rattle.std.specs.Prelude.{◌≡◌, Bool, [], ◌∷◌, IfSome, Some};
ghost use Rattle.bit_strings.specs.declared.code.Code.{Code};
ghost use Rattle.text_fields.specs.Binary.{binary_digit};
ghost use Rattle.text_fields.specs.CodeNames.{code_word};
ghost use Rattle.reply_grammar.specs.declared.expected.Expect.{Expect};
ghost use Rattle.wire_text.specs.ReplyText.{IsExpect, expect_word};

use bit_strings::Code;
use reply_grammar::Expect;
use text_fields::{code_named, one_bit};
use wire_text::expect_of;

/// The line code, TRext and expectation that three fields spell; none exactly where one of them spells none.
pub fn heard_as(code: &[u8], trext: &[u8], expect: &[u8]) -> Option<(Code, bool, Expect)>
    ensures value { IfSome result
        (λ it. (code.now ≡ code_word it.0) × (trext.now ≡ binary_digit it.1 ∷ [])
        × (expect.now ≡ expect_word it.2) × IsExpect it.2) }
    ensures only { (named : Code) → (extended : Bool) → (expected : Expect)
        → code.now ≡ code_word named → trext.now ≡ binary_digit extended ∷ []
        → IsExpect expected → expect.now ≡ expect_word expected
        → result ≡ Some (named, extended, expected) }
{
    let code = code_named(code)?;
    let trext = one_bit(trext)?;
    let expect = expect_of(expect)?;
    Some((code, trext, expect))
}
