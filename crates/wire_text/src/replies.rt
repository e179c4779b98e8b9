//! Replies, and why bits are none that is expected, as lines of a text.
ghost use Rattle.std.specs.Prelude.{◌≡◌, ◌++◌, OnOk};
ghost use Rattle.std.specs.String.{string_bytes};
ghost use Rattle.wire_text.specs.ReplyText.{refusal_line, reply_line};

use bit_strings::OutOfMemory;
use reply_grammar::{Reply, ReplyRefusal};
use text_fields::{push_byte_hex, push_named_word, push_next_words};

/// Writes a reply at the end of the text, without a line feed. After an error the text may hold a part
/// of it.
///
/// Profile: `rn16 HHHH`, `epc PC EPC`, `handle HHHH`, `words WORDS`, `header` and `error CC`. A word is
/// four upper-case hexadecimal digits and an error code two; words stand without anything between them,
/// and no words are a hyphen.
pub fn push_reply(text: &mut String, reply: &Reply) -> Result<(), OutOfMemory>
    ensures { OnOk result (string_bytes text.new ≡ string_bytes text.old ++ reply_line reply.now) }
{
    match reply {
        Reply::Rn16(rn) => push_named_word(text, "rn16", *rn),
        Reply::Epc { pc, epc } => {
            push_named_word(text, "epc", *pc)?;
            push_next_words(text, epc.as_slice())
        }
        Reply::Handle(rn) => push_named_word(text, "handle", *rn),
        Reply::Words(words) => {
            text.push_str("words")?;
            push_next_words(text, words.as_slice())
        }
        Reply::Header => text.push_str("header"),
        Reply::Error(code) => {
            text.push_str("error ")?;
            push_byte_hex(text, *code)
        }
    }
}

/// Writes why bits are no reply that is expected at the end of the text, without a line feed. After an
/// error the text may hold a part of it.
///
/// Profile: `refused length`, `refused crc`, `refused header` and `refused number`.
pub fn push_reply_refusal(text: &mut String, refusal: ReplyRefusal) -> Result<(), OutOfMemory>
    ensures { OnOk result (string_bytes text.new ≡ string_bytes text.old ++ refusal_line refusal) }
{
    text.push_str(match refusal {
        ReplyRefusal::Length => "refused length",
        ReplyRefusal::Crc => "refused crc",
        ReplyRefusal::Header => "refused header",
        ReplyRefusal::Number => "refused number",
    })
}
