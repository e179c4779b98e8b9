//! Replies, read from the fields of a line. Nothing here takes memory.
ghost use Rattle.std.specs.Prelude.{◌≡◌, ◌≢◌, ◌<◌, ◌^◌, ℕ, List, [], ◌∷◌, IfSome, IfNone, IfOk, IfErr, IsOkAnd};
ghost use Rattle.text_fields.specs.Hexadecimal.{hex_byte, hex_word, hex_words};
ghost use Rattle.text_fields.specs.NamedFields.{AreFilled};
ghost use Rattle.text_fields.specs.WordLists.{IsWordList};
ghost use Rattle.reply_grammar.specs.declared.expected.Reply.{Reply};
ghost use Rattle.wire_text.specs.ReplyText.{IsFaultyReply, IsReplyBehind, IsReplyText, other_reply_fields, reply_field_count};

use crate::reply_kinds::{ReplyKind, field_count, reply_named};
use crate::reply_lists::{epc_of, read_words_of};
use reply_grammar::{ReadWords, Reply};
use text_fields::{Fields, FieldsFault, are_filled, byte, one_field, two_fields, word};

/// The word that the one field behind the name of a reply spells.
fn read_word(fields: Fields) -> Option<u16>
    requires { AreFilled 1 fields }
    ensures value { IfSome result (λ rn. fields.entry ≡ hex_word rn ∷ []) }
    ensures none { IfNone result ((rn : ℕ) → rn < 2 ^ 16 → fields.entry ≢ hex_word rn ∷ []) }
{
    word(one_field(fields)?)
}

/// The PC and the EPC that the fields behind `epc` spell.
fn read_epc(fields: Fields) -> Option<Reply>
    requires { AreFilled 2 fields }
    ensures value { IfSome result (IsReplyBehind ReplyKind.Epc fields.entry) }
    ensures none { IfNone result ((pc : ℕ) (epc : List ℕ) → pc < 2 ^ 16 → IsWordList 0 31 epc
        → fields.entry ≢ other_reply_fields (Reply.Epc pc epc)) }
{
    let (pc, epc) = two_fields(fields)?;
    Some(Reply::Epc {
        pc: word(pc)?,
        epc: epc_of(epc)?,
    })
}

/// The words that the field behind `words` spells.
fn read_words(fields: Fields) -> Option<ReadWords>
    requires { AreFilled 1 fields }
    ensures value { IfSome result
        (λ words. (fields.entry ≡ hex_words words ∷ []) × IsWordList 1 512 words) }
    ensures none { IfNone result
        ((words : List ℕ) → IsWordList 1 512 words → fields.entry ≢ hex_words words ∷ []) }
{
    read_words_of(one_field(fields)?)
}

/// The error code that the field behind `error` spells.
fn read_code(fields: Fields) -> Option<u8>
    requires { AreFilled 1 fields }
    ensures value { IfSome result (λ code. fields.entry ≡ hex_byte code ∷ []) }
    ensures none { IfNone result ((code : ℕ) → code < 2 ^ 8 → fields.entry ≢ hex_byte code ∷ []) }
{
    byte(one_field(fields)?)
}

/// The reply that the fields behind its name spell.
fn read_behind(kind: ReplyKind, fields: Fields) -> Option<Reply>
    requires { AreFilled (reply_field_count kind) fields }
    ensures value { IfSome result (IsReplyBehind kind fields.entry) }
    ensures none { IfNone result ((reply : Reply) → ¬ IsReplyBehind kind fields.entry reply) }
{
    match kind {
        ReplyKind::Rn16 => Some(Reply::Rn16(read_word(fields)?)),
        ReplyKind::Epc => read_epc(fields),
        ReplyKind::Handle => Some(Reply::Handle(read_word(fields)?)),
        ReplyKind::Words => Some(Reply::Words(read_words(fields)?)),
        ReplyKind::Header => Some(Reply::Header),
        ReplyKind::Error => Some(Reply::Error(read_code(fields)?)),
    }
}

/// The reply that fields spell: its name and its fields, as [`push_reply`](crate::push_reply) writes them. Whether its PC
/// counts the words of its EPC, and whether it suits what is expected, is not asked.
///
/// # Errors
///
/// The first reason for which the fields spell no reply: [`FieldsFault::Word`] where the first field is the name
/// of none; [`FieldsFault::Shape`] where there is no field, or the number of those behind the name is wrong or
/// one is empty; [`FieldsFault::Number`] where one isn't of its form or in its range.
pub fn read_reply(mut fields: Fields) -> Result<Reply, FieldsFault>
    // What is read is spelled so.
    ensures ok { IfOk result (IsReplyText fields.entry) }
    // What is spelled so is read.
    ensures only { (reply : Reply) → IsReplyText fields.entry reply
        → IsOkAnd result (λ it. it ≡ reply) }
    ensures refused { IfErr result (IsFaultyReply fields.entry) }
{
    let Some(name) = fields.next() else {
        return Err(FieldsFault::Shape);
    };
    let Some(kind) = reply_named(name) else {
        return Err(FieldsFault::Word);
    };
    if !are_filled(&fields, field_count(kind)) {
        return Err(FieldsFault::Shape);
    }
    match read_behind(kind, fields) {
        Some(reply) => Ok(reply),
        None => Err(FieldsFault::Number),
    }
}
