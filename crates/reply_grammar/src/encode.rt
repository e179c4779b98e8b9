//! Replies to bits.
ghost use Rattle.std.specs.Prelude.{◌≡◌, ◌+◌, ◌*◌, ◌/◌, ◌^◌, ◌<◌, ◌≤◌, [], ◌∷◌, ◌++◌, length};
ghost use Rattle.bit_strings.specs.NumbersInBits.{field_of};
ghost use Rattle.reply_grammar.specs.Replies.{AnswersExpected, CanBeSent, Carries, FitsBank, IsReply, Suits, longest_reply, spelling, with_check, reply_room};
ghost use Rattle.reply_grammar.specs.declared.expected.Expect.{Expect};
ghost use Rattle.reply_grammar.specs.declared.expected.Reply.TheVariants.{Rn16, Epc, Handle, Words, Header, Error};

use crate::expected::Reply;
use crate::reply_words::EpcWords;
use bit_strings::Bits;
use gen2_crc::crc16;

/// Writes the bits of a reply, of which there are 16 to 8,225. The handle is used by `Words`,
/// `Header` and `Error`. A PC must count the words of its EPC in its first five bits, and a Read must
/// bring at least one word.
pub fn encode_reply(reply: &Reply, handle: u16, out: &mut Bits)
    requires room { reply_room ≤ out.old.capacity }
    requires sendable { CanBeSent reply.now }
    ensures bits { out.new ≡ record out.old { items = spelling reply.now handle } }
    ensures in_range { IsReply reply.now }
    ensures few_words { FitsBank reply.now }
    ensures least { 16 ≤ length out.new.items }
    ensures most { length out.new.items ≤ longest_reply }
    ensures answers { (expect : Expect) → Suits reply.now expect → Carries expect handle
        → AnswersExpected reply.now expect out.new.items }
{
    write_reply(reply, handle, out);
}

/// Writes the bits of the reply that is an RN16. A `Reply` has room for the longest list of words, so it isn't made
/// for so short a reply.
pub fn encode_rn16(rn: u16, out: &mut Bits)
    requires { 16 ≤ out.old.capacity }
    ensures { out.new ≡ record out.old { items = spelling (Rn16 rn) 0 } }
{
    out.clear();
    out.put_u16_reserved(rn);
}

/// Writes the bits of the reply that is a PC and its EPC, for which no `Reply` is made either. The PC must count the
/// words of the EPC in its first five bits.
pub fn encode_epc(pc: u16, epc: &EpcWords, out: &mut Bits)
    requires room { reply_room ≤ out.old.capacity }
    requires counted { length epc.now ≡ pc / 2 ^ 11 }
    ensures bits { out.new ≡ record out.old { items = spelling (Epc pc epc.now) 0 } }
    ensures in_range { IsReply (Epc pc epc.now) }
{
    out.clear();
    out.put_u16_reserved(pc);
    out.put_words_reserved(epc.as_slice());
    put_check(out);
}

/// Writes the bits of the reply that is a handle or a new RN16 (6.3.2.11.3.1 Req_RN), for which no `Reply` is made.
pub fn encode_handle(number: u16, out: &mut Bits)
    requires { 32 ≤ out.old.capacity }
    ensures { out.new ≡ record out.old { items = spelling (Handle number) 0 } }
{
    out.clear();
    out.put_u16_reserved(number);
    put_check(out);
}

/// Writes the bits of the reply that brings the words of a Read (6.3.2.11.3.2 Read), for which no `Reply` is made.
pub fn encode_words(words: &[u16], handle: u16, out: &mut Bits)
    requires room { reply_room ≤ out.old.capacity }
    requires few { length words.now ≤ 512 }
    ensures bits { out.new ≡ record out.old { items = spelling (Words words.now) handle } }
    ensures in_range { IsReply (Words words.now) }
{
    out.clear();
    out.push_reserved(false);
    out.put_words_reserved(words);
    out.put_u16_reserved(handle);
    put_check(out);
}

/// Writes the bits of the reply that says success by its header bit (6.3.2.11.3.3 Write), for which no `Reply` is made.
pub fn encode_header(handle: u16, out: &mut Bits)
    requires { 33 ≤ out.old.capacity }
    ensures { out.new ≡ record out.old { items = spelling Header handle } }
{
    out.clear();
    out.push_reserved(false);
    out.put_u16_reserved(handle);
    put_check(out);
}

/// Writes the bits of the reply that is an error code (Annex I), for which no `Reply` is made.
pub fn encode_error(code: u8, handle: u16, out: &mut Bits)
    requires { 41 ≤ out.old.capacity }
    ensures { out.new ≡ record out.old { items = spelling (Error code) handle } }
{
    out.clear();
    out.push_reserved(true);
    put_code(out, code);
    out.put_u16_reserved(handle);
    put_check(out);
}

/// Writes the bits of a reply.
fn write_reply(reply: &Reply, handle: u16, out: &mut Bits)
    requires room { reply_room ≤ out.old.capacity }
    requires sendable { CanBeSent reply.now }
    ensures bits { out.new ≡ record out.old { items = spelling reply.now handle } }
    ensures in_range { IsReply reply.now }
    ensures few_words { FitsBank reply.now }
{
    match reply {
        Reply::Rn16(rn) => encode_rn16(*rn, out),
        Reply::Epc { pc, epc } => encode_epc(*pc, epc, out),
        Reply::Handle(number) => encode_handle(*number, out),
        Reply::Words(words) => encode_words(words.as_slice(), handle, out),
        Reply::Header => encode_header(handle, out),
        Reply::Error(code) => encode_error(*code, handle, out),
    }
}

/// Adds an error code, for which there is room.
fn put_code(out: &mut Bits, code: u8)
    requires { length out.old.items + 8 ≤ out.old.capacity }
    ensures { out.new ≡ record out.old { items = out.old.items ++ field_of code 8 } }
{
    out.put_field_reserved(u32::from(code), 8);
}

/// Adds the CRC-16 of the bits, for which there is room.
fn put_check(out: &mut Bits)
    requires { length out.old.items + 16 ≤ out.old.capacity }
    ensures { out.new ≡ record out.old { items = with_check out.old.items } }
{
    let check = crc16(out, out.len());
    out.put_u16_reserved(check);
}
