//! Bits to replies.
ghost use Rattle.std.specs.Prelude.{◌≡◌, ℕ, ◌+◌, ◌-◌, ◌*◌, ◌≤◌, ◌==◌, ◌↔◌, List, length, take, IsTrue, IfOk, IfErr, OnOk, OnErr, Ok, Err};
ghost use Rattle.bit_strings.specs.NumbersInBits.{value_of, part_of};
ghost use Rattle.reply_grammar.specs.Replies.{AnswersExpected};
ghost use Rattle.reply_grammar.specs.Refusals.{RefusesReply, FitsLength, PassesCheck, PassesHeader, PassesNumber, EndsWithCheck, HasHandle, Passes};
ghost use Rattle.reply_grammar.specs.declared.expected.Expect.TheVariants.{Epc as OneEpc};
ghost use Rattle.reply_grammar.specs.declared.expected.Reply.{Reply};
ghost use Rattle.reply_grammar.specs.declared.expected.Reply.TheVariants.{Rn16, Epc, Handle, Header, Words};
ghost use Rattle.reply_grammar.specs.declared.expected.ReplyRefusal.{ReplyRefusal};
ghost use Rattle.reply_grammar.specs.laws.Reading.{ReadTo};

use crate::expected::{Expect, Reply, ReplyRefusal};
use crate::reply_words::{EpcWords, ReadWords};
use bit_strings::{Bits, word_of};
use gen2_crc::residue_ok;

/// The length of an error: header, code, handle and CRC-16, in bits.
const ERROR_LENGTH: u32 = 41;

/// Takes the bits of a reply apart. What comes back is the one reply that the bits are and that is
/// expected; where there is none, the first refusal that applies, in the order Length, Crc, Header,
/// Number.
pub fn decode_reply(bits: &Bits, expect: &Expect) -> Result<Reply, ReplyRefusal>
    ensures ok { IfOk result (λ reply. AnswersExpected reply expect.now bits.now.items) }
    ensures refused { IfErr result (λ refusal. RefusesReply refusal expect.now bits.now.items) }
    ensures only { (reply : Reply) → AnswersExpected reply expect.now bits.now.items
        → result ≡ Ok reply }
    ensures first { (refusal : ReplyRefusal) → RefusesReply refusal expect.now bits.now.items
        → result ≡ Err refusal }
{
    take_apart(bits, expect)
}

/// Gives the reply in place of another one, as `decode_reply` gives it. A reply has room for the longest list of words, and none is
/// copied so. After a refusal the room is empty: it has the reply without fields.
pub fn decode_reply_to(bits: &Bits, expect: &Expect, reply: &mut Reply) -> Result<(), ReplyRefusal>
    ensures ok { OnOk result (AnswersExpected reply.new expect.now bits.now.items) }
    ensures refused { IfErr result (λ refusal. RefusesReply refusal expect.now bits.now.items) }
    ensures err { OnErr result (reply.new ≡ Header) }
{
    if let Err(refusal) = look_at(bits, expect) {
        *reply = Reply::Header;
        return Err(refusal);
    }
    read_reply_to(bits, expect, reply);
    Ok(())
}

/// Looks, and then reads.
fn take_apart(bits: &Bits, expect: &Expect) -> Result<Reply, ReplyRefusal>
    ensures ok { IfOk result (λ reply. AnswersExpected reply expect.now bits.now.items) }
    ensures refused { IfErr result (λ refusal. RefusesReply refusal expect.now bits.now.items) }
{
    let mut reply = Reply::Header;
    decode_reply_to(bits, expect, &mut reply)?;
    Ok(reply)
}

/// Asks the four things in order.
fn look_at(bits: &Bits, expect: &Expect) -> Result<(), ReplyRefusal>
    ensures ok { OnOk result (Passes expect.now bits.now.items) }
    ensures refused { IfErr result (λ refusal. RefusesReply refusal expect.now bits.now.items) }
{
    if !fits_length(bits, expect) {
        return Err(ReplyRefusal::Length);
    }
    if !passes_check(bits, expect) {
        return Err(ReplyRefusal::Crc);
    }
    if !passes_header(bits, expect) {
        return Err(ReplyRefusal::Header);
    }
    if !passes_number(bits, expect) {
        return Err(ReplyRefusal::Number);
    }
    Ok(())
}

/// Whether the number of bits is one that is allowed.
fn fits_length(bits: &Bits, expect: &Expect) -> bool
    ensures { IsTrue result ↔ FitsLength expect.now bits.now.items }
{
    let length = bits.len();
    match expect {
        Expect::Rn16 => length == 16,
        Expect::Epc => fits_epc(bits),
        Expect::Handle | Expect::Same(_) => length == 32,
        Expect::Words(count, _) => length == 33 + 16 * u32::from(count.get())
            || length == ERROR_LENGTH,
        Expect::AnyWords(_) => fits_any_words(length) || length == ERROR_LENGTH,
        Expect::Header(_) => length == 33 || length == ERROR_LENGTH,
    }
}

/// Whether the number of bits is that of the EPC which the first five bits of its PC count.
fn fits_epc(bits: &Bits) -> bool
    ensures { IsTrue result ↔ (length bits.now.items ≡ 32 + 16 * value_of (take 5 bits.now.items)) }
{
    match bits.field(0, 5) {
        Some(words) => bits.len() == 32 + 16 * words,
        None => false,
    }
}

/// Whether a length is that of 1 to 512 words with header, handle and CRC-16.
fn fits_any_words(length: u32) -> bool
    ensures { IsTrue result
        ↔ ((count : ℕ) × (1 ≤ count) × (count ≤ 512) × (length ≡ 33 + 16 * count)) }
{
    if length < 49 {
        return false;
    }
    if length > 8225 {
        return false;
    }
    length % 16 == 1
}

/// Whether the last 16 bits are the CRC-16 of the rest, where a reply has one.
fn passes_check(bits: &Bits, expect: &Expect) -> bool
    requires { FitsLength expect.now bits.now.items }
    ensures { IsTrue result ↔ PassesCheck expect.now bits.now.items }
{
    match expect {
        Expect::Rn16 => true,
        _ => ends_with_check(bits),
    }
}

/// Whether the last 16 bits are the CRC-16 of the rest.
fn ends_with_check(bits: &Bits) -> bool
    requires { 16 ≤ length bits.now.items }
    ensures { IsTrue result ↔ EndsWithCheck bits.now.items }
{
    residue_ok(bits)
}

/// Whether the header bit says error exactly at the length of an error, where a reply has one.
fn passes_header(bits: &Bits, expect: &Expect) -> bool
    ensures { IsTrue result ↔ PassesHeader expect.now bits.now.items }
{
    match expect {
        Expect::Rn16 | Expect::Epc | Expect::Handle | Expect::Same(_) => true,
        Expect::Words(..) | Expect::AnyWords(_) | Expect::Header(_) => bits.get(0)
            == Some(is_error(bits)),
    }
}

/// Whether the length is that of an error.
fn is_error(bits: &Bits) -> bool
    ensures { result ≡ (length bits.now.items == 41) }
{
    bits.len() == ERROR_LENGTH
}

/// Whether the handle is the one that is expected, where one is.
fn passes_number(bits: &Bits, expect: &Expect) -> bool
    requires { FitsLength expect.now bits.now.items }
    ensures { IsTrue result ↔ PassesNumber expect.now bits.now.items }
{
    match expect {
        Expect::Rn16 | Expect::Epc | Expect::Handle => true,
        Expect::Same(handle)
        | Expect::Words(_, handle)
        | Expect::AnyWords(handle)
        | Expect::Header(handle) => has_handle(bits, *handle),
    }
}

/// Whether the 16 bits before the CRC-16 are this handle.
fn has_handle(bits: &Bits, handle: u16) -> bool
    requires { 32 ≤ length bits.now.items }
    ensures { IsTrue result ↔ HasHandle handle bits.now.items }
{
    word_at(bits, bits.len() - 32) == handle
}

/// The word at a place.
fn word_at(bits: &Bits, at: u32) -> u16
    requires { at + 16 ≤ length bits.now.items }
    ensures { result ≡ value_of (part_of bits.now.items at 16) }
{
    let from = at as usize;
    word_of(&bits.as_slice()[from..from + 16])
}

/// The PC and the EPC that bits are which pass as these.
fn read_epc(bits: &Bits) -> (u16, EpcWords)
    requires { Passes OneEpc bits.now.items }
    ensures { AnswersExpected (Epc result.0 result.1) OneEpc bits.now.items }
{
    let pc = word_at(bits, 0);
    let epc = epc_words(bits);
    (pc, epc)
}

/// Gives the PC and the EPC that bits are which pass as these, in place of another reply. It stands alone, so that room for
/// a list is made ready for an EPC alone.
fn read_epc_to(bits: &Bits, reply: &mut Reply)
    requires { Passes OneEpc bits.now.items }
    ensures { AnswersExpected reply.new OneEpc bits.now.items }
{
    let (pc, epc) = read_epc(bits);
    match reply {
        Reply::Epc {
            pc: last_pc,
            epc: last,
        } => {
            *last_pc = pc;
            *last = epc;
        }
        _ => put_epc(pc, epc, reply),
    }
}

/// Puts a PC and an EPC in place of a reply of another kind. It stands alone, so that room for a whole reply is made ready here alone.
#[inline(never)]
fn put_epc(pc: u16, epc: EpcWords, reply: &mut Reply)
    ensures { reply.new ≡ Epc pc epc }
{
    *reply = Reply::Epc { pc, epc };
}

/// Gives the reply that bits are which pass, in place of another.
fn read_reply_to(bits: &Bits, expect: &Expect, reply: &mut Reply)
    requires { Passes expect.now bits.now.items }
    ensures { AnswersExpected reply.new expect.now bits.now.items }
{
    match expect {
        Expect::Rn16 => put_rn16(word_at(bits, 0), reply),
        Expect::Epc => read_epc_to(bits, reply),
        Expect::Handle => put_handle(word_at(bits, 0), reply),
        Expect::Same(_) => put_handle(word_at(bits, 0), reply),
        Expect::Words(count, _) => {
            if is_error(bits) {
                *reply = Reply::Error(error_code(bits));
                return;
            }
            read_words_to(bits, u32::from(count.get()), reply);
        }
        Expect::AnyWords(_) => {
            if is_error(bits) {
                *reply = Reply::Error(error_code(bits));
                return;
            }
            read_words_to(bits, (bits.len() - 33) / 16, reply);
        }
        Expect::Header(_) => {
            if is_error(bits) {
                *reply = Reply::Error(error_code(bits));
                return;
            }
            put_header(reply);
        }
    }
}

/// Puts an RN16 in place of another reply. What was an RN16 has its number changed alone, as a reply made anew has all of its
/// room made ready.
fn put_rn16(rn: u16, reply: &mut Reply)
    ensures { reply.new ≡ Rn16 rn }
{
    match reply {
        Reply::Rn16(last) => *last = rn,
        _ => *reply = Reply::Rn16(rn),
    }
}

/// Puts a handle in place of another reply, likewise.
fn put_handle(handle: u16, reply: &mut Reply)
    ensures { reply.new ≡ Handle handle }
{
    match reply {
        Reply::Handle(last) => *last = handle,
        _ => *reply = Reply::Handle(handle),
    }
}

/// Puts the answer of a header bit alone in place of another reply, if it does not stand there already.
fn put_header(reply: &mut Reply)
    ensures { reply.new ≡ Header }
{
    match reply {
        Reply::Header => {}
        _ => *reply = Reply::Header,
    }
}

/// The error code behind the header bit.
fn error_code(bits: &Bits) -> u8
    requires { length bits.now.items ≡ 41 }
    ensures { result ≡ value_of (part_of bits.now.items 1 8) }
{
    bits.field(1, 8).unwrap() as u8
}

/// The words between the PC and the CRC-16.
fn epc_words(bits: &Bits) -> EpcWords
    requires { FitsLength OneEpc bits.now.items }
    ensures { ReadTo bits.now.items 16 (length bits.now.items - 16) result }
{
    let mut words = EpcWords::new();
    let end = bits.len() - 16;
    let mut at = 16;
    while at < end {
        words.push_reserved(word_at(bits, at));
        at += 16;
    }
    words
}

/// Gives the words between the header bit and the handle, in place of another reply.
fn read_words_to(bits: &Bits, count: u32, reply: &mut Reply)
    requires few { count ≤ 512 }
    requires whole { length bits.now.items ≡ 33 + 16 * count }
    ensures { (words : List ℕ) × (reply.new ≡ Words words)
        × ReadTo bits.now.items 1 (length bits.now.items - 32) words }
{
    // The room of words is taken over as it is.
    if let Reply::Words(words) = reply {
        put_words(bits, count, words);
        return;
    }
    *reply = Reply::Words(ReadWords::new());
    match reply {
        Reply::Words(words) => put_words(bits, count, words),
        _ => unreachable!(),
    }
}

/// Puts the words between the header bit and the handle in place of others.
fn put_words(bits: &Bits, count: u32, words: &mut ReadWords)
    requires few { count ≤ 512 }
    requires whole { length bits.now.items ≡ 33 + 16 * count }
    ensures { ReadTo bits.now.items 1 (length bits.now.items - 32) words.new }
{
    words.clear();
    let end = 1 + 16 * count;
    let mut at = 1;
    while at < end {
        words.push_reserved(word_at(bits, at));
        at += 16;
    }
}
