//! Values to bits, most significant bit first, behind those that stand there.
ghost use Rattle.std.specs.Prelude.{◌≡◌, ◌+◌, ◌*◌, ◌≤◌, ◌^◌, ◌<◌, ◌++◌, ◌∷◌, [], length};
ghost use Rattle.std.specs.List.{AllByRecursion};
ghost use Rattle.bit_strings.specs.NumbersInBits.{field_of};
ghost use Rattle.bit_strings.specs.Ebv.{ebv_of};
ghost use Rattle.bit_strings.specs.Words.{bits_of_words};
ghost use Rattle.gen2_crc.specs.Crc.{crc5_of, crc16_of};
ghost use Rattle.command_grammar.specs.Commands.{IsWord, bits_of_bank, bits_of_m, bits_of_query_target, bits_of_sel, code_of};

use crate::choices::{bank_bits, m_bits, query_target_bits, sel_bits};
use crate::kinds::CommandKind;
use bit_strings::{Bits, Code, Pointer, Session};
use command_fields::{Bank, Sel, Side};
use gen2_crc::{crc5_of_bits, crc16_of_bits};

/// Adds the `width` bits of `value`.
pub(crate) fn put(out: &mut Bits, value: u32, width: u32)
    requires narrow { width ≤ 31 }
    requires fits { value < 2 ^ width }
    requires room { length out.old.items + width ≤ out.old.capacity }
    ensures items { out.new.items ≡ out.old.items ++ field_of value width }
    ensures count { length out.new.items ≡ length out.old.items + width }
    ensures capacity { out.new.capacity ≡ out.old.capacity }
{
    out.put_field_reserved(value, width);
}

/// Writes the code of a command of this kind, in place of what stood in `out`.
#[inline]
pub(crate) fn begin(out: &mut Bits, kind: CommandKind)
    requires { length (code_of kind) ≤ out.old.capacity }
    ensures { out.new ≡ record out.old { items = code_of kind } }
{
    out.clear();
    put_bits(out, kind.layout().code);
}

/// Writes the code of a command of this kind and where it goes in the tag's memory, in place of what stood in `out`: a bank,
/// and a pointer into it.
pub(crate) fn begin_at(out: &mut Bits, kind: CommandKind, bank: Bank, pointer: Pointer)
    requires { length (code_of kind) + 34 ≤ out.old.capacity }
    ensures items { out.new.items ≡ (code_of kind ++ bits_of_bank bank) ++ ebv_of pointer }
    ensures count { length out.new.items ≤ length (code_of kind) + 34 }
    ensures capacity { out.new.capacity ≡ out.old.capacity }
    ensures range { pointer < 2 ^ 28 }
{
    begin(out, kind);
    put_pointer(out, bank_bits(bank), pointer);
}

/// Adds these bits to the bits of a command, which have room for them.
pub(crate) fn put_bits(out: &mut Bits, bits: &[bool])
    requires { length out.old.items + length bits.now ≤ out.old.capacity }
    ensures items { out.new.items ≡ out.old.items ++ bits.now }
    ensures count { length out.new.items ≡ length out.old.items + length bits.now }
    ensures capacity { out.new.capacity ≡ out.old.capacity }
{
    out.put_all_reserved(bits);
}

/// Adds the 16 bits of a word.
pub(crate) fn put_word(out: &mut Bits, word: u16)
    requires { length out.old.items + 16 ≤ out.old.capacity }
    ensures items { out.new.items ≡ out.old.items ++ field_of word 16 }
    ensures count { length out.new.items ≡ length out.old.items + 16 }
    ensures capacity { out.new.capacity ≡ out.old.capacity }
{
    out.put_u16_reserved(word);
}

/// Adds the 16 bits of each of these words to the bits of a command, which have room for them.
pub(crate) fn put_words(out: &mut Bits, words: &[u16])
    requires { length out.old.items + 16 * length words.now ≤ out.old.capacity }
    ensures items { out.new.items ≡ out.old.items ++ bits_of_words words.now }
    ensures count { length out.new.items ≡ length out.old.items + 16 * length words.now }
    ensures capacity { out.new.capacity ≡ out.old.capacity }
    ensures words { AllByRecursion IsWord words.now }
{
    out.put_words_reserved(words);
}

/// Adds a bank, by its bits, and a pointer into it as an extensible bit vector of at most four blocks.
pub(crate) fn put_pointer(out: &mut Bits, bank: [bool; 2], pointer: Pointer)
    requires { length out.old.items + 34 ≤ out.old.capacity }
    ensures items { out.new.items ≡ (out.old.items ++ bank) ++ ebv_of pointer }
    ensures count { length out.new.items ≤ length out.old.items + 34 }
    ensures capacity { out.new.capacity ≡ out.old.capacity }
    ensures range { pointer < 2 ^ 28 }
{
    put_bits(out, &bank);
    out.put_ebv_reserved(pointer.get());
}

/// Adds the CRC-5 of the bits before.
pub(crate) fn put_crc5(out: &mut Bits)
    requires { length out.old.items + 5 ≤ out.old.capacity }
    ensures items { out.new.items ≡ out.old.items ++ crc5_of out.old.items }
    ensures capacity { out.new.capacity ≡ out.old.capacity }
{
    let check = crc5_of_bits(out.as_slice());
    put(out, u32::from(check), 5);
}

/// Adds the CRC-16 of the bits before.
pub(crate) fn put_crc16(out: &mut Bits)
    requires { length out.old.items + 16 ≤ out.old.capacity }
    ensures items { out.new.items ≡ out.old.items ++ crc16_of out.old.items }
    ensures capacity { out.new.capacity ≡ out.old.capacity }
{
    let check = crc16_of_bits(out.as_slice());
    put_word(out, check);
}

/// Adds the tag's RN16 or handle and the CRC-16, with which each access command ends.
pub(crate) fn put_handle(out: &mut Bits, rn: u16)
    requires { length out.old.items + 32 ≤ out.old.capacity }
    ensures items { out.new.items ≡ (out.old.items ++ field_of rn 16)
        ++ crc16_of (out.old.items ++ field_of rn 16) }
    ensures capacity { out.new.capacity ≡ out.old.capacity }
{
    put_word(out, rn);
    put_crc16(out);
}

/// Adds how the tags are to reply to a Query: DR, M and TRext (6.3.2.11.2.1).
pub(crate) fn put_reply_form(out: &mut Bits, dr: bool, code: Code, trext: bool)
    requires { length out.old.items + 4 ≤ out.old.capacity }
    ensures items { out.new.items ≡ out.old.items ++ (dr ∷ (bits_of_m code ++ trext ∷ [])) }
    ensures count { length out.new.items ≡ length out.old.items + 4 }
    ensures capacity { out.new.capacity ≡ out.old.capacity }
{
    let [first, second] = m_bits(code);
    put_bits(out, &[dr, first, second, trext]);
}

/// Adds which tags take part in the round that a Query begins: Sel, Session and Target (6.3.2.11.2.1).
pub(crate) fn put_participants(out: &mut Bits, sel: Sel, session: Session, target: Side)
    requires { length out.old.items + 5 ≤ out.old.capacity }
    ensures items { out.new.items ≡ out.old.items
        ++ (bits_of_sel sel ++ (field_of session 2 ++ bits_of_query_target target)) }
    ensures count { length out.new.items ≡ length out.old.items + 5 }
    ensures capacity { out.new.capacity ≡ out.old.capacity }
    ensures range { session ≤ 3 }
{
    put_bits(out, &sel_bits(sel));
    put(out, u32::from(session.get()), 2);
    put_bits(out, &query_target_bits(target));
}
