//! The decoder of a whole list of levels.
ghost use Rattle.std.specs.Prelude.{◌≡◌, ◌≤◌, ◌<◌, ◌+◌, ◌*◌, ◌++◌, ℕ, List, Bool, [], length, take, IsTrue, ◌↔◌, IfSome, IfOk, OnOk, IfErr, OnErr, IsOk, IsErr};
ghost use Rattle.line_code.specs.Table.{Context};
ghost use Rattle.line_code.specs.Stream.{IsStream, Streams, blocks};
ghost use Rattle.line_code.specs.TableFacts.{with_level_flipped};
ghost use Rattle.line_code.specs.Refusal.{RefusesStream};
ghost use Rattle.line_code.specs.States.{context_after};
ghost use Rattle.bit_strings.specs.BitString.{most_counted};

use crate::code::LineCode;
use crate::refusal::LineRefusal;
use crate::states::{Inside, Seeking, Sought, Within};
use bit_strings::{Bits, Levels};

/// The bits of a stream (6.3.1.3.2 of the standard), without the dummy at its end, in `out`, which is
/// emptied first. `Invalid` and `Unfinished` come exactly where the levels are no stream, at the
/// first place where it is certain, and leave `out` empty. So a stream with one level inverted is
/// refused, and so are data blocks without the lead.
pub fn decode<C: LineCode>(trext: bool, levels: &Levels, out: &mut Bits) -> Result<(), LineRefusal>
    requires room { length levels.now.items ≤ out.old.capacity }
    requires few { length levels.now.items ≤ most_counted }
    ensures ok { OnOk result (IsStream C.table trext out.new.items levels.now.items) }
    ensures refused { IfErr result (RefusesStream (Streams C.table trext) levels.now.items) }
    ensures err { OnErr result (out.new.items ≡ []) }
    ensures capacity { out.new.capacity ≡ out.old.capacity }
    ensures only { (bits : List Bool) → IsStream C.table trext bits levels.now.items → IsOk result
        × (out.new.items ≡ bits) }
    ensures flip { (sent : List Bool) (at : ℕ) → Streams C.table trext sent → at < length sent
        → levels.now.items ≡ with_level_flipped sent at → IsErr result }
    ensures no_lead { (c : Context) (bits : List Bool) → levels.now.items ≡ blocks C.table c bits
        → IsErr result }
{
    // In a list of its own the compiler keeps in registers where the next bit goes: no write of a bit can change that.
    let mut bits = out.take();
    bits.clear();
    let read = read::<C>(trext, levels.as_slice(), &mut bits);
    if read.is_err() {
        bits.clear();
    }
    *out = bits;
    read
}

/// Reads the levels into an empty buffer.
fn read<C: LineCode>(trext: bool, levels: &[bool], out: &mut Bits) -> Result<(), LineRefusal>
    requires empty { out.old.items ≡ [] }
    requires room { length levels.now ≤ out.old.capacity }
    requires few { length levels.now ≤ most_counted }
    ensures ok { OnOk result (IsStream C.table trext out.new.items levels.now) }
    ensures refused { IfErr result (RefusesStream (Streams C.table trext) levels.now) }
    ensures capacity { out.new.capacity ≡ out.old.capacity }
{
    let lead = seek::<C>(trext, levels)?;
    let mut mark = C::after_lead();
    // This slice only gets shorter, so that the compiler need not look at its range in each turn.
    let mut behind = &levels[lead..];
    while let Some(sixteen) = next_sixteen::<C>(mark, behind) {
        let bits = sixteen.0;
        put_bits(&bits, out);
        mark = sixteen.1;
        behind = &behind[16 * C::CHIPS as usize..];
    }
    while let Some(bit) = next_bit::<C>(mark, behind) {
        out.push_reserved(bit);
        mark = C::after(mark, bit);
        behind = &behind[C::CHIPS as usize..];
    }
    // The levels that are left, one by one: none, or those from the first block on that breaks the code or is not whole.
    let at = levels.len() - behind.len();
    let mut inside = Inside::<C>::between_blocks(mark, at as u32, out.len(), out.last());
    for place in at..levels.len() {
        match inside.push(levels[place], out) {
            Within::Inside(next) => inside = next,
            Within::Refused(place) => return Err(LineRefusal::Invalid(place)),
        }
    }
    inside.end(out)?;
    Ok(())
}

/// Takes the levels of the pilot and the preamble, and answers how many they are.
fn seek<C: LineCode>(trext: bool, levels: &[bool]) -> Result<usize, LineRefusal>
    requires { length levels.now ≤ most_counted }
    ensures found { IfOk result
        (λ lead. (lead ≤ length levels.now) × (take lead levels.now ≡ C.table.lead trext)) }
    ensures refused { IfErr result (RefusesStream (Streams C.table trext) levels.now) }
{
    if let Some(lead) = whole_lead::<C>(trext, levels) {
        return Ok(lead);
    }
    let mut seeking = Seeking::<C>::new(trext);
    for (at, level) in levels.iter().enumerate() {
        match seeking.push(*level) {
            Sought::Seeking(next) => seeking = next,
            Sought::Inside(_inside) => return Ok(at + 1),
            Sought::Refused(place) => return Err(LineRefusal::Invalid(place)),
        }
    }
    Err(seeking.end())
}

/// How many levels the pilot and the preamble have, where the levels begin with them.
fn whole_lead<C: LineCode>(trext: bool, levels: &[bool]) -> Option<usize>
    ensures { IfSome result
        (λ lead. (lead ≤ length levels.now) × (take lead levels.now ≡ C.table.lead trext)) }
{
    let lead = C::lead_levels(trext);
    // A stream that is broken, as by several tags that reply, has most often another first level.
    if levels.first() != lead.first() {
        return None;
    }
    if lead.len() <= levels.len() && same_levels(&levels[..lead.len()], lead) {
        Some(lead.len())
    } else {
        None
    }
}

/// Whether the levels are the same.
pub fn same_levels(levels: &[bool], others: &[bool]) -> bool
    ensures { IsTrue result ↔ (levels.now ≡ others.now) }
{
    if levels.len() != others.len() {
        return false;
    }
    // The loop goes on to the end, so that the compiler can look at many levels at once.
    let mut same = true;
    for (at, level) in levels.iter().enumerate() {
        same &= *level == others[at];
    }
    same
}

/// The sixteen bits whose blocks, one behind the other, the first of these levels are, and the mark of the bit that follows them.
fn next_sixteen<C: LineCode>(mark: C::Mark, levels: &[bool]) -> Option<([bool; 16], C::Mark)>
    ensures { IfSome result
        (λ it. (length it.0 ≡ 16) × (16 * C.CHIPS ≤ length levels.now)
        × (take (16 * C.CHIPS) levels.now ≡ blocks C.table (C.context_of mark) it.0)
        × (C.context_of it.1 ≡ context_after C.table (C.context_of mark) it.0)) }
{
    let chips = 16 * C::CHIPS as usize;
    if levels.len() < chips {
        return None;
    }
    C::sixteen_bits(mark, &levels[..chips])
}

/// The bit whose block the first of these levels are.
fn next_bit<C: LineCode>(mark: C::Mark, levels: &[bool]) -> Option<bool>
    ensures { IfSome result
        (λ bit. (C.CHIPS ≤ length levels.now)
        × (take C.CHIPS levels.now ≡ C.table.block (C.context_of mark) bit)) }
{
    let chips = C::CHIPS as usize;
    if levels.len() < chips {
        return None;
    }
    let front = &levels[..chips];
    if same_levels(front, C::block(mark, true)) {
        return Some(true);
    }
    if same_levels(front, C::block(mark, false)) {
        return Some(false);
    }
    None
}

/// Puts the bits to the end of `out`, one by one, which the compiler does in place.
pub(crate) fn put_bits(bits: &[bool], out: &mut Bits)
    requires { length out.old.items + length bits.now ≤ out.old.capacity }
    ensures items { out.new.items ≡ out.old.items ++ bits.now }
    ensures capacity { out.new.capacity ≡ out.old.capacity }
{
    for bit in bits {
        out.push_reserved(*bit);
    }
}
