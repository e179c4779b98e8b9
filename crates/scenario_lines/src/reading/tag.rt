//! Tag lines, read.
ghost use Rattle.std.specs.Prelude.{◌≡◌, ◌≢◌, ℕ, List, false, IfOk, IfErr, IfSome, IfNone, IsOkAnd};
ghost use Rattle.text_fields.specs.Hexadecimal.{hex_words};
ghost use Rattle.scenario_lines.specs.declared.tag.TagSpec.{TagSpec};
ghost use Rattle.tag_memory.specs.Image.{pc_fits};
ghost use Rattle.text_fields.specs.WordLists.{IsWordList};
ghost use Rattle.scenario_lines.specs.TagForm.{IsTag, IsTagForm};
ghost use Rattle.scenario_lines.specs.LineForm.{IsCopyCount};
ghost use Rattle.scenario_lines.specs.Spelling.{copies_fields, tag_spec_fields};
ghost use Rattle.text_fields.specs.NamedFields.{AreFilled};
ghost use Rattle.scenario_lines.specs.Reading.{Misreads, MisreadsCopies, MisreadsTag, tag_value};

use crate::TagText;
use air_events::MOST_TAGS;
use checked_lines::FaultReason;
use lock_rules::Locks;
use text_fields::{Fields, Words, number_from, seven_fields, words_from};
use wire_text::{locks_of, password_of};

/// The lists of words of a tag.
#[derive(Drop)]
pub(crate) struct Lists<'a> {
    epc: Words<'a>,
    tid: Words<'a>,
    user: Words<'a>,
    words: Words<'a>,
}

/// The parts of a tag, each in the range of its field.
#[derive(Drop)]
pub(crate) struct Parts<'a> {
    kill: u32,
    access: u32,
    locks: Locks,
    lists: Lists<'a>,
}

/// The lists that four fields spell.
fn lists_of<'a>(epc: &'a [u8], tid: &'a [u8], user: &'a [u8], words: &'a [u8]) -> Option<Lists<'a>>
    ensures value { IfSome result
        (λ it. (epc.now ≡ hex_words it.epc) × IsWordList 1 32 it.epc × (tid.now ≡ hex_words it.tid)
        × IsWordList 2 16 it.tid
        × (user.now ≡ hex_words it.user) × IsWordList 0 512 it.user
        × (words.now ≡ hex_words it.words) × IsWordList 1 256 it.words) }
    ensures none { IfNone result
        ((e t u w : List ℕ) → IsWordList 1 32 e → IsWordList 2 16 t → IsWordList 0 512 u
        → IsWordList 1 256 w
        → epc.now ≡ hex_words e → tid.now ≡ hex_words t → user.now ≡ hex_words u
        → words.now ≢ hex_words w) }
{
    let epc = words_from(epc, 1, 32)?;
    let tid = words_from(tid, 2, 16)?;
    let user = words_from(user, 0, 512)?;
    let words = words_from(words, 1, 256)?;
    Some(Lists {
        epc,
        tid,
        user,
        words,
    })
}

/// The parts that the fields behind `tag` spell.
fn read_parts<'a>(others: Fields<'a>) -> Result<Parts<'a>, FaultReason>
    ensures ok { IfOk result
        (λ it. (others.entry ≡ tag_spec_fields (tag_value it)) × IsTagForm (tag_value it)) }
    ensures refused { IfErr result (Misreads (AreFilled 7) tag_spec_fields IsTagForm others.entry) }
{
    let Some((kill, access, locks, epc, tid, user, words)) = seven_fields(others) else {
        return Err(FaultReason::Shape);
    };
    let Some(kill) = password_of(kill) else {
        return Err(FaultReason::Number);
    };
    let Some(access) = password_of(access) else {
        return Err(FaultReason::Number);
    };
    let Some(locks) = locks_of(locks) else {
        return Err(FaultReason::Number);
    };
    let Some(lists) = lists_of(epc, tid, user, words) else {
        return Err(FaultReason::Number);
    };
    Ok(Parts {
        kill,
        access,
        locks,
        lists,
    })
}

/// The tag of a tag line's parts, read, each of which is in the range of its field.
fn whole_tag<'a>(parts: Parts<'a>) -> Result<TagText<'a>, FaultReason>
    requires { IsTagForm (tag_value parts) }
    ensures ok { IfOk result (λ tag. (tag ≡ tag_value parts.entry) × IsTag tag) }
    ensures refused { IfErr result
        (λ fault. (fault ≡ FaultReason.Pc) × (pc_fits (tag_value parts.entry).image ≡ false)) }
{
    let Parts {
        kill,
        access,
        locks,
        lists,
    } = parts;
    let Lists {
        epc,
        tid,
        user,
        words,
    } = lists;
    match TagText::new(kill, access, locks, epc, tid, user, words) {
        Some(tag) => Ok(tag),
        None => Err(FaultReason::Pc),
    }
}

/// The tag that the fields behind `tag` spell.
pub fn read_tag<'a>(others: Fields<'a>) -> Result<TagText<'a>, FaultReason>
    ensures ok { IfOk result (λ tag. (others.entry ≡ tag_spec_fields tag) × IsTag tag) }
    ensures only { (tag : TagSpec) → IsTag tag → others.entry ≡ tag_spec_fields tag
        → IsOkAnd result (λ it. it ≡ tag) }
    ensures refused { IfErr result (MisreadsTag others.entry) }
{
    match read_parts(others) {
        Ok(parts) => whole_tag(parts),
        Err(fault) => Err(fault),
    }
}

/// How many tags the fields behind `copies` stand for, and the tag that they spell.
pub(crate) fn read_copies<'a>(mut others: Fields<'a>) -> Result<(u32, TagText<'a>), FaultReason>
    ensures ok { IfOk result
        (λ it. (others.entry ≡ copies_fields it.0 it.1) × IsCopyCount it.0 × IsTag it.1) }
    ensures refused { IfErr result (MisreadsCopies others.entry) }
{
    let Some(count) = others.next() else {
        return Err(FaultReason::Shape);
    };
    if count.is_empty() {
        return Err(FaultReason::Shape);
    }
    let parts = read_parts(others)?;
    let Some(count) = number_from(count, 2, u32::from(MOST_TAGS)) else {
        return Err(FaultReason::Number);
    };
    Ok((count, whole_tag(parts)?))
}
