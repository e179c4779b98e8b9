//! Objects of JSON for the lines of a plain report, as the kit's serde_json writes them.
ghost use Rattle.std.specs.Prelude.{◌≡◌, ◌++◌, [], ◌∷◌, ℕ, List, IsOk, OnOk};
ghost use Rattle.std.specs.Str.{IsUtf8};
ghost use Rattle.std.specs.String.{string_bytes};
ghost use Rattle.serde_json.specs.Data.{string};
ghost use Rattle.report_lines.specs.JsonLines.{count_value, done_pairs, list_pairs, op_pairs, round_pairs, seen_pairs, tag_pairs};
ghost use Rattle.report_lines.specs.JsonObject.{IsJsonOf, SendsPair, SendsPairs};
ghost use Rattle.text_fields.specs.Lines.{line_feed};

use bit_strings::OutOfMemory;
use serde::{Described, Serialize, Serializer};
use std::alloc::AllocError;

/// Sends a member that is a text, where all before it was sent.
///
/// What sends an object hands the outcome on from member to member and looks at it last, as a builder does. With a `?` behind each
/// member the compiler would take the later ones for rare, and no longer build the writing of their keys in.
#[inline(always)]
fn send_text<S: Serializer>(
    sent: Result<(), S::Error>,
    out: &mut S,
    key: &str,
    text: &str,
) -> Result<(), S::Error>
    ensures { OnOk result (IsOk sent
        × SendsPair key.now (string text.now) (S.written out.old) (S.written out.new)) }
{
    sent?;
    out.key(key)?;
    out.str(text)
}

/// Sends a member that is a number, where all before it was sent.
#[inline(always)]
fn send_count<S: Serializer>(
    sent: Result<(), S::Error>,
    out: &mut S,
    key: &str,
    count: u64,
) -> Result<(), S::Error>
    ensures { OnOk result (IsOk sent
        × SendsPair key.now (count_value count) (S.written out.old) (S.written out.new)) }
{
    sent?;
    out.key(key)?;
    out.u64(count)
}

/// The object of a list line.
#[derive(Drop)]
pub(crate) struct ListObject<'a> {
    pub(crate) epc: &'a str,
    pub(crate) pc: &'a str,
    pub(crate) round: u32,
    pub(crate) slot: u32,
}

impl<'a> Described for ListObject<'a> {
    ghost writes = { λ it. SendsPairs (list_pairs it.epc.now it.pc.now it.round it.slot) };
}

impl<'a> Serialize for ListObject<'a> {
    fn serialize<S: Serializer>(&self, out: &mut S) -> Result<(), S::Error> {
        let sent = out.begin_map(Some(5));
        let sent = send_text(sent, out, "epc", self.epc);
        let sent = send_text(sent, out, "kind", "list");
        let sent = send_text(sent, out, "pc", self.pc);
        let sent = send_count(sent, out, "round", self.round as u64);
        let sent = send_count(sent, out, "slot", self.slot as u64);
        sent?;
        out.end_map()
    }
}

/// The object of an op line.
#[derive(Drop)]
pub(crate) struct OpObject<'a> {
    pub(crate) index: u32,
    pub(crate) result: &'a str,
    pub(crate) round: u32,
    pub(crate) slot: u32,
    pub(crate) value: &'a str,
}

impl<'a> Described for OpObject<'a> {
    ghost writes = { λ it. SendsPairs (op_pairs it.index it.result.now it.round it.slot it.value.now) };
}

impl<'a> Serialize for OpObject<'a> {
    fn serialize<S: Serializer>(&self, out: &mut S) -> Result<(), S::Error> {
        let sent = out.begin_map(Some(6));
        let sent = send_count(sent, out, "index", self.index as u64);
        let sent = send_text(sent, out, "kind", "op");
        let sent = send_text(sent, out, "result", self.result);
        let sent = send_count(sent, out, "round", self.round as u64);
        let sent = send_count(sent, out, "slot", self.slot as u64);
        let sent = send_text(sent, out, "value", self.value);
        sent?;
        out.end_map()
    }
}

/// The object of a round line.
#[derive(Drop)]
pub(crate) struct RoundObject<'a> {
    pub(crate) end: &'a str,
    pub(crate) round: u32,
    pub(crate) slots: u32,
}

impl<'a> Described for RoundObject<'a> {
    ghost writes = { λ it. SendsPairs (round_pairs it.end.now it.round it.slots) };
}

impl<'a> Serialize for RoundObject<'a> {
    fn serialize<S: Serializer>(&self, out: &mut S) -> Result<(), S::Error> {
        let sent = out.begin_map(Some(4));
        let sent = send_text(sent, out, "end", self.end);
        let sent = send_text(sent, out, "kind", "round");
        let sent = send_count(sent, out, "round", self.round as u64);
        let sent = send_count(sent, out, "slots", self.slots as u64);
        sent?;
        out.end_map()
    }
}

/// The object of a seen line.
#[derive(Drop)]
pub(crate) struct SeenObject<'a> {
    pub(crate) count: u64,
    pub(crate) epc: &'a str,
    pub(crate) pc: &'a str,
}

impl<'a> Described for SeenObject<'a> {
    ghost writes = { λ it. SendsPairs (seen_pairs it.count it.epc.now it.pc.now) };
}

impl<'a> Serialize for SeenObject<'a> {
    fn serialize<S: Serializer>(&self, out: &mut S) -> Result<(), S::Error> {
        let sent = out.begin_map(Some(4));
        let sent = send_count(sent, out, "count", self.count);
        let sent = send_text(sent, out, "epc", self.epc);
        let sent = send_text(sent, out, "kind", "seen");
        let sent = send_text(sent, out, "pc", self.pc);
        sent?;
        out.end_map()
    }
}

/// The object of a tag line.
#[derive(Drop)]
pub(crate) struct TagObject<'a> {
    pub(crate) epc: &'a str,
    pub(crate) flags: &'a str,
    pub(crate) locks: &'a str,
    pub(crate) number: u32,
    pub(crate) reserved: &'a str,
    pub(crate) state: &'a str,
    pub(crate) tid: &'a str,
    pub(crate) user: &'a str,
}

impl<'a> Described for TagObject<'a> {
    ghost writes = { λ it. SendsPairs (tag_pairs it.epc.now it.flags.now it.locks.now it.number
        it.reserved.now it.state.now it.tid.now it.user.now) };
}

impl<'a> Serialize for TagObject<'a> {
    fn serialize<S: Serializer>(&self, out: &mut S) -> Result<(), S::Error> {
        let sent = out.begin_map(Some(9));
        let sent = send_text(sent, out, "epc", self.epc);
        let sent = send_text(sent, out, "flags", self.flags);
        let sent = send_text(sent, out, "kind", "tag");
        let sent = send_text(sent, out, "locks", self.locks);
        let sent = send_count(sent, out, "number", self.number as u64);
        let sent = send_text(sent, out, "res", self.reserved);
        let sent = send_text(sent, out, "state", self.state);
        let sent = send_text(sent, out, "tid", self.tid);
        let sent = send_text(sent, out, "user", self.user);
        sent?;
        out.end_map()
    }
}

/// The object of the done line.
#[derive(Drop)]
pub(crate) struct DoneObject;

impl Described for DoneObject {
    ghost writes = { λ _. SendsPairs done_pairs };
}

impl Serialize for DoneObject {
    fn serialize<S: Serializer>(&self, out: &mut S) -> Result<(), S::Error> {
        let sent = out.begin_map(Some(1));
        let sent = send_text(sent, out, "kind", "done");
        sent?;
        out.end_map()
    }
}

/// Writes an object as a line, in compact form.
pub(crate) fn push_object<T: Serialize>(text: &mut String, object: &T) -> Result<(), OutOfMemory>
    requires utf8 { (bytes : List ℕ) → IsJsonOf (T.writes object.now) bytes → IsUtf8 bytes }
    ensures { OnOk result ((bytes : List ℕ) × IsJsonOf (T.writes object.now) bytes
        × (string_bytes text.new ≡ string_bytes text.old ++ (bytes ++ line_feed ∷ []))) }
{
    let Ok(mut line) = serde_json::to_vec(*text.allocator(), object) else {
        // Each member has a key that is a text, and a value that JSON has: memory alone may lack.
        return Err(AllocError);
    };
    line.push(b'\n')?;
    // The texts of an object are UTF-8, and so is its JSON, which the proof shows: nothing looks at the bytes once more.
    let line = unsafe { String::from_utf8_unchecked(line) };
    if text.is_empty() {
        *text = line;
        return Ok(());
    }
    text.push_str(line.as_str())
}
