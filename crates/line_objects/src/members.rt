//! The members of an object, and how an object is sent.
ghost use Rattle.std.specs.Prelude.{◌≡◌, ◌++◌, [], ◌∷◌, IfOk, OnOk};
ghost use Rattle.serde_json.specs.Data.{object};
ghost use Rattle.serde_json.specs.Written.{compact_text};
ghost use Rattle.serde_json.specs.Events.{SendsMembers, SendsValue};
ghost use Rattle.report_lines.specs.JsonLines.{members_in};
ghost use Rattle.report_lines.specs.JsonObject.{SendsPairs};
ghost use Rattle.line_objects.specs.Members.{pairs_of, data_of};
ghost use Rattle.text_fields.specs.Lines.{line_feed};
ghost use Rattle.line_objects.specs.Values.{number_value, without_hyphen, text_value};

use bit_strings::OutOfMemory;
use epc_sgtin::Uri;
use serde::{Described, Serialize, Serializer};
use std::alloc::{AllocError, Global};

/// The value of a member.
#[derive(Drop)]
pub(crate) enum Value<'a> {
    /// A number, where the field is one.
    Number(Option<u64>),
    /// A text.
    Text(&'a [u8]),
    /// The URI of a trade item number.
    Uri(Uri),
}

/// A member of the object of a line: its name and its value.
#[derive(Drop)]
pub(crate) struct Member<'a> {
    pub(crate) name: &'static str,
    pub(crate) value: Value<'a>,
}

/// An object, with its members in this order.
#[derive(Drop)]
pub(crate) struct Object<'a> {
    pub(crate) members: Vec<Member<'a>>,
}

/// The text that a field of a line says: the empty text where the field is a hyphen.
fn without_hyphen(text: &[u8]) -> &[u8]
    ensures { result.now ≡ without_hyphen text.now }
{
    if text == b"-".as_slice() { b"" } else { text }
}

/// Sends a text, and null where its bytes are none.
fn send_text<S: Serializer>(out: &mut S, text: &[u8]) -> Result<(), S::Error>
    ensures { OnOk result (SendsValue (text_value text.now) (S.written out.old)
        (S.written out.new)) }
{
    match str::from_utf8(without_hyphen(text)) {
        Ok(letters) => out.str(letters),
        Err(_) => out.unit(),
    }
}

/// Sends a number, and null where there is none.
fn send_number<S: Serializer>(out: &mut S, number: Option<u64>) -> Result<(), S::Error>
    ensures { OnOk result (SendsValue (number_value number) (S.written out.old)
        (S.written out.new)) }
{
    match number {
        Some(number) => out.u64(number),
        None => out.unit(),
    }
}

/// Sends the value of a member: a number, a text or a URI.
fn send_value<S: Serializer>(out: &mut S, value: &Value<'_>) -> Result<(), S::Error>
    ensures { OnOk result (SendsValue (data_of value.now) (S.written out.old) (S.written out.new)) }
{
    match value {
        Value::Number(number) => send_number(out, *number),
        Value::Text(text) => send_text(out, text),
        Value::Uri(uri) => send_text(out, uri.as_slice()),
    }
}

/// Sends members, one behind the other, and the end of the object.
fn send_members<S: Serializer>(out: &mut S, members: &[Member<'_>]) -> Result<(), S::Error>
    ensures { OnOk result (SendsMembers (members_in (pairs_of members.now)) (S.written out.old)
        (S.written out.new)) }
{
    match members {
        [] => out.end_map(),
        [first, others @ ..] => {
            out.key(first.name)?;
            send_value(out, &first.value)?;
            send_members(out, others)
        }
    }
}

impl<'a> Described for Object<'a> {
    ghost writes = { λ it. SendsPairs (pairs_of it.members.items) };
}

impl<'a> Serialize for Object<'a> {
    fn serialize<S: Serializer>(&self, out: &mut S) -> Result<(), S::Error> {
        out.begin_map(Some(self.members.len()))?;
        send_members(out, self.members.as_slice())
    }
}

impl<'a> Object<'a> {
    /// The object in compact form, with a line feed.
    pub(crate) fn to_line(&self, alloc: Global) -> Result<Vec<u8>, OutOfMemory>
        ensures { IfOk result
            (λ line. line.items
            ≡ compact_text (object (members_in (pairs_of self.now.members.items)))
            ++ line_feed ∷ []) }
    {
        let Ok(mut line) = serde_json::to_vec(alloc, self) else {
            // Each member has a key that is a text, and a value that JSON has: memory alone may lack.
            return Err(AllocError);
        };
        line.push(b'\n')?;
        Ok(line)
    }
}
