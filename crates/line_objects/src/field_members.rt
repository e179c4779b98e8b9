//! What the fields of a line say, as members.
ghost use Rattle.std.specs.Prelude.{◌≡◌, ◌≢◌, ◌++◌, ℕ, List, [], ◌∷◌, OnOk, IfOk, IfNone, IfSome, Option};
ghost use Rattle.text_fields.specs.Lines.{fields_of};
ghost use Rattle.line_objects.specs.declared.member_names.Key.{Key};
ghost use Rattle.line_objects.specs.Members.{pairs_of, data_of};
ghost use Rattle.line_objects.specs.Objects.{absent_pairs, field_pairs, fields_pairs, kind_pair, line_pairs, pairs_behind, place_or_reason, uri_pairs};
ghost use Rattle.line_objects.specs.Values.{AreUris, number_in};

use crate::line_members::{LineSet, keys_behind, line_keys};
use crate::member_names::{Key, Shape};
use crate::members::{Member, Value};
use crate::values::{number_in, uri_in};
use bit_strings::OutOfMemory;
use std::alloc::Global;
use text_fields::Fields;

/// Adds a member, with its name and its value, to the members of a line's object.
fn push_member<'a>(
    members: &mut Vec<Member<'a>>,
    name: &'static str,
    value: Value<'a>,
) -> Result<(), OutOfMemory>
    ensures { OnOk result (pairs_of members.new.items ≡ pairs_of members.old.items
        ++ (name.now, data_of value.entry) ∷ []) }
{
    members.push(Member { name, value })?;
    Ok(())
}

/// Adds a place where the field is a number, and else a reason.
fn push_place_or_reason<'a>(
    members: &mut Vec<Member<'a>>,
    field: &'a [u8],
) -> Result<(), OutOfMemory>
    ensures { OnOk result (pairs_of members.new.items ≡ pairs_of members.old.items
        ++ place_or_reason field.now (number_in field.now) ∷ []) }
{
    match number_in(field) {
        Some(place) => push_member(members, "place", Value::Number(Some(place))),
        None => push_member(members, "reason", Value::Text(field)),
    }
}

/// Adds the URI of an EPC, where it has one.
fn push_uri<'a>(members: &mut Vec<Member<'a>>, epc: &[u8]) -> Result<(), OutOfMemory>
    ensures { (uris : List ℕ → Option (List ℕ)) → AreUris uris
        → OnOk result (pairs_of members.new.items ≡ pairs_of members.old.items
        ++ uri_pairs (uris epc.now)) }
{
    match uri_in(epc) {
        Some(uri) => push_member(members, "uri", Value::Uri(uri)),
        None => Ok(()),
    }
}

/// Adds what a field says.
fn push_field<'a>(
    members: &mut Vec<Member<'a>>,
    key: Key,
    field: &'a [u8],
) -> Result<(), OutOfMemory>
    ensures { (uris : List ℕ → Option (List ℕ)) → AreUris uris
        → OnOk result (pairs_of members.new.items ≡ pairs_of members.old.items
        ++ field_pairs uris key field.now) }
{
    match key.shape() {
        Shape::Number => push_member(members, key.name(), Value::Number(number_in(field))),
        Shape::Text => push_member(members, key.name(), Value::Text(field)),
        Shape::EpcText => {
            push_member(members, key.name(), Value::Text(field))?;
            push_uri(members, field)
        }
        Shape::PlaceOrReason => push_place_or_reason(members, field),
        Shape::Joint => Ok(()),
    }
}

/// Adds what is said where the field of a member isn't there.
fn push_absent<'a>(members: &mut Vec<Member<'a>>, key: Key) -> Result<(), OutOfMemory>
    ensures { OnOk result (pairs_of members.new.items ≡ pairs_of members.old.items
        ++ absent_pairs key) }
{
    match key {
        Key::Value => push_member(members, "value", Value::Text(b"")),
        _ => Ok(()),
    }
}

/// Adds what fields say, by their members.
fn push_fields<'a>(
    members: &mut Vec<Member<'a>>,
    keys: &'static [Key],
    mut fields: Fields<'a>,
) -> Result<(), OutOfMemory>
    ensures { (uris : List ℕ → Option (List ℕ)) → AreUris uris
        → OnOk result (pairs_of members.new.items ≡ pairs_of members.old.items
        ++ fields_pairs uris fields.entry keys.now) }
{
    match keys {
        [] => Ok(()),
        [key, others @ ..] => match fields.next() {
            None => push_absent(members, *key),
            Some(field) => {
                push_field(members, *key, field)?;
                push_fields(members, keys_behind(*key, field, others), fields)
            }
        },
    }
}

/// Adds the kind of a line: its first field.
fn push_kind<'a>(members: &mut Vec<Member<'a>>, word: &'a [u8]) -> Result<(), OutOfMemory>
    ensures { OnOk result (pairs_of members.new.items ≡ pairs_of members.old.items
        ++ kind_pair word.now ∷ []) }
{
    push_member(members, "kind", Value::Text(word))
}

/// The members of a line of which the number stands first, by the fields behind its first one.
fn numbered_members<'a>(
    alloc: Global,
    word: &'a [u8],
    number: &'a [u8],
    others: &'static [Key],
    fields: Fields<'a>,
) -> Result<Vec<Member<'a>>, OutOfMemory>
    ensures { (uris : List ℕ → Option (List ℕ)) → AreUris uris
        → IfOk result (λ members. pairs_of members.items
        ≡ pairs_behind uris word.now (number.now ∷ fields.entry) (Key.Line ∷ others.now)) }
{
    let mut members = Vec::new(alloc);
    push_member(&mut members, "line", Value::Number(number_in(number)))?;
    push_kind(&mut members, word)?;
    push_fields(&mut members, others, fields)?;
    Ok(members)
}

/// The members of a line, by the fields behind its first one.
fn plain_members<'a>(
    alloc: Global,
    word: &'a [u8],
    keys: &'static [Key],
    fields: Fields<'a>,
) -> Result<Vec<Member<'a>>, OutOfMemory>
    ensures { (uris : List ℕ → Option (List ℕ)) → AreUris uris
        → IfOk result (λ members. pairs_of members.items
        ≡ kind_pair word.now ∷ fields_pairs uris fields.entry keys.now) }
{
    let mut members = Vec::new(alloc);
    push_kind(&mut members, word)?;
    push_fields(&mut members, keys, fields)?;
    Ok(members)
}

/// The members behind the number of a line, where that is the first member; none exactly where it isn't.
fn behind_line(keys: &'static [Key]) -> Option<&'static [Key]>
    ensures some { IfSome result (λ others. keys.now ≡ Key.Line ∷ others.now) }
    ensures none { IfNone result ((others : List Key) → keys.now ≢ Key.Line ∷ others) }
{
    match keys {
        [Key::Line, others @ ..] => Some(others),
        _ => None,
    }
}

/// The members of a line with this first field, by the others.
fn members_behind<'a>(
    alloc: Global,
    word: &'a [u8],
    keys: &'static [Key],
    fields: Fields<'a>,
) -> Result<Vec<Member<'a>>, OutOfMemory>
    ensures { (uris : List ℕ → Option (List ℕ)) → AreUris uris
        → IfOk result (λ members. pairs_of members.items
        ≡ pairs_behind uris word.now fields.entry keys.now) }
{
    let Some(others) = behind_line(keys) else {
        return plain_members(alloc, word, keys, fields);
    };
    let mut behind = fields.again();
    match behind.next() {
        Some(number) => numbered_members(alloc, word, number, others, behind),
        None => plain_members(alloc, word, keys, fields),
    }
}

/// The members of a line, which is given without its line feed.
pub(crate) fn members_of<'a>(
    alloc: Global,
    set: LineSet,
    line: &'a [u8],
) -> Result<Vec<Member<'a>>, OutOfMemory>
    ensures { (uris : List ℕ → Option (List ℕ)) → AreUris uris
        → IfOk result (λ members. pairs_of members.items
        ≡ line_pairs uris set (fields_of line.now)) }
{
    let mut fields = Fields::new(line);
    match fields.next() {
        Some(word) => members_behind(alloc, word, line_keys(set, word), fields),
        // A line has a field at least.
        None => Ok(Vec::new(alloc)),
    }
}
