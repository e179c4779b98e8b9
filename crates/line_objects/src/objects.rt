//! The objects of the lines of a text.
ghost use Rattle.std.specs.Prelude.{◌≡◌, ◌++◌, ℕ, List, IfOk, OnOk, Option};
ghost use Rattle.line_objects.specs.Objects.{AreObjectsOf, object_of};
ghost use Rattle.line_objects.specs.Values.{AreUris};

use crate::field_members::members_of;
use crate::laws::fields_have_uris;
use crate::line_members::LineSet;
use crate::members::Object;
use bit_strings::OutOfMemory;
use std::alloc::Global;
use text_fields::split_line;

/// Adds the object of a line, which is given without its line feed. After an error the text is as it was.
fn push_object(
    alloc: Global,
    text: &mut Vec<u8>,
    set: LineSet,
    line: &[u8],
) -> Result<(), OutOfMemory>
    ensures { (uris : List ℕ → Option (List ℕ)) → AreUris uris
        → OnOk result (text.new.items ≡ text.old.items ++ object_of uris set line.now) }
{
    let object = Object {
        members: members_of(alloc, set, line)?,
    };
    let object = object.to_line(alloc)?;
    text.extend_from_slice(&object)
}

/// The objects of the lines of a text, each on a line of its own, in order. What stands behind the last line feed has none.
pub fn objects_of(alloc: Global, set: LineSet, plain: &[u8]) -> Result<Vec<u8>, OutOfMemory>
    ensures { IfOk result (λ text. AreObjectsOf set plain.now text.items) }
{
    fields_have_uris();
    let mut text = Vec::new(alloc);
    let mut rest = plain;
    while let Some((line, behind)) = split_line(rest) {
        push_object(alloc, &mut text, set, line)?;
        rest = behind;
    }
    Ok(text)
}
