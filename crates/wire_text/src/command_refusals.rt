//! Why bits are no command, as lines of a text.
ghost use Rattle.std.specs.Prelude.{◌≡◌, ◌++◌, OnOk};
ghost use Rattle.std.specs.String.{string_bytes};
ghost use Rattle.wire_text.specs.CommandText.{command_refusal_line};

use crate::choices::reason_name;
use bit_strings::OutOfMemory;
use command_grammar::CommandRefusal;
use text_fields::{push_named_number, push_next_name};

/// Writes why bits are no command at the end of the text, without a line feed. After an error the text
/// may hold a part of it.
///
/// Profile: `refused` with the place, counted from 0, and the name of the field, or `short` with the
/// number of the bits.
pub fn push_command_refusal(text: &mut String, refusal: CommandRefusal) -> Result<(), OutOfMemory>
    ensures { OnOk result (string_bytes text.new ≡ string_bytes text.old
        ++ command_refusal_line refusal) }
{
    match refusal {
        CommandRefusal::At(place, reason) => {
            push_named_number(text, "refused", place)?;
            push_next_name(text, reason_name(reason))
        }
        CommandRefusal::Short(count) => push_named_number(text, "short", count),
    }
}
