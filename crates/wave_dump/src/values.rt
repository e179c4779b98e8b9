//! Commands and replies as values of string variables.
ghost use Rattle.std.specs.Prelude.{◌≡◌, ◌++◌, ◌∷◌, OnOk, if◌then◌else◌};
ghost use Rattle.std.specs.String.{string_bytes};
ghost use Rattle.wire_text.specs.CommandText.{command_line};
ghost use Rattle.wave_dump.specs.Waves.{with_underscores, reply_value};

use crate::exchanged::Gave;
use bit_strings::OutOfMemory;
use command_grammar::Command;
use wire_text::{push_command, push_reply};

/// Adds a field, behind `_` if it isn't the first one.
fn push_field(text: &mut String, field: &str, first: bool) -> Result<(), OutOfMemory>
    ensures { OnOk result (string_bytes text.new ≡ string_bytes text.old
        ++ (if first then field.now else 95 ∷ field.now)) }
{
    if first {
        return text.push_str(field);
    }
    text.push('_')?;
    text.push_str(field)
}

/// Adds a line, with `_` in place of each space.
fn push_with_underscores(text: &mut String, line: &str) -> Result<(), OutOfMemory>
    ensures { OnOk result
        (string_bytes text.new ≡ string_bytes text.old ++ with_underscores line.now) }
{
    let mut first = true;
    for field in line.split(' ') {
        push_field(text, field, first)?;
        first = false;
    }
    Ok(())
}

/// The command as a value. The line is room.
pub(crate) fn set_command(
    text: &mut String,
    line: &mut String,
    command: &Command,
) -> Result<(), OutOfMemory>
    ensures { OnOk result (string_bytes text.new ≡ with_underscores (command_line command.now)) }
{
    line.clear();
    push_command(line, command)?;
    text.clear();
    push_with_underscores(text, line.as_str())
}

/// What is read of a stream as a value. The line is room.
pub(crate) fn set_reply(
    text: &mut String,
    line: &mut String,
    given: &Gave,
) -> Result<(), OutOfMemory>
    ensures { OnOk result (string_bytes text.new ≡ reply_value given.now) }
{
    text.clear();
    match given {
        Gave::Silence => text.push('-'),
        Gave::Whole(_, reply) => {
            line.clear();
            push_reply(line, reply)?;
            push_with_underscores(text, line.as_str())
        }
        Gave::Broken(_, _) => text.push_str("broken"),
        Gave::Raw => text.push_str("raw"),
    }
}
