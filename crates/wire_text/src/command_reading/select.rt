//! Select, read.
ghost use Rattle.std.specs.Prelude.{◌≢◌, ◌≤◌, ◌<◌, ◌^◌, ℕ, Bool, List, length, IsSome, IfNone};
ghost use Rattle.text_fields.specs.NamedFields.{AreFilled};
ghost use Rattle.wire_text.specs.CommandText.{IsCommandBehind, other_command_fields};

use crate::choices::{flag_named, mask_bank_named};
use crate::command_lists::mask_of;
use command_grammar::{Command, CommandKind, FlagName, MaskBank};
use text_fields::{Fields, action_of, five_fields, pointer_of};

/// Puts in place of another command the Select that the fields behind `select` spell (6.3.2.11.1.1 Select).
pub(crate) fn read_select_to(fields: Fields, command: &mut Command) -> Option<()>
    ensures value { IsSome result → IsCommandBehind CommandKind.Select fields.entry command.new }
    ensures none { IfNone result
        (AreFilled 5 fields.entry
        → (target : FlagName) (action : ℕ) (bank : MaskBank) (pointer : ℕ) (mask : List Bool)
        → action ≤ 7 → pointer < 2 ^ 28 → length mask ≤ 255
        → fields.entry ≢ other_command_fields (Command.Select target action bank pointer mask)) }
{
    let (target, action, bank, pointer, mask) = five_fields(fields)?;
    *command = Command::Select {
        target: flag_named(target)?,
        action: action_of(action)?,
        bank: mask_bank_named(bank)?,
        pointer: pointer_of(pointer)?,
        mask: mask_of(mask)?,
    };
    Some(())
}
