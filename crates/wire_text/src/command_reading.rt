//! Commands, read from the fields of a line. Nothing here takes memory.
ghost use Rattle.std.specs.Prelude.{◌≡◌, IsSome, IfNone, IfOk, IfErr, IsOk, IsOkAnd, OnErr};
ghost use Rattle.text_fields.specs.NamedFields.{AreFilled};
ghost use Rattle.command_grammar.specs.declared.commands.Command.{Command};
ghost use Rattle.command_grammar.specs.declared.commands.Command.TheVariants.{Nak};
ghost use Rattle.wire_text.specs.CommandText.{IsCommandBehind, IsCommandText, IsFaultyCommand, command_field_count};

mod access;
mod inventory;
mod select;

use crate::command_kinds::field_count;
use crate::name_lists::value_named;
use access::{
    read_block_erase_to, read_block_write_to, read_lock_to, read_read_to, read_two_words,
    read_write_to,
};
use command_grammar::{Command, CommandKind};
use inventory::{read_query_adjust_to, read_query_to, read_session, read_word};
use select::read_select_to;
use text_fields::{Fields, FieldsFault, are_filled, is_at_end};

/// Puts in place of another the command that the fields behind its name spell.
fn read_behind_to(kind: CommandKind, fields: Fields, command: &mut Command) -> Option<()>
    ensures value { IsSome result → IsCommandBehind kind fields.entry command.new }
    ensures none { IfNone result
        (AreFilled (command_field_count kind) fields.entry → (other : Command)
        → ¬ IsCommandBehind kind fields.entry other) }
{
    match kind {
        CommandKind::QueryRep => {
            *command = Command::QueryRep {
                session: read_session(fields)?,
            };
            Some(())
        }
        CommandKind::Ack => {
            *command = Command::Ack {
                rn: read_word(fields)?,
            };
            Some(())
        }
        CommandKind::Query => read_query_to(fields, command),
        CommandKind::QueryAdjust => read_query_adjust_to(fields, command),
        CommandKind::Select => read_select_to(fields, command),
        CommandKind::Nak => {
            if !is_at_end(fields) {
                return None;
            }
            *command = Command::Nak;
            Some(())
        }
        CommandKind::ReqRn => {
            *command = Command::ReqRn {
                rn: read_word(fields)?,
            };
            Some(())
        }
        CommandKind::Read => read_read_to(fields, command),
        CommandKind::Write => read_write_to(fields, command),
        CommandKind::Kill => {
            let (covered, rn) = read_two_words(fields)?;
            *command = Command::Kill { covered, rn };
            Some(())
        }
        CommandKind::Lock => read_lock_to(fields, command),
        CommandKind::Access => {
            let (covered, rn) = read_two_words(fields)?;
            *command = Command::Access { covered, rn };
            Some(())
        }
        CommandKind::BlockWrite => read_block_write_to(fields, command),
        CommandKind::BlockErase => read_block_erase_to(fields, command),
    }
}

/// Puts in place of another the command that fields spell: its name, and its fields in the order in which they are
/// sent (6.3.2.11 of the standard), as [`push_command`](crate::push_command) writes them. A command has room for the longest
/// mask and the longest list of words, so that one that is handed on by value is copied and filled with zeros again and again.
///
/// # Errors
///
/// The first reason for which the fields spell no command: [`FieldsFault::Word`] where the first field is
/// the name of none; [`FieldsFault::Shape`] where there is no field, or the number of those behind the name
/// is wrong or one is empty; [`FieldsFault::Number`] where one isn't of its form or in its range. After a refusal the room is
/// empty: it has the command without fields.
pub fn read_command_to(fields: Fields, command: &mut Command) -> Result<(), FieldsFault>
    // What is read is spelled so.
    ensures ok { IsOk result → IsCommandText fields.entry command.new }
    // What is spelled so is read.
    ensures only { (spelled : Command) → IsCommandText fields.entry spelled → IsOk result
        × (command.new ≡ spelled) }
    ensures refused { IfErr result (IsFaultyCommand fields.entry) }
    ensures err { OnErr result (command.new ≡ Nak) }
{
    match read_named_to(fields, command) {
        Ok(()) => Ok(()),
        Err(fault) => {
            *command = Command::Nak;
            Err(fault)
        }
    }
}

/// Puts in place of another the command that fields spell; after a refusal some of it may stand there.
fn read_named_to(mut fields: Fields, command: &mut Command) -> Result<(), FieldsFault>
    ensures ok { IsOk result → IsCommandText fields.entry command.new }
    ensures only { (spelled : Command) → IsCommandText fields.entry spelled → IsOk result
        × (command.new ≡ spelled) }
    ensures refused { IfErr result (IsFaultyCommand fields.entry) }
{
    let Some(name) = fields.next() else {
        return Err(FieldsFault::Shape);
    };
    let Some(kind) = value_named::<CommandKind>(name) else {
        return Err(FieldsFault::Word);
    };
    match read_behind_to(kind, fields.again(), command) {
        Some(()) => Ok(()),
        // The number of fields is looked at only where they spell none.
        None if are_filled(&fields, field_count(kind)) => Err(FieldsFault::Number),
        None => Err(FieldsFault::Shape),
    }
}

/// The command that fields spell, as [`read_command_to`] reads it.
///
/// # Errors
///
/// As for [`read_command_to`].
pub fn read_command(fields: Fields) -> Result<Command, FieldsFault>
    ensures ok { IfOk result (IsCommandText fields.entry) }
    ensures only { (command : Command) → IsCommandText fields.entry command
        → IsOkAnd result (λ it. it ≡ command) }
    ensures refused { IfErr result (IsFaultyCommand fields.entry) }
{
    let mut command = Command::Nak;
    read_command_to(fields, &mut command)?;
    Ok(command)
}
