//! The access commands, read: those of one tag, which name its handle last.
ghost use Rattle.std.specs.Prelude.{◌≡◌, ◌≢◌, ◌≤◌, ◌<◌, ◌^◌, ℕ, List, [], ◌∷◌, length, IsSome, IfSome, IfNone};
ghost use Rattle.std.specs.List.{AllByRecursion};
ghost use Rattle.text_fields.specs.Hexadecimal.{hex_word};
ghost use Rattle.text_fields.specs.NamedFields.{AreFilled};
ghost use Rattle.command_grammar.specs.Commands.{IsWord};
ghost use Rattle.wire_text.specs.CommandText.{IsCommandBehind, other_command_fields};

use crate::choices::bank_named;
use crate::command_lists::block_of;
use crate::payloads::payload_of;
use command_grammar::{Bank, Command, CommandKind};
use text_fields::{Fields, count_of, four_fields, number, pointer_of, two_fields, word};

/// The covered half of a password and the handle that the fields behind a name spell.
pub(crate) fn read_two_words(fields: Fields) -> Option<(u16, u16)>
    ensures value { IfSome result (λ it. fields.entry ≡ hex_word it.0 ∷ hex_word it.1 ∷ []) }
    ensures none { IfNone result
        (AreFilled 2 fields.entry → (covered rn : ℕ) → IsWord covered → IsWord rn
        → fields.entry ≢ hex_word covered ∷ hex_word rn ∷ []) }
{
    let (covered, rn) = two_fields(fields)?;
    Some((word(covered)?, word(rn)?))
}

/// Puts in place of another command the Read that the fields behind `read` spell (6.3.2.11.3.2 Read).
pub(crate) fn read_read_to(fields: Fields, command: &mut Command) -> Option<()>
    ensures value { IsSome result → IsCommandBehind CommandKind.Read fields.entry command.new }
    ensures none { IfNone result
        (AreFilled 4 fields.entry → (bank : Bank) (pointer count rn : ℕ) → pointer < 2 ^ 28
        → count ≤ 255 → IsWord rn
        → fields.entry ≢ other_command_fields (Command.Read bank pointer count rn)) }
{
    let (bank, pointer, count, rn) = four_fields(fields)?;
    *command = Command::Read {
        bank: bank_named(bank)?,
        pointer: pointer_of(pointer)?,
        count: number(count, 255)? as u8,
        rn: word(rn)?,
    };
    Some(())
}

/// Puts in place of another command the Write that the fields behind `write` spell (6.3.2.11.3.3 Write).
pub(crate) fn read_write_to(fields: Fields, command: &mut Command) -> Option<()>
    ensures value { IsSome result → IsCommandBehind CommandKind.Write fields.entry command.new }
    ensures none { IfNone result
        (AreFilled 4 fields.entry → (bank : Bank) (pointer covered rn : ℕ) → pointer < 2 ^ 28
        → IsWord covered → IsWord rn
        → fields.entry ≢ other_command_fields (Command.Write bank pointer covered rn)) }
{
    let (bank, pointer, covered, rn) = four_fields(fields)?;
    *command = Command::Write {
        bank: bank_named(bank)?,
        pointer: pointer_of(pointer)?,
        covered: word(covered)?,
        rn: word(rn)?,
    };
    Some(())
}

/// Puts in place of another command the Lock that the fields behind `lock` spell (6.3.2.11.3.5 Lock).
pub(crate) fn read_lock_to(fields: Fields, command: &mut Command) -> Option<()>
    ensures value { IsSome result → IsCommandBehind CommandKind.Lock fields.entry command.new }
    ensures none { IfNone result
        (AreFilled 2 fields.entry → (payload rn : ℕ) → payload < 2 ^ 20 → IsWord rn
        → fields.entry ≢ other_command_fields (Command.Lock payload rn)) }
{
    let (payload, rn) = two_fields(fields)?;
    *command = Command::Lock {
        payload: payload_of(payload)?,
        rn: word(rn)?,
    };
    Some(())
}

/// Puts in place of another command the BlockWrite that the fields behind `blockwrite` spell (6.3.2.11.3.7 BlockWrite).
pub(crate) fn read_block_write_to(fields: Fields, command: &mut Command) -> Option<()>
    ensures value { IsSome result
        → IsCommandBehind CommandKind.BlockWrite fields.entry command.new }
    ensures none { IfNone result
        (AreFilled 4 fields.entry → (bank : Bank) (pointer : ℕ) (words : List ℕ) (rn : ℕ)
        → pointer < 2 ^ 28 → 1 ≤ length words → length words ≤ 255
        → AllByRecursion IsWord words → IsWord rn
        → fields.entry ≢ other_command_fields (Command.BlockWrite bank pointer words rn)) }
{
    let (bank, pointer, words, rn) = four_fields(fields)?;
    *command = Command::BlockWrite {
        bank: bank_named(bank)?,
        pointer: pointer_of(pointer)?,
        words: block_of(words)?,
        rn: word(rn)?,
    };
    Some(())
}

/// Puts in place of another command the BlockErase that the fields behind `blockerase` spell (6.3.2.11.3.8 BlockErase).
pub(crate) fn read_block_erase_to(fields: Fields, command: &mut Command) -> Option<()>
    ensures value { IsSome result
        → IsCommandBehind CommandKind.BlockErase fields.entry command.new }
    ensures none { IfNone result
        (AreFilled 4 fields.entry → (bank : Bank) (pointer count rn : ℕ) → pointer < 2 ^ 28
        → 1 ≤ count → count ≤ 255 → IsWord rn
        → fields.entry ≢ other_command_fields (Command.BlockErase bank pointer count rn)) }
{
    let (bank, pointer, count, rn) = four_fields(fields)?;
    *command = Command::BlockErase {
        bank: bank_named(bank)?,
        pointer: pointer_of(pointer)?,
        count: count_of(count)?,
        rn: word(rn)?,
    };
    Some(())
}
