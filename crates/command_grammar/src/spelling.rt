//! Commands to bits, most significant bit first (6.3.2.11).
ghost use Rattle.std.specs.Prelude.{◌≡◌, ◌≤◌, length};
ghost use Rattle.command_grammar.specs.Commands.{IsLegalCommand, spelling_of, command_room};
ghost use Rattle.command_grammar.specs.Writing.{Writes};

use crate::choices::{mask_bank_bits, select_target_bits, updn_bits};
use crate::commands::Command;
use crate::kinds::CommandKind;
use crate::writing::{
    begin, begin_at, put, put_bits, put_crc5, put_crc16, put_handle, put_participants, put_pointer,
    put_reply_form, put_word, put_words,
};
use bit_strings::{Action, Bits, Pointer};
use command_fields::{FlagName, Mask, MaskBank};

/// Writes the one spelling of a command, in place of what stood in `out` (6.3.2.11). No spelling has
/// more than 4,162 bits.
pub fn encode_command(command: &Command, out: &mut Bits)
    requires { command_room ≤ out.old.capacity }
    ensures spelled { out.new ≡ record out.old { items = spelling_of command.now } }
    ensures legal { IsLegalCommand command.now }
    ensures count { length out.new.items ≤ 4162 }
{
    write_command(command, out);
}

/// Writes the code of a command and its fields in their order.
// It has an arm a command and doesn't go by the fields of `CommandKind::layout`: of the twenty fields with a value fifteen stand in one command
// alone, so a table by field and command is longer.
fn write_command(command: &Command, out: &mut Bits)
    requires { command_room ≤ out.old.capacity }
    ensures { Writes command.now out.old out.new }
{
    match command {
        Command::QueryRep { session } => {
            begin(out, CommandKind::QueryRep);
            put(out, u32::from(session.get()), 2);
        }
        Command::Ack { rn } => {
            begin(out, CommandKind::Ack);
            put_word(out, *rn);
        }
        Command::Query {
            dr,
            code,
            trext,
            sel,
            session,
            target,
            q,
        } => {
            begin(out, CommandKind::Query);
            put_reply_form(out, *dr, *code, *trext);
            put_participants(out, *sel, *session, *target);
            put(out, u32::from(q.get()), 4);
            put_crc5(out);
        }
        Command::QueryAdjust { session, updn } => {
            begin(out, CommandKind::QueryAdjust);
            put(out, u32::from(session.get()), 2);
            put_bits(out, &updn_bits(*updn));
        }
        Command::Select {
            target,
            action,
            bank,
            pointer,
            mask,
        } => write_select(*target, *action, *bank, *pointer, mask, out),
        Command::Nak => begin(out, CommandKind::Nak),
        Command::ReqRn { rn } => {
            begin(out, CommandKind::ReqRn);
            put_handle(out, *rn);
        }
        Command::Read {
            bank,
            pointer,
            count,
            rn,
        } => {
            begin_at(out, CommandKind::Read, *bank, *pointer);
            put(out, u32::from(*count), 8);
            put_handle(out, *rn);
        }
        Command::Write {
            bank,
            pointer,
            covered,
            rn,
        } => {
            begin_at(out, CommandKind::Write, *bank, *pointer);
            put_word(out, *covered);
            put_handle(out, *rn);
        }
        Command::Kill { covered, rn } => {
            begin(out, CommandKind::Kill);
            put_word(out, *covered);
            put_bits(out, &[false, false, false]);
            put_handle(out, *rn);
        }
        Command::Lock { payload, rn } => {
            begin(out, CommandKind::Lock);
            put(out, payload.get(), 20);
            put_handle(out, *rn);
        }
        Command::Access { covered, rn } => {
            begin(out, CommandKind::Access);
            put_word(out, *covered);
            put_handle(out, *rn);
        }
        Command::BlockWrite {
            bank,
            pointer,
            words,
            rn,
        } => {
            begin_at(out, CommandKind::BlockWrite, *bank, *pointer);
            put(out, words.len(), 8);
            put_words(out, words.as_slice());
            put_handle(out, *rn);
        }
        Command::BlockErase {
            bank,
            pointer,
            count,
            rn,
        } => {
            begin_at(out, CommandKind::BlockErase, *bank, *pointer);
            put(out, u32::from(count.get()), 8);
            put_handle(out, *rn);
        }
    }
}

/// Writes a Select (6.3.2.11.1.1), in place of what stood in `out`.
fn write_select(
    target: FlagName,
    action: Action,
    bank: MaskBank,
    pointer: Pointer,
    mask: &Mask,
    out: &mut Bits,
)
    requires { command_room ≤ out.old.capacity }
    ensures { Writes (Command.Select target action bank pointer mask.now) out.old out.new }
{
    begin(out, CommandKind::Select);
    put_bits(out, &select_target_bits(target));
    put(out, u32::from(action.get()), 3);
    put_pointer(out, mask_bank_bits(bank), pointer);
    put(out, mask.len(), 8);
    put_bits(out, mask.as_slice());
    put_bits(out, &[false]);
    put_crc16(out);
}
