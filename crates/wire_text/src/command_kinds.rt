//! The names of the commands, and how many fields stand behind each.
ghost use Rattle.std.specs.Prelude.{◌≡◌};
ghost use Rattle.command_grammar.specs.Commands.{all_kinds};
ghost use Rattle.wire_text.specs.CommandText.{command_field_count, command_name};
ghost use Rattle.wire_text.specs.NameLists.{command_found};

use crate::Named;
use command_grammar::CommandKind;

impl Named for CommandKind {
    ghost word = { command_name };

    ghost values = { all_kinds };

    ghost finds = { command_found };

    fn all() -> &'static [CommandKind] {
        CommandKind::all()
    }

    fn name(self) -> &'static str {
        match self {
            CommandKind::QueryRep => "queryrep",
            CommandKind::Ack => "ack",
            CommandKind::Query => "query",
            CommandKind::QueryAdjust => "queryadjust",
            CommandKind::Select => "select",
            CommandKind::Nak => "nak",
            CommandKind::ReqRn => "req_rn",
            CommandKind::Read => "read",
            CommandKind::Write => "write",
            CommandKind::Kill => "kill",
            CommandKind::Lock => "lock",
            CommandKind::Access => "access",
            CommandKind::BlockWrite => "blockwrite",
            CommandKind::BlockErase => "blockerase",
        }
    }
}

/// How many fields stand behind the name of a command.
pub(crate) fn field_count(kind: CommandKind) -> u32
    ensures { result ≡ command_field_count kind }
{
    match kind {
        CommandKind::Nak => 0,
        CommandKind::QueryRep | CommandKind::Ack | CommandKind::ReqRn => 1,
        CommandKind::QueryAdjust | CommandKind::Kill | CommandKind::Lock | CommandKind::Access => 2,
        CommandKind::Read
        | CommandKind::Write
        | CommandKind::BlockWrite
        | CommandKind::BlockErase => 4,
        CommandKind::Select => 5,
        CommandKind::Query => 7,
    }
}
