//! Rounds and slots.
ghost use Rattle.std.specs.Prelude.{◌≡◌, ◌≤◌, ◌<◌, ◌+◌, ◌^◌};
ghost use Rattle.air_audit.specs.TraceOrder.{place_of_command};

use command_grammar::Command;

/// The round and the slot of a command, behind those of the command before it: the number of the Query commands so far, and of the slot
/// commands from the last Query on.
pub(crate) fn place_of_command(round: u32, slot: u32, command: &Command) -> (u32, u32)
    requires round { round + 1 < 2 ^ 32 }
    requires slot { slot + 1 < 2 ^ 32 }
    ensures round { result.0
        ≡ (place_of_command (record { round = round; slot = slot }) command.now).round }
    ensures slot { result.1
        ≡ (place_of_command (record { round = round; slot = slot }) command.now).slot }
    ensures later_round { result.0 ≤ round + 1 }
    ensures later_slot { result.1 ≤ slot + 1 }
{
    match command {
        Command::Query { .. } => (round + 1, 1),
        Command::QueryRep { .. } | Command::QueryAdjust { .. } => {
            if round == 0 {
                (0, 0)
            } else {
                (round, slot + 1)
            }
        }
        _ => (round, slot),
    }
}
