//! The commands of an inventory round, read.
ghost use Rattle.std.specs.Prelude.{◌≡◌, ◌≢◌, ◌≤◌, ℕ, Bool, [], ◌∷◌, IsSome, IfSome, IfNone};
ghost use Rattle.std.specs.Fmt.{decimal};
ghost use Rattle.text_fields.specs.Hexadecimal.{hex_word};
ghost use Rattle.text_fields.specs.NamedFields.{AreFilled};
ghost use Rattle.command_grammar.specs.Commands.{IsWord};
ghost use Rattle.wire_text.specs.CommandText.{IsCommandBehind, other_command_fields};

use crate::choices::side_named;
use crate::name_lists::value_named;
use bit_strings::{Code, Session};
use command_grammar::{Command, CommandKind, Sel, Side, UpDn};
use text_fields::{
    Fields, code_named, one_bit, one_field, q_of, session_of, seven_fields, two_fields, word,
};

/// The session that the one field behind a name spells.
pub(crate) fn read_session(fields: Fields) -> Option<Session>
    ensures value { IfSome result
        (λ session. (fields.entry ≡ decimal session ∷ []) × (session ≤ 3)) }
    ensures none { IfNone result
        (AreFilled 1 fields.entry → (session : ℕ) → session ≤ 3
        → fields.entry ≢ decimal session ∷ []) }
{
    session_of(one_field(fields)?)
}

/// The word that the one field behind the name of a command spells.
pub(crate) fn read_word(fields: Fields) -> Option<u16>
    ensures value { IfSome result (λ rn. fields.entry ≡ hex_word rn ∷ []) }
    ensures none { IfNone result
        (AreFilled 1 fields.entry → (rn : ℕ) → IsWord rn → fields.entry ≢ hex_word rn ∷ []) }
{
    word(one_field(fields)?)
}

/// Puts in place of another command the Query that the fields behind `query` spell (6.3.2.11.2.1 Query).
pub(crate) fn read_query_to(fields: Fields, command: &mut Command) -> Option<()>
    ensures value { IsSome result → IsCommandBehind CommandKind.Query fields.entry command.new }
    ensures none { IfNone result
        (AreFilled 7 fields.entry
        → (dr : Bool) (code : Code) (trext : Bool) (sel : Sel) (session : ℕ) (target : Side) (q : ℕ)
        → session ≤ 3 → q ≤ 15
        → fields.entry ≢ other_command_fields (Command.Query dr code trext sel session target q)) }
{
    let (dr, code, trext, sel, session, target, q) = seven_fields(fields)?;
    *command = Command::Query {
        dr: one_bit(dr)?,
        code: code_named(code)?,
        trext: one_bit(trext)?,
        sel: value_named(sel)?,
        session: session_of(session)?,
        target: side_named(target)?,
        q: q_of(q)?,
    };
    Some(())
}

/// Puts in place of another command the QueryAdjust that the fields behind `queryadjust` spell (6.3.2.11.2.2 QueryAdjust).
pub(crate) fn read_query_adjust_to(fields: Fields, command: &mut Command) -> Option<()>
    ensures value { IsSome result
        → IsCommandBehind CommandKind.QueryAdjust fields.entry command.new }
    ensures none { IfNone result
        (AreFilled 2 fields.entry → (session : ℕ) (updn : UpDn) → session ≤ 3
        → fields.entry ≢ other_command_fields (Command.QueryAdjust session updn)) }
{
    let (session, updn) = two_fields(fields)?;
    *command = Command::QueryAdjust {
        session: session_of(session)?,
        updn: value_named(updn)?,
    };
    Some(())
}
