//! Only and op lines, written.
ghost use Rattle.std.specs.Prelude.{◌≡◌, ◌++◌, [], ◌∷◌, OnOk};
ghost use Rattle.std.specs.String.{string_bytes};
ghost use Rattle.std.specs.Fmt.{decimal};
ghost use Rattle.text_fields.specs.Lines.{line_feed, line_with, space};
ghost use Rattle.wire_text.specs.CommandText.{bank_word, payload_digits};
ghost use Rattle.scenario_lines.specs.Names.{op_kind, op_word};
ghost use Rattle.scenario_lines.specs.Spelling.{line_text, op_fields};
ghost use Rattle.wire_text.specs.PasswordsAndLocks.{password_text};
ghost use Rattle.scenario_lines.specs.declared.line.Line.TheVariants as lines;

use access_ops::Op;
use bit_strings::{OutOfMemory, Payload, Pointer};
use command_grammar::Bank;
use reply_grammar::EpcWords;
use text_fields::{push_next_name, push_next_number, push_next_word, push_next_words};
use wire_text::{bank_name, push_next_password, push_next_payload};

/// Writes the kind of an operation, the bank, and the place of the first word.
fn next_place(
    text: &mut String,
    kind: &str,
    bank: Bank,
    pointer: &Pointer,
) -> Result<(), OutOfMemory>
    ensures { OnOk result (string_bytes text.new ≡ string_bytes text.old
        ++ space ∷ line_with (kind.now ∷ bank_word bank ∷ decimal pointer.now ∷ [])) }
{
    push_next_name(text, kind)?;
    push_next_name(text, bank_name(bank))?;
    push_next_number(text, pointer.get())
}

/// Writes the kind of an operation and the payload of its Lock.
fn next_lock(text: &mut String, kind: &str, payload: &Payload) -> Result<(), OutOfMemory>
    ensures { OnOk result (string_bytes text.new ≡ string_bytes text.old
        ++ space ∷ line_with (kind.now ∷ payload_digits payload.now ∷ [])) }
{
    push_next_name(text, kind)?;
    push_next_payload(text, payload)
}

/// Writes the kind of an operation and its password.
fn next_secret(text: &mut String, kind: &str, password: u32) -> Result<(), OutOfMemory>
    ensures { OnOk result (string_bytes text.new ≡ string_bytes text.old
        ++ space ∷ line_with (kind.now ∷ password_text password ∷ [])) }
{
    push_next_name(text, kind)?;
    push_next_password(text, password)
}

/// Writes the kind of an operation, and the fields behind it.
fn next_op(text: &mut String, op: &Op) -> Result<(), OutOfMemory>
    ensures { OnOk result (string_bytes text.new ≡ string_bytes text.old
        ++ space ∷ line_with (op_word (op_kind op.now) ∷ op_fields op.now)) }
{
    match op {
        Op::Read {
            bank,
            pointer,
            count,
        } => {
            next_place(text, "read", *bank, pointer)?;
            push_next_number(text, u32::from(*count))
        }
        Op::Write {
            bank,
            pointer,
            word,
        } => {
            next_place(text, "write", *bank, pointer)?;
            push_next_word(text, *word)
        }
        Op::BlockWrite {
            bank,
            pointer,
            words,
        } => {
            next_place(text, "blockwrite", *bank, pointer)?;
            push_next_words(text, words.as_slice())
        }
        Op::BlockErase {
            bank,
            pointer,
            count,
        } => {
            next_place(text, "blockerase", *bank, pointer)?;
            push_next_number(text, u32::from(count.get()))
        }
        Op::Lock { payload } => next_lock(text, "lock", payload),
        Op::Access { password } => next_secret(text, "access", *password),
        Op::Kill { password } => next_secret(text, "kill", *password),
    }
}

/// Writes `only EPC`: the one EPC that the operations of a round are for.
pub fn push_only(text: &mut String, epc: &EpcWords) -> Result<(), OutOfMemory>
    ensures { OnOk result (string_bytes text.new ≡ string_bytes text.old
        ++ (line_text (lines.Only epc.now) ++ line_feed ∷ [])) }
{
    text.push_str("only")?;
    push_next_words(text, epc.as_slice())?;
    text.push('\n')
}

/// Writes `op KIND FIELDS`: an operation of a round.
pub fn push_op(text: &mut String, op: &Op) -> Result<(), OutOfMemory>
    ensures { OnOk result (string_bytes text.new ≡ string_bytes text.old
        ++ (line_text (lines.Op op.now) ++ line_feed ∷ [])) }
{
    text.push_str("op")?;
    next_op(text, op)?;
    text.push('\n')
}
