//! Commands as lines of a text.
ghost use Rattle.std.specs.Prelude.{◌≡◌, ◌++◌, ◌∷◌, [], OnOk, codes};
ghost use Rattle.std.specs.String.{string_bytes};
ghost use Rattle.std.specs.Fmt.{decimal};
ghost use Rattle.text_fields.specs.Lines.{line_with};
ghost use Rattle.text_fields.specs.Binary.{binary_digit};
ghost use Rattle.text_fields.specs.Hexadecimal.{hex_word};
ghost use Rattle.text_fields.specs.CodeNames.{code_word};
ghost use Rattle.wire_text.specs.CommandText.{bank_word, command_line, flag_word, mask_bank_word, sel_word};

use crate::choices::{bank_name, bit_name, flag_name, side_name};
use crate::name_lists::Named;
use crate::payloads::push_next_payload;
use bit_strings::{Action, Code, OutOfMemory, Pointer};
use command_grammar::{Bank, Command, FlagName, MaskBank, Sel};
use text_fields::{
    name_of, push_named_number, push_named_word, push_next_bits, push_next_name, push_next_number,
    push_next_word, push_next_words,
};

/// Writes a command at the end of the text, without a line feed. After an error the text may hold a part
/// of it.
///
/// Profile: the name of the command and its fields in the order in which they are sent (6.3.2.11 of the
/// standard), without its check number. Numbers are in decimal digits, flags and Sel in binary digits, a
/// mask too or a hyphen where it is empty, words in four upper-case hexadecimal digits and the payload of
/// a Lock in five.
pub fn push_command(text: &mut String, command: &Command) -> Result<(), OutOfMemory>
    ensures { OnOk result (string_bytes text.new ≡ string_bytes text.old
        ++ command_line command.now) }
{
    match command {
        Command::QueryRep { session } => push_named_number(
            text,
            "queryrep",
            u32::from(session.get()),
        ),
        Command::Ack { rn } => push_named_word(text, "ack", *rn),
        Command::Query {
            dr,
            code,
            trext,
            sel,
            session,
            target,
            q,
        } => {
            push_query_front(text, *dr, *code, *trext, *sel)?;
            push_next_number(text, u32::from(session.get()))?;
            push_next_name(text, side_name(*target))?;
            push_next_number(text, u32::from(q.get()))
        }
        Command::QueryAdjust { session, updn } => {
            push_named_number(text, "queryadjust", u32::from(session.get()))?;
            push_next_name(text, updn.name())
        }
        Command::Select {
            target,
            action,
            bank,
            pointer,
            mask,
        } => {
            push_select_front(text, *target, action, *bank)?;
            push_next_number(text, pointer.get())?;
            push_next_bits(text, mask.as_slice())
        }
        Command::Nak => text.push_str("nak"),
        Command::ReqRn { rn } => push_named_word(text, "req_rn", *rn),
        Command::Read {
            bank,
            pointer,
            count,
            rn,
        } => {
            push_place(text, "read", *bank, pointer)?;
            push_next_number(text, u32::from(*count))?;
            push_next_word(text, *rn)
        }
        Command::Write {
            bank,
            pointer,
            covered,
            rn,
        } => {
            push_place(text, "write", *bank, pointer)?;
            push_next_word(text, *covered)?;
            push_next_word(text, *rn)
        }
        Command::Kill { covered, rn } => push_two_words(text, "kill", *covered, *rn),
        Command::Lock { payload, rn } => {
            text.push_str("lock")?;
            push_next_payload(text, payload)?;
            push_next_word(text, *rn)
        }
        Command::Access { covered, rn } => push_two_words(text, "access", *covered, *rn),
        Command::BlockWrite {
            bank,
            pointer,
            words,
            rn,
        } => {
            push_place(text, "blockwrite", *bank, pointer)?;
            push_next_words(text, words.as_slice())?;
            push_next_word(text, *rn)
        }
        Command::BlockErase {
            bank,
            pointer,
            count,
            rn,
        } => {
            push_place(text, "blockerase", *bank, pointer)?;
            push_next_number(text, u32::from(count.get()))?;
            push_next_word(text, *rn)
        }
    }
}

/// Writes the name of a command, the bank, and the place of the first word.
fn push_place(
    text: &mut String,
    name: &str,
    bank: Bank,
    pointer: &Pointer,
) -> Result<(), OutOfMemory>
    ensures { OnOk result (string_bytes text.new ≡ string_bytes text.old
        ++ line_with (name.now ∷ bank_word bank ∷ decimal pointer.now ∷ [])) }
{
    text.push_str(name)?;
    push_next_name(text, bank_name(bank))?;
    push_next_number(text, pointer.get())
}

/// Writes the name of a Query and its first four fields: how the tags are to reply, and Sel.
fn push_query_front(
    text: &mut String,
    dr: bool,
    code: Code,
    trext: bool,
    sel: Sel,
) -> Result<(), OutOfMemory>
    ensures { OnOk result (string_bytes text.new ≡ string_bytes text.old
        ++ line_with (codes "query" ∷ (binary_digit dr ∷ []) ∷ code_word code
        ∷ (binary_digit trext ∷ []) ∷ sel_word sel ∷ [])) }
{
    text.push_str("query")?;
    push_next_name(text, bit_name(dr))?;
    push_next_name(text, name_of(code))?;
    push_next_name(text, bit_name(trext))?;
    push_next_name(text, sel.name())
}

/// Writes the name of a Select, the flag, the action and the bank that has the mask.
fn push_select_front(
    text: &mut String,
    target: FlagName,
    action: &Action,
    bank: MaskBank,
) -> Result<(), OutOfMemory>
    ensures { OnOk result (string_bytes text.new ≡ string_bytes text.old
        ++ line_with (codes "select" ∷ flag_word target ∷ decimal action.now
        ∷ mask_bank_word bank ∷ [])) }
{
    text.push_str("select")?;
    push_next_name(text, flag_name(target))?;
    push_next_number(text, u32::from(action.get()))?;
    push_next_name(text, bank.name())
}

/// Writes the name of a command, the covered half of a password and the handle.
fn push_two_words(text: &mut String, name: &str, covered: u16, rn: u16) -> Result<(), OutOfMemory>
    ensures { OnOk result (string_bytes text.new ≡ string_bytes text.old
        ++ line_with (name.now ∷ hex_word covered ∷ hex_word rn ∷ [])) }
{
    push_named_word(text, name, covered)?;
    push_next_word(text, rn)
}
