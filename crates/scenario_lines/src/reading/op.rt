//! Only and op lines, read.
ghost use Rattle.std.specs.Prelude.{◌≡◌, ◌<◌, ◌^◌, ℕ, List, IfOk, IfErr, IfSome, IsSomeAnd, [], ◌∷◌};
ghost use Rattle.std.specs.Fmt.{decimal};
ghost use Rattle.text_fields.specs.Hexadecimal.{hex_words};
ghost use Rattle.wire_text.specs.CommandText.{bank_word};
ghost use Rattle.access_ops.specs.declared.Op.{Op};
ghost use Rattle.access_ops.specs.laws.OperationLaws.{IsLegalOp};
ghost use Rattle.scenario_lines.specs.Names.{op_field_count, op_kind, op_word};
ghost use Rattle.scenario_lines.specs.LineForm.{IsEpc};
ghost use Rattle.scenario_lines.specs.Spelling.{op_fields};
ghost use Rattle.text_fields.specs.NamedFields.{AreFilled};
ghost use Rattle.scenario_lines.specs.Reading.{IsOpText, Misreads, MisreadsOp, MisreadsOpLine};

use crate::OpKind;
use access_ops::Op;
use bit_strings::Pointer;
use checked_lines::FaultReason;
use command_grammar::Bank;
use reply_grammar::EpcWords;
use text_fields::{Fields, count_of, number, one_field, pointer_of, three_fields, word};
use wire_text::{bank_named, block_of, epc_of, password_of, payload_of, value_named};

/// The EPC that the field behind `only` spells.
pub(crate) fn read_only(others: Fields) -> Result<EpcWords, FaultReason>
    ensures ok { IfOk result (λ epc. (others.entry ≡ hex_words epc ∷ []) × IsEpc epc) }
    ensures refused { IfErr result
        (Misreads (AreFilled 1) (λ (words : List ℕ). hex_words words ∷ []) IsEpc others.entry) }
{
    let Some(field) = one_field(others) else {
        return Err(FaultReason::Shape);
    };
    match epc_of(field) {
        Some(epc) => Ok(epc),
        None => Err(FaultReason::Number),
    }
}

/// The operation of a kind at a place in a bank, by the last field of its line.
fn op_at(kind: OpKind, bank: Bank, pointer: Pointer, last: &[u8]) -> Option<Op>
    requires { pointer < 2 ^ 28 }
    ensures value { IfSome result
        (λ op. (op_kind op ≡ kind)
        × (op_fields op ≡ bank_word bank ∷ decimal pointer ∷ last.now ∷ []) × IsLegalOp op) }
    ensures only { (op : Op) → op_kind op ≡ kind
        → op_fields op ≡ bank_word bank ∷ decimal pointer ∷ last.now ∷ [] → IsLegalOp op
        → IsSomeAnd result (λ it. it ≡ op) }
{
    match kind {
        OpKind::Read => {
            let count = number(last, 255)? as u8;
            Some(Op::Read {
                bank,
                pointer,
                count,
            })
        }
        OpKind::Write => {
            let word = word(last)?;
            Some(Op::Write {
                bank,
                pointer,
                word,
            })
        }
        OpKind::BlockWrite => {
            let words = block_of(last)?;
            Some(Op::BlockWrite {
                bank,
                pointer,
                words,
            })
        }
        OpKind::BlockErase => {
            let count = count_of(last)?;
            Some(Op::BlockErase {
                bank,
                pointer,
                count,
            })
        }
        // These name no place.
        OpKind::Lock | OpKind::Access | OpKind::Kill => None,
    }
}

/// The operation of a kind that names no place, by the one field of its line.
fn op_of(kind: OpKind, field: &[u8]) -> Option<Op>
    ensures value { IfSome result
        (λ op. (op_kind op ≡ kind) × (op_fields op ≡ field.now ∷ []) × IsLegalOp op) }
    ensures only { (op : Op) → op_kind op ≡ kind → op_fields op ≡ field.now ∷ [] → IsLegalOp op
        → IsSomeAnd result (λ it. it ≡ op) }
{
    match kind {
        OpKind::Lock => {
            let payload = payload_of(field)?;
            Some(Op::Lock { payload })
        }
        OpKind::Access => {
            let password = password_of(field)?;
            Some(Op::Access { password })
        }
        OpKind::Kill => {
            let password = password_of(field)?;
            Some(Op::Kill { password })
        }
        // These name a place.
        OpKind::Read | OpKind::Write | OpKind::BlockWrite | OpKind::BlockErase => None,
    }
}

/// The operation of a kind that names a place in a bank, which the fields behind the kind spell.
fn read_at_place(kind: OpKind, fields: Fields) -> Result<Op, FaultReason>
    requires { op_field_count kind ≡ 3 }
    ensures ok { IfOk result (IsOpText kind fields.entry) }
    ensures refused { IfErr result (MisreadsOp kind fields.entry) }
{
    let Some((bank, pointer, last)) = three_fields(fields) else {
        return Err(FaultReason::Shape);
    };
    let Some(bank) = bank_named(bank) else {
        return Err(FaultReason::Number);
    };
    let Some(pointer) = pointer_of(pointer) else {
        return Err(FaultReason::Number);
    };
    match op_at(kind, bank, pointer, last) {
        Some(op) => Ok(op),
        None => Err(FaultReason::Number),
    }
}

/// The operation of a kind that names no place, which the field behind the kind spells.
fn read_bare_op(kind: OpKind, fields: Fields) -> Result<Op, FaultReason>
    requires { op_field_count kind ≡ 1 }
    ensures ok { IfOk result (IsOpText kind fields.entry) }
    ensures refused { IfErr result (MisreadsOp kind fields.entry) }
{
    let Some(field) = one_field(fields) else {
        return Err(FaultReason::Shape);
    };
    match op_of(kind, field) {
        Some(op) => Ok(op),
        None => Err(FaultReason::Number),
    }
}

/// The operation of a kind, which the fields behind the kind spell.
fn op_behind(kind: OpKind, fields: Fields) -> Result<Op, FaultReason>
    ensures ok { IfOk result (IsOpText kind fields.entry) }
    ensures refused { IfErr result (MisreadsOp kind fields.entry) }
{
    match kind {
        OpKind::Read => read_at_place(OpKind::Read, fields),
        OpKind::Write => read_at_place(OpKind::Write, fields),
        OpKind::BlockWrite => read_at_place(OpKind::BlockWrite, fields),
        OpKind::BlockErase => read_at_place(OpKind::BlockErase, fields),
        OpKind::Lock => read_bare_op(OpKind::Lock, fields),
        OpKind::Access => read_bare_op(OpKind::Access, fields),
        OpKind::Kill => read_bare_op(OpKind::Kill, fields),
    }
}

/// The operation that the fields behind `op` spell.
pub(crate) fn read_op(mut others: Fields) -> Result<Op, FaultReason>
    ensures ok { IfOk result
        (λ op. (others.entry ≡ op_word (op_kind op) ∷ op_fields op) × IsLegalOp op) }
    ensures refused { IfErr result (MisreadsOpLine others.entry) }
{
    let Some(kind) = others.next() else {
        return Err(FaultReason::Shape);
    };
    let Some(kind) = value_named(kind) else {
        return Err(FaultReason::Word);
    };
    op_behind(kind, others)
}
