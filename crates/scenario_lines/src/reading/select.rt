//! Select lines, read.
ghost use Rattle.std.specs.Prelude.{◌≡◌, IfOk, IfErr};
ghost use Rattle.scenario_lines.specs.declared.line.Selection.{Selection};
ghost use Rattle.scenario_lines.specs.LineForm.{IsSelection};
ghost use Rattle.scenario_lines.specs.Spelling.{select_fields};
ghost use Rattle.text_fields.specs.NamedFields.{AreFilled};
ghost use Rattle.scenario_lines.specs.Reading.{Misreads};

use crate::Selection;
use checked_lines::FaultReason;
use text_fields::{Fields, action_of, five_fields, pointer_of};
use wire_text::{flag_named, mask_bank_named, mask_of};

/// What the fields behind `select` name.
pub(crate) fn read_select(others: Fields) -> Result<Selection, FaultReason>
    ensures ok { IfOk result (λ it. (others.entry ≡ select_fields it) × IsSelection it) }
    ensures refused { IfErr result (Misreads (AreFilled 5) select_fields IsSelection others.entry) }
{
    let Some((target, action, bank, pointer, mask)) = five_fields(others) else {
        return Err(FaultReason::Shape);
    };
    let Some(target) = flag_named(target) else {
        return Err(FaultReason::Number);
    };
    let Some(action) = action_of(action) else {
        return Err(FaultReason::Number);
    };
    let Some(bank) = mask_bank_named(bank) else {
        return Err(FaultReason::Number);
    };
    let Some(pointer) = pointer_of(pointer) else {
        return Err(FaultReason::Number);
    };
    let Some(mask) = mask_of(mask) else {
        return Err(FaultReason::Number);
    };
    Ok(Selection {
        target,
        action,
        bank,
        pointer,
        mask,
    })
}
