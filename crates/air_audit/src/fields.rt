//! The fields of the lines of exchanges.
ghost use Rattle.std.specs.Prelude.{◌≡◌, IsFalse, IsTrue};
ghost use Rattle.std.specs.Fmt.{decimal};
ghost use Rattle.air_audit.specs.LineRefusals.{audit_reason_of};

use crate::AuditReason;
use text_fields::{FieldsFault, number};

/// Whether a field spells this number.
pub(crate) fn spells(field: &[u8], value: u32) -> bool
    ensures yes { IsTrue result → field.now ≡ decimal value }
    ensures no { IsFalse result → ¬ (field.now ≡ decimal value) }
{
    number(field, u32::MAX) == Some(value)
}

/// The reason for which a line with such a fault is refused.
pub(crate) fn reason_of(fault: FieldsFault) -> AuditReason
    ensures { result ≡ audit_reason_of fault }
{
    match fault {
        FieldsFault::Word => AuditReason::Word,
        FieldsFault::Shape => AuditReason::Shape,
        FieldsFault::Number => AuditReason::Number,
    }
}
