//! The lines above the tags that have one word behind their first field, read: the version of the text, and what the channel
//! gives by default.
ghost use Rattle.std.specs.Prelude.{◌≡◌, IfOk, IfErr, [], ◌∷◌};
ghost use Rattle.air_events.specs.declared.Several.{Several};
ghost use Rattle.text_fields.specs.NamedFields.{AreFilled};
ghost use Rattle.scenario_lines.specs.declared.version.Version.{Version};
ghost use Rattle.scenario_lines.specs.Names.{several_text, version_digit};
ghost use Rattle.scenario_lines.specs.Reading.{Misreads};

use crate::Version;
use crate::names::several_named;
use air_events::Several;
use checked_lines::FaultReason;
use text_fields::{Fields, one_field};

/// The version that the field behind `gen2` spells.
pub(crate) fn read_version(others: Fields) -> Result<Version, FaultReason>
    ensures ok { IfOk result (λ version. others.entry ≡ version_digit version ∷ []) }
    ensures refused { IfErr result
        (Misreads (AreFilled 1) (λ version. version_digit version ∷ [])
        (λ (_ : Version). Unit {0}) others.entry) }
{
    match one_field(others) {
        Some(b"1") => Ok(Version::One),
        Some(b"2") => Ok(Version::Two),
        Some(_) => Err(FaultReason::Number),
        None => Err(FaultReason::Shape),
    }
}

/// What the channel gives by default where several tags reply, which the field behind `default` spells.
pub(crate) fn read_default(others: Fields) -> Result<Several, FaultReason>
    ensures ok { IfOk result (λ several. others.entry ≡ several_text several ∷ []) }
    ensures refused { IfErr result
        (Misreads (AreFilled 1) (λ several. several_text several ∷ [])
        (λ (_ : Several). Unit {0}) others.entry) }
{
    let Some(field) = one_field(others) else {
        return Err(FaultReason::Shape);
    };
    match several_named(field) {
        Some(several) => Ok(several),
        None => Err(FaultReason::Number),
    }
}
