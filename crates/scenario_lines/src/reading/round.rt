//! Round lines, read.
ghost use Rattle.std.specs.Prelude.{◌≡◌, ◌++◌, ℕ, codes, IfOk, IfErr, IfSome, Some};
ghost use Rattle.std.specs.Fmt.{decimal};
ghost use Rattle.q_round.specs.SpecValue.{IsLegalRule, IsQfpStep};
ghost use Rattle.q_round.specs.declared.rule.Rule.{Rule};
ghost use Rattle.scenario_lines.specs.declared.version.Version.{Version};
ghost use Rattle.scenario_lines.specs.LineForm.{IsRound};
ghost use Rattle.scenario_lines.specs.Names.{HasRuleText, rule_text};
ghost use Rattle.scenario_lines.specs.Spelling.{round_fields};
ghost use Rattle.scenario_lines.specs.Reading.{MisreadsRound};

use crate::Version;
use crate::names::sel_named;
use checked_lines::FaultReason;
use q_round::{RoundSpec, Rule};
use text_fields::{Fields, number, number_from, q_of, session_of, six_fields};
use wire_text::side_named;

/// By how much a slot moves Qfp, in thousandths, which a field spells.
fn step_of(field: &[u8]) -> Option<u32>
    ensures value { IfSome result (λ step. (field.now ≡ decimal step) × IsQfpStep step) }
    ensures only { (step : ℕ) → IsQfpStep step → field.now ≡ decimal step → result ≡ Some step }
{
    number_from(field, 100, 500)
}

/// By how much a slot moves Qfp, in thousandths, which version 2 spells behind the name of the rule.
fn float_of(field: &[u8]) -> Option<u32>
    ensures value { IfSome result (λ step. (field.now ≡ codes "float-" ++ decimal step)
        × IsQfpStep step) }
    ensures only { (step : ℕ) → IsQfpStep step → field.now ≡ codes "float-" ++ decimal step
        → result ≡ Some step }
{
    step_of(field.strip_prefix(b"float-")?)
}

/// The rule for Q that version 2 spells so.
fn rule_named(field: &[u8]) -> Option<Rule>
    ensures value { IfSome result
        (λ rule. (field.now ≡ rule_text Version.Two rule) × IsLegalRule rule) }
    ensures only { (rule : Rule) → IsLegalRule rule → field.now ≡ rule_text Version.Two rule
        → result ≡ Some rule }
{
    if field == b"fixed".as_slice() {
        Some(Rule::Fixed)
    } else if field == b"frame".as_slice() {
        Some(Rule::Frame)
    } else {
        Some(Rule::Float(float_of(field)?))
    }
}

/// The rule for Q that a field spells, and the version that spells it so.
fn rule_of(field: &[u8]) -> Option<(Version, Rule)>
    ensures value { IfSome result
        (λ it. (field.now ≡ rule_text it.0 it.1) × IsLegalRule it.1 × HasRuleText it.0 it.1) }
    ensures only { (version : Version) → (rule : Rule) → IsLegalRule rule → HasRuleText version rule
        → field.now ≡ rule_text version rule
        → result ≡ Some (version, rule) }
{
    match step_of(field) {
        Some(step) => Some((Version::One, Rule::Float(step))),
        None => Some((Version::Two, rule_named(field)?)),
    }
}

/// The parameters of a round that the fields behind `round` spell, and the version that spells its rule so.
pub(crate) fn read_round(others: Fields) -> Result<(Version, RoundSpec), FaultReason>
    ensures ok { IfOk result (λ it. (others.entry ≡ round_fields it.0 it.1) × IsRound it.0 it.1) }
    ensures refused { IfErr result (MisreadsRound others.entry) }
{
    let Some((sel, session, target, q, rule, limit)) = six_fields(others) else {
        return Err(FaultReason::Shape);
    };
    let Some(sel) = sel_named(sel) else {
        return Err(FaultReason::Number);
    };
    let Some(session) = session_of(session) else {
        return Err(FaultReason::Number);
    };
    let Some(target) = side_named(target) else {
        return Err(FaultReason::Number);
    };
    let Some(q) = q_of(q) else {
        return Err(FaultReason::Number);
    };
    let Some((version, rule)) = rule_of(rule) else {
        return Err(FaultReason::Number);
    };
    let Some(limit) = number(limit, u32::MAX) else {
        return Err(FaultReason::Number);
    };
    match RoundSpec::new(sel, session, target, q, rule, limit) {
        Some(spec) => Ok((version, spec)),
        None => Err(FaultReason::Number),
    }
}
