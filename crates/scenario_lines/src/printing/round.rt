//! Round lines, written.
ghost use Rattle.std.specs.Prelude.{◌≡◌, ◌++◌, [], ◌∷◌, codes, OnOk};
ghost use Rattle.std.specs.String.{string_bytes};
ghost use Rattle.std.specs.Fmt.{decimal};
ghost use Rattle.text_fields.specs.Lines.{line_feed, line_with, space};
ghost use Rattle.wire_text.specs.CommandText.{side_word};
ghost use Rattle.scenario_lines.specs.Names.{rule_text, sel_text};
ghost use Rattle.scenario_lines.specs.Spelling.{line_text};
ghost use Rattle.scenario_lines.specs.declared.line.Line.TheVariants as lines;

use crate::Version;
use crate::names::sel_name;
use bit_strings::OutOfMemory;
use q_round::{RoundSpec, Rule};
use text_fields::{push_next_name, push_next_number, push_number};
use wire_text::side_name;

/// Writes `round` and the tags that a round speaks to.
fn push_tags(text: &mut String, spec: &RoundSpec) -> Result<(), OutOfMemory>
    ensures { OnOk result (string_bytes text.new ≡ string_bytes text.old
        ++ line_with (codes "round" ∷ sel_text spec.now.sel ∷ decimal spec.now.session
        ∷ side_word spec.now.target ∷ [])) }
{
    text.push_str("round")?;
    push_next_name(text, sel_name(spec.sel()))?;
    push_next_number(text, u32::from(spec.session().get()))?;
    push_next_name(text, side_name(spec.target()))
}

/// Writes a rule for Q as this version spells it. Version 1 has no spelling for a rule that doesn't move Qfp, and nothing
/// is written for it.
fn next_rule(text: &mut String, version: Version, rule: Rule) -> Result<(), OutOfMemory>
    ensures { OnOk result (string_bytes text.new ≡ string_bytes text.old
        ++ space ∷ rule_text version rule) }
{
    match (version, rule) {
        (Version::One, Rule::Float(step)) => push_next_number(text, step),
        (Version::One, _) => push_next_name(text, ""),
        (Version::Two, Rule::Fixed) => push_next_name(text, "fixed"),
        (Version::Two, Rule::Float(step)) => {
            push_next_name(text, "float-")?;
            push_number(text, step)
        }
        (Version::Two, Rule::Frame) => push_next_name(text, "frame"),
    }
}

/// Writes `round SEL SESSION TARGET Q RULE LIMIT`, the rule as this version spells it.
pub fn push_round(text: &mut String, version: Version, spec: &RoundSpec) -> Result<(), OutOfMemory>
    ensures { OnOk result (string_bytes text.new ≡ string_bytes text.old
        ++ (line_text (lines.Round version spec.now) ++ line_feed ∷ [])) }
{
    push_tags(text, spec)?;
    push_next_number(text, u32::from(spec.q().get()))?;
    next_rule(text, version, spec.rule())?;
    push_next_number(text, spec.limit())?;
    text.push('\n')
}
