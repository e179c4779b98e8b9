//! Lines, written, each with its line feed. After an error the text may hold a part of the line.
ghost use Rattle.std.specs.Prelude.{◌≡◌, ◌++◌, [], ◌∷◌, OnOk};
ghost use Rattle.std.specs.String.{string_bytes};
ghost use Rattle.text_fields.specs.Lines.{line_feed};
ghost use Rattle.scenario_lines.specs.Spelling.{line_text};
ghost use Rattle.scenario_lines.specs.declared.line.Line.TheVariants as lines;

mod air;
mod link;
mod op;
mod round;
mod tag;

use crate::Version;
use crate::names::{several_name, version_name};
pub use air::{push_air_choice, push_air_event, push_air_miss, push_event};
use air_events::Several;
use bit_strings::OutOfMemory;
pub use link::push_link;
pub use op::{push_only, push_op};
pub use round::push_round;
pub use tag::{push_copies, push_tag};
use text_fields::push_next_name;

/// Writes `gen2 1` or `gen2 2`, the first line of a scenario.
pub fn push_version(text: &mut String, version: Version) -> Result<(), OutOfMemory>
    ensures { OnOk result (string_bytes text.new ≡ string_bytes text.old
        ++ (line_text (lines.Version version) ++ line_feed ∷ [])) }
{
    text.push_str("gen2")?;
    push_next_name(text, version_name(version))?;
    text.push('\n')
}

/// Writes `default break` or `default capture`: what the channel gives where several tags reply and nothing is chosen.
pub fn push_default(text: &mut String, several: Several) -> Result<(), OutOfMemory>
    ensures { OnOk result (string_bytes text.new ≡ string_bytes text.old
        ++ (line_text (lines.Default several) ++ line_feed ∷ [])) }
{
    text.push_str("default")?;
    push_next_name(text, several_name(several))?;
    text.push('\n')
}

/// Writes `nak`, the line of a step in which a NAK is sent.
pub fn push_nak(text: &mut String) -> Result<(), OutOfMemory>
    ensures { OnOk result (string_bytes text.new ≡ string_bytes text.old
        ++ (line_text lines.Nak ++ line_feed ∷ [])) }
{
    text.push_str("nak\n")
}

/// Writes `end`, the last line of a scenario.
pub fn push_end(text: &mut String) -> Result<(), OutOfMemory>
    ensures { OnOk result (string_bytes text.new ≡ string_bytes text.old
        ++ (line_text lines.End ++ line_feed ∷ [])) }
{
    text.push_str("end\n")
}
