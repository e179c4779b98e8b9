//! The link line, written.
ghost use Rattle.std.specs.Prelude.{◌≡◌, ◌++◌, [], ◌∷◌, codes, OnOk};
ghost use Rattle.std.specs.String.{string_bytes};
ghost use Rattle.std.specs.Fmt.{decimal};
ghost use Rattle.text_fields.specs.Lines.{line_feed, line_with, space};
ghost use Rattle.text_fields.specs.CodeNames.{code_word};
ghost use Rattle.scenario_lines.specs.Spelling.{flag_text, line_text};
ghost use Rattle.scenario_lines.specs.declared.line.Line.TheVariants as lines;

use bit_strings::OutOfMemory;
use pie_line::Link;
use text_fields::{name_of, push_next_name, push_next_number};
use wire_text::bit_name;

/// Writes `link` and the four lengths of a link, in nanoseconds.
fn push_lengths(text: &mut String, link: &Link) -> Result<(), OutOfMemory>
    ensures { OnOk result (string_bytes text.new ≡ string_bytes text.old
        ++ line_with (codes "link" ∷ decimal link.now.tari ∷ decimal link.now.rtcal
        ∷ decimal link.now.trcal ∷ decimal link.now.pw ∷ [])) }
{
    text.push_str("link")?;
    push_next_number(text, link.tari())?;
    push_next_number(text, link.rtcal())?;
    push_next_number(text, link.trcal())?;
    push_next_number(text, link.pw())
}

/// Writes what a Query says of the replies: DR, the code and TRext.
fn next_replies(text: &mut String, link: &Link) -> Result<(), OutOfMemory>
    ensures { OnOk result (string_bytes text.new ≡ string_bytes text.old
        ++ space ∷ line_with
        (flag_text link.now.dr ∷ code_word link.now.code ∷ flag_text link.now.trext ∷ [])) }
{
    push_next_name(text, bit_name(link.dr()))?;
    push_next_name(text, name_of(link.code()))?;
    push_next_name(text, bit_name(link.trext()))
}

/// Writes `link TARI RTCAL TRCAL PW DR CODE TREXT`.
pub fn push_link(text: &mut String, link: &Link) -> Result<(), OutOfMemory>
    ensures { OnOk result (string_bytes text.new ≡ string_bytes text.old
        ++ (line_text (lines.Link link.now) ++ line_feed ∷ [])) }
{
    push_lengths(text, link)?;
    next_replies(text, link)?;
    text.push('\n')
}
