//! The lines of two portals, written.
ghost use Rattle.std.specs.Prelude.{◌≡◌, [], ◌∷◌, ◌++◌, IfOk, OnOk};
ghost use Rattle.std.specs.Fmt.{decimal};
ghost use Rattle.std.specs.String.{string_bytes};
ghost use Rattle.text_fields.specs.Lines.{line_with, space};
ghost use Rattle.top_call.specs.PortalText.{quiet_word, mark_word, portal_line_text, portals_text};

use bit_strings::OutOfMemory;
use std::alloc::Global;
use text_fields::{push_next_name, push_next_number};
use two_portals::PortalLine;

/// The text of the lines of two portals: `portal S K JOINT ALONE END MARK` for each, and then `done`.
///
/// # Errors
///
/// There was no memory.
pub(crate) fn portals_text(alloc: Global, lines: &[PortalLine]) -> Result<String, OutOfMemory>
    ensures { IfOk result (λ text. string_bytes text ≡ portals_text lines.now) }
{
    let mut text = String::new(alloc);
    for line in lines {
        push_line(&mut text, line)?;
    }
    text.push_str("done\n")?;
    Ok(text)
}

/// Writes the line of a round.
fn push_line(text: &mut String, line: &PortalLine) -> Result<(), OutOfMemory>
    ensures { OnOk result (string_bytes text.new ≡ string_bytes text.old
        ++ portal_line_text line.now) }
{
    text.push_str("portal")?;
    push_next_counts(text, line)?;
    push_next_name(text, end_name(line.quiet))?;
    push_next_name(text, mark_name(line.same))?;
    text.push('\n')
}

/// Writes the session of a round, its number, and how many EPCs were listed jointly and alone, as the next fields.
fn push_next_counts(text: &mut String, line: &PortalLine) -> Result<(), OutOfMemory>
    ensures { OnOk result (string_bytes text.new ≡ string_bytes text.old
        ++ space ∷ line_with
        (decimal line.now.session ∷ decimal line.now.number ∷ decimal line.now.joint ∷ decimal
        line.now.alone ∷ [])) }
{
    push_next_number(text, u32::from(line.session.get()))?;
    push_next_number(text, line.number)?;
    push_next_number(text, line.joint)?;
    push_next_number(text, line.alone)
}

/// Whether the round ended after a whole frame of silent slots, jointly and alone.
fn end_name(quiet: bool) -> &'static str
    ensures { result.now ≡ quiet_word quiet }
{
    if quiet { "quiet" } else { "limit" }
}

/// Whether the same was listed jointly and alone.
fn mark_name(same: bool) -> &'static str
    ensures { result.now ≡ mark_word same }
{
    if same { "same" } else { "other" }
}
