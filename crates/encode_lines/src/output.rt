//! The lines that are written.
ghost use Rattle.std.specs.Prelude.{◌≡◌, ◌++◌, [], ◌∷◌, map, codes, OnOk};
ghost use Rattle.std.specs.String.{string_bytes};
ghost use Rattle.std.specs.Fmt.{decimal};
ghost use Rattle.text_fields.specs.Binary.{binary, binary_digit};
ghost use Rattle.text_fields.specs.CodeNames.{code_word};
ghost use Rattle.wire_text.specs.ReplyText.{expect_word};
ghost use Rattle.encode_lines.specs.EncodeLines.{written_line};
ghost use Rattle.encode_lines.specs.Written.{refusal_word, refused_fields};

use bit_strings::{Bits, Code, Levels, OutOfMemory};
use pie_line::{Intervals, LinkRefusal};
use pie_text::KeptIntervals;
use reply_grammar::Expect;
use text_fields::{name_of, push_next_bits, push_next_name};
use wire_text::{bit_name, push_next_expect};

/// Writes the line of a stream: `CODE TREXT LEVELS`.
pub(crate) fn push_stream(
    text: &mut String,
    code: Code,
    trext: bool,
    levels: &Levels,
) -> Result<(), OutOfMemory>
    ensures { OnOk result (string_bytes text.new ≡ string_bytes text.old
        ++ written_line (code_word code ∷
        (binary_digit trext ∷ []) ∷ binary levels.now.items ∷ [])) }
{
    text.push_str(name_of(code))?;
    push_next_name(text, bit_name(trext))?;
    push_next_bits(text, levels.as_slice())?;
    text.push_str("\n")
}

/// Writes the line of a frame: `pie INTERVALS`.
pub(crate) fn push_wave(
    text: &mut String,
    intervals: &Intervals,
    kept: &mut KeptIntervals,
) -> Result<(), OutOfMemory>
    ensures { OnOk result (string_bytes text.new ≡ string_bytes text.old
        ++ written_line (codes "pie" ∷ map decimal intervals.now.items)) }
{
    text.push_str("pie")?;
    kept.push_next(text, intervals.as_slice())?;
    text.push_str("\n")
}

/// Writes the line of a link that is refused.
pub(crate) fn push_link_refusal(text: &mut String, refusal: LinkRefusal) -> Result<(), OutOfMemory>
    ensures { OnOk result (string_bytes text.new ≡ string_bytes text.old
        ++ written_line (refused_fields (refusal_word refusal))) }
{
    text.push_str(match refusal {
        LinkRefusal::Tari => "refused tari\n",
        LinkRefusal::RtCal => "refused rtcal\n",
        LinkRefusal::TrCal => "refused trcal\n",
        LinkRefusal::Pw => "refused pw\n",
    })
}

/// Writes the line of a command's bits: `command BITS`.
pub(crate) fn push_command_bits(text: &mut String, bits: &Bits) -> Result<(), OutOfMemory>
    ensures { OnOk result (string_bytes text.new ≡ string_bytes text.old
        ++ written_line (codes "command" ∷ binary bits.now.items ∷ [])) }
{
    text.push_str("command")?;
    push_next_bits(text, bits.as_slice())?;
    text.push_str("\n")
}

/// Writes the line of a reply's bits: `reply EXPECT BITS`.
pub(crate) fn push_reply_bits(
    text: &mut String,
    expect: &Expect,
    bits: &Bits,
) -> Result<(), OutOfMemory>
    ensures { OnOk result (string_bytes text.new ≡ string_bytes text.old
        ++ written_line (codes "reply" ∷ expect_word expect.now ∷ binary bits.now.items ∷ [])) }
{
    text.push_str("reply")?;
    push_next_expect(text, expect)?;
    push_next_bits(text, bits.as_slice())?;
    text.push_str("\n")
}

/// Writes the line of a reply's stream: `heard CODE TREXT EXPECT LEVELS`.
pub(crate) fn push_heard(
    text: &mut String,
    code: Code,
    trext: bool,
    expect: &Expect,
    levels: &Levels,
) -> Result<(), OutOfMemory>
    ensures { OnOk result (string_bytes text.new ≡ string_bytes text.old
        ++ written_line (codes "heard" ∷ code_word code ∷ (binary_digit trext ∷ [])
        ∷ expect_word expect.now ∷ binary levels.now.items ∷ [])) }
{
    text.push_str("heard")?;
    push_next_name(text, name_of(code))?;
    push_next_name(text, bit_name(trext))?;
    push_next_expect(text, expect)?;
    push_next_bits(text, levels.as_slice())?;
    text.push_str("\n")
}

/// Writes the line of a reply that is refused.
pub(crate) fn push_reply_refusal(text: &mut String) -> Result<(), OutOfMemory>
    ensures { OnOk result (string_bytes text.new ≡ string_bytes text.old
        ++ written_line (refused_fields (codes "reply"))) }
{
    text.push_str("refused reply\n")
}
