//! The signals of a dump, and how they change.
ghost use Rattle.std.specs.Prelude.{◌≡◌, ◌++◌, ◌↔◌, ◌==◌, IsTrue, OnOk, [], ◌∷◌, codes};
ghost use Rattle.std.specs.Fmt.{decimal};
ghost use Rattle.std.specs.String.{string_bytes};
ghost use Rattle.text_fields.specs.Lines.{text_with};
ghost use Rattle.wave_dump.specs.Waves.{change_line, change_lines, level_digit, reader_line, same_bool, same_level, same_text, tag_line, text_at, time_line};
ghost use Rattle.wave_dump.specs.Borrowed.{signals_of};

use bit_strings::OutOfMemory;
use text_fields::push_long_number;

/// The values of the signals.
#[derive(Clone, Copy)]
pub(crate) struct Signals<'a> {
    /// The level of the reader.
    pub(crate) reader: bool,
    /// The level of the tags, where a stream comes.
    pub(crate) tag: Option<bool>,
    /// The number of the exchange.
    pub(crate) exchange: u64,
    /// How many tags reply.
    pub(crate) replies: u32,
    /// The command, with `_` in place of each space.
    pub(crate) command: &'a str,
    /// The reply, in the same form.
    pub(crate) reply: &'a str,
}

/// Whether the level of the tags, which may be none, stays the same from one moment to another, so that its signal doesn't change.
fn same_level(one: Option<bool>, other: Option<bool>) -> bool
    ensures { result ≡ same_level one other }
{
    match (one, other) {
        (None, None) => true,
        (Some(one), Some(other)) => one == other,
        _ => false,
    }
}

/// Whether two texts of a dump are the same, so that their signal doesn't change.
fn same_text(one: &str, other: &str) -> bool
    ensures { result ≡ same_text one.now other.now }
{
    one == other
}

/// Whether no signal of a dump changes from one moment to another.
fn are_same(old: &Signals<'_>, new: &Signals<'_>) -> bool
    ensures { IsTrue result ↔ (change_lines (signals_of old.now) (signals_of new.now) ≡ []) }
{
    old.reader == new.reader
        && same_level(old.tag, new.tag)
        && old.exchange == new.exchange
        && old.replies == new.replies
        && same_text(old.command, new.command)
        && same_text(old.reply, new.reply)
}

/// A level as a digit.
fn digit(level: bool) -> char
    ensures { result ≡ level_digit (Some level) }
{
    if level { '1' } else { '0' }
}

/// A level of the tags as a digit, or `z` for none.
fn tag_digit(level: Option<bool>) -> char
    ensures { result ≡ level_digit level }
{
    level.map_or('z', digit)
}

/// Writes the level of the reader, where it changes.
fn push_reader(text: &mut String, old: bool, new: bool) -> Result<(), OutOfMemory>
    ensures { OnOk result (string_bytes text.new ≡ string_bytes text.old
        ++ text_with (change_line (same_bool old new) (reader_line new))) }
{
    if old == new {
        return Ok(());
    }
    text.push(digit(new))?;
    text.push_str("r\n")
}

/// Writes the level of the tags, where it changes.
fn push_tag(text: &mut String, old: Option<bool>, new: Option<bool>) -> Result<(), OutOfMemory>
    ensures { OnOk result (string_bytes text.new ≡ string_bytes text.old
        ++ text_with (change_line (same_level old new) (tag_line new))) }
{
    if same_level(old, new) {
        return Ok(());
    }
    text.push(tag_digit(new))?;
    text.push_str("t\n")
}

/// Writes a number, where it changes, with a space and the sign of its signal behind it.
fn push_number_value(text: &mut String, old: u64, new: u64, signal: &str) -> Result<(), OutOfMemory>
    ensures { OnOk result (string_bytes text.new ≡ string_bytes text.old
        ++ text_with (change_line (old == new) (codes "r" ++ decimal new ++ signal.now))) }
{
    if old == new {
        return Ok(());
    }
    text.push('r')?;
    push_long_number(text, new)?;
    text.push_str(signal)?;
    text.push('\n')
}

/// Writes a text, where it changes, with a space and the sign of its signal behind it.
fn push_text_value(text: &mut String, old: &str, new: &str, signal: &str) -> Result<(), OutOfMemory>
    ensures { OnOk result (string_bytes text.new ≡ string_bytes text.old
        ++ text_with
        (change_line (same_text old.now new.now) (codes "s" ++ new.now ++ signal.now))) }
{
    if same_text(old, new) {
        return Ok(());
    }
    text.push('s')?;
    text.push_str(new)?;
    text.push_str(signal)?;
    text.push('\n')
}

/// Writes each signal that changes.
pub(crate) fn push_changes(
    text: &mut String,
    old: &Signals<'_>,
    new: &Signals<'_>,
) -> Result<(), OutOfMemory>
    ensures { OnOk result (string_bytes text.new ≡ string_bytes text.old
        ++ text_with (change_lines (signals_of old.now) (signals_of new.now))) }
{
    push_reader(text, old.reader, new.reader)?;
    push_tag(text, old.tag, new.tag)?;
    push_number_value(text, old.exchange, new.exchange, " e")?;
    push_number_value(text, u64::from(old.replies), u64::from(new.replies), " n")?;
    push_text_value(text, old.command, new.command, " c")?;
    push_text_value(text, old.reply, new.reply, " g")
}

/// Writes the line of a time in a dump: `#` and the time in nanoseconds.
pub(crate) fn push_time(text: &mut String, time: u64) -> Result<(), OutOfMemory>
    ensures { OnOk result (string_bytes text.new ≡ string_bytes text.old
        ++ text_with (time_line time ∷ [])) }
{
    text.push('#')?;
    push_long_number(text, time)?;
    text.push('\n')
}

/// Writes a moment: the time and each signal that changes at it, where one changes.
pub(crate) fn push_moment(
    text: &mut String,
    time: u64,
    old: &Signals<'_>,
    new: &Signals<'_>,
) -> Result<(), OutOfMemory>
    ensures { OnOk result (string_bytes text.new ≡ string_bytes text.old
        ++ text_at time (change_lines (signals_of old.now) (signals_of new.now))) }
{
    if are_same(old, new) {
        return Ok(());
    }
    push_time(text, time)?;
    push_changes(text, old, new)
}
