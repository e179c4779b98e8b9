//! What a line of a probe says that stands behind that of the tag.

use air_events::Event;
use text_fields::Digits;

/// The first field of a line of a probe that is no command.
#[derive(Clone, Copy, Debug, PartialEq, Eq)]
pub(crate) enum LineWord {
    /// `bits`: bits are sent.
    Bits,
    /// `event`: the tag befalls what no command says.
    Event,
    /// `end`: the end of the text.
    End,
}

/// What is done to the tag, by who read its line and put a command into a room that was lent: a command has room for the longest mask
/// and the longest list of words, and nothing that goes from call to call holds one.
#[derive(Drop)]
pub(crate) enum SaidStimulus<'a> {
    /// The command that stands in the room is sent (6.3.2.11 Interrogator commands and tag replies).
    Command,
    /// `bits BITS`: these bits are sent.
    Bits(Digits<'a>),
    /// `event KIND FIELDS`: this befalls the tag.
    Event(Event),
}

/// What a line says, where a command stands in the room that was lent.
#[derive(Drop)]
pub(crate) enum SaidLine<'a> {
    /// This is done to the tag.
    Stimulus(SaidStimulus<'a>),
    /// `end`: nothing more is done.
    End,
}
