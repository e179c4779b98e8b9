//! The names in a line, read; and written where one stands for a value of several.
ghost use Rattle.std.specs.Prelude.{◌≡◌, ◌≢◌, IfSome};
ghost use Rattle.wire_text.specs.CommandText.{flag_word};
ghost use Rattle.scenario_lines.specs.Names.{air_found, all_air_kinds, air_word, all_keywords, event_kind, event_word, keyword_found, keyword_text, op_found, all_op_kinds, op_word, sel_text, several_text, version_digit};

use crate::{AirKind, EventKind, Keyword, OpKind, Version};
use air_events::{Event, Several};
use command_grammar::{FlagName, Sel};
use wire_text::{Named, flag_named, value_named};

impl Named for Keyword {
    ghost word = { keyword_text };

    ghost values = { all_keywords };

    ghost finds = { keyword_found };

    fn all() -> &'static [Keyword] {
        &[
            Keyword::Version,
            Keyword::Link,
            Keyword::Default,
            Keyword::Tag,
            Keyword::Copies,
            Keyword::Air,
            Keyword::Select,
            Keyword::Nak,
            Keyword::Event,
            Keyword::Round,
            Keyword::Only,
            Keyword::Op,
            Keyword::End,
        ]
    }

    fn name(self) -> &'static str {
        match self {
            Keyword::Version => "gen2",
            Keyword::Link => "link",
            Keyword::Default => "default",
            Keyword::Tag => "tag",
            Keyword::Copies => "copies",
            Keyword::Air => "air",
            Keyword::Select => "select",
            Keyword::Nak => "nak",
            Keyword::Event => "event",
            Keyword::Round => "round",
            Keyword::Only => "only",
            Keyword::Op => "op",
            Keyword::End => "end",
        }
    }
}

/// The name of a version.
pub(crate) fn version_name(version: Version) -> &'static str
    ensures { result.now ≡ version_digit version }
{
    match version {
        Version::One => "1",
        Version::Two => "2",
    }
}

/// What the channel gives by this name where several tags reply.
pub(crate) fn several_named(field: &[u8]) -> Option<Several>
    ensures value { IfSome result (λ several. field.now ≡ several_text several) }
    ensures only { (several : Several) → field.now ≡ several_text several → result ≡ Some several }
{
    if field == b"break".as_slice() {
        Some(Several::Break)
    } else if field == b"capture".as_slice() {
        Some(Several::Capture)
    } else {
        None
    }
}

/// The name of what the channel gives where several tags reply.
pub(crate) fn several_name(several: Several) -> &'static str
    ensures { result.now ≡ several_text several }
{
    match several {
        Several::Break => "break",
        Several::Capture => "capture",
    }
}

/// The kind of an event of this name.
pub fn event_kind_named(field: &[u8]) -> Option<EventKind>
    ensures value { IfSome result (λ kind. field.now ≡ event_word kind) }
    ensures only { (kind : EventKind) → field.now ≡ event_word kind → result ≡ Some kind }
{
    match value_named(field)? {
        AirKind::Event(kind) => Some(kind),
        _ => None,
    }
}

/// The name of the kind of an event.
pub(crate) fn event_name(event: Event) -> &'static str
    ensures { result.now ≡ event_word (event_kind event) }
{
    match event {
        Event::Timeout => "timeout",
        Event::Off => "off",
        Event::On => "on",
        Event::Expire(_) => "expire",
    }
}

impl Named for AirKind {
    ghost word = { air_word };

    ghost values = { all_air_kinds };

    ghost finds = { air_found };

    fn all() -> &'static [AirKind] {
        &[
            AirKind::Event(EventKind::Timeout),
            AirKind::Event(EventKind::Off),
            AirKind::Event(EventKind::On),
            AirKind::Event(EventKind::Expire),
            AirKind::Miss,
            AirKind::Pick,
            AirKind::Silent,
            AirKind::Break,
            AirKind::Raw,
        ]
    }

    fn name(self) -> &'static str {
        match self {
            AirKind::Event(EventKind::Timeout) => "timeout",
            AirKind::Event(EventKind::Off) => "off",
            AirKind::Event(EventKind::On) => "on",
            AirKind::Event(EventKind::Expire) => "expire",
            AirKind::Miss => "miss",
            AirKind::Pick => "pick",
            AirKind::Silent => "silent",
            AirKind::Break => "break",
            AirKind::Raw => "raw",
        }
    }
}

impl Named for OpKind {
    ghost word = { op_word };

    ghost values = { all_op_kinds };

    ghost finds = { op_found };

    fn all() -> &'static [OpKind] {
        &[
            OpKind::Read,
            OpKind::Write,
            OpKind::BlockWrite,
            OpKind::BlockErase,
            OpKind::Lock,
            OpKind::Access,
            OpKind::Kill,
        ]
    }

    fn name(self) -> &'static str {
        match self {
            OpKind::Read => "read",
            OpKind::Write => "write",
            OpKind::BlockWrite => "blockwrite",
            OpKind::BlockErase => "blockerase",
            OpKind::Lock => "lock",
            OpKind::Access => "access",
            OpKind::Kill => "kill",
        }
    }
}

/// The flag of this name whose persistence ends: each but S0.
pub fn expiring_flag_named(field: &[u8]) -> Option<FlagName>
    ensures value { IfSome result (λ flag. (field.now ≡ flag_word flag) × (flag ≢ FlagName.S0)) }
    ensures only { (flag : FlagName) → flag ≢ FlagName.S0 → field.now ≡ flag_word flag
        → result ≡ Some flag }
{
    match flag_named(field) {
        Some(FlagName::S0) => None,
        named => named,
    }
}

/// The tags of this name that a round speaks to.
pub(crate) fn sel_named(field: &[u8]) -> Option<Sel>
    ensures value { IfSome result (λ sel. (field.now ≡ sel_text sel) × (sel ≢ Sel.All01)) }
    ensures only { (sel : Sel) → sel ≢ Sel.All01 → field.now ≡ sel_text sel → result ≡ Some sel }
{
    if field == b"all".as_slice() {
        Some(Sel::All00)
    } else if field == b"nsl".as_slice() {
        Some(Sel::NotSl)
    } else if field == b"sl".as_slice() {
        Some(Sel::Sl)
    } else {
        None
    }
}

/// The word for the tags that a round speaks to. The code 01, which means all as well, has none.
pub(crate) fn sel_name(sel: Sel) -> &'static str
    ensures { result.now ≡ sel_text sel }
{
    match sel {
        Sel::All00 => "all",
        Sel::All01 => "",
        Sel::NotSl => "nsl",
        Sel::Sl => "sl",
    }
}
