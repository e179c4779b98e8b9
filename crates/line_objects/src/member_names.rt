//! The members of objects: what each is called, and what its value is made of.
ghost use Rattle.std.specs.Prelude.{◌≡◌};
ghost use Rattle.line_objects.specs.MemberNames.{key_name, key_shape};

/// A member that the object of a line may have, without its value.
#[derive(Clone, Copy)]
pub enum Key {
    /// What a Select does (6.3.2.11.1.1).
    Action,
    /// A bank of memory.
    Bank,
    /// Bits.
    Bits,
    /// A line code.
    Code,
    /// The name of a command; its fields stand behind it.
    Command,
    /// How many.
    Count,
    /// The random number that covers the next word.
    Cover,
    /// A word under its cover.
    Covered,
    /// The divide ratio.
    Dr,
    /// How a round ended.
    End,
    /// The words of an EPC.
    Epc,
    /// The EPC bank of a tag.
    EpcBank,
    /// The words of an EPC, in a line that has nothing else.
    EpcWords,
    /// The code of an error reply (Annex I).
    Error,
    /// The number of an exchange.
    Exchange,
    /// The flags of a tag.
    Flags,
    /// What the channel gave; who sent it stands behind.
    Given,
    /// The first half of a password.
    Half,
    /// A handle.
    Handle,
    /// The number of an operation.
    Index,
    /// Levels.
    Levels,
    /// The number of a line of the input.
    Line,
    /// The lock bits of a tag.
    Locks,
    /// The mask of a Select.
    Mask,
    /// The payload of a Lock.
    Payload,
    /// The protocol-control word.
    Pc,
    /// The word between two answers of which either could come.
    Or,
    /// The preamble of the second of them; its reply stands behind it.
    OrPreamble,
    /// A place, counted from 0.
    Place,
    /// Where the mask of a Select is compared.
    Pointer,
    /// With the preamble of the Query, or with the extended one.
    Preamble,
    /// Where an access command begins.
    Ptr,
    /// Q.
    Q,
    /// A reason.
    Reason,
    /// A place, or a reason.
    Refused,
    /// The name of a reply; its fields stand behind it.
    Reply,
    /// The Reserved bank of a tag.
    Reserved,
    /// How an operation ended.
    Result,
    /// An RN16 or a handle that a command echoes.
    Rn,
    /// An RN16.
    Rn16,
    /// The number of a round.
    Round,
    /// RTcal, in nanoseconds.
    RtCal,
    /// Sel of a Query.
    Sel,
    /// A session.
    Session,
    /// A slot.
    Slot,
    /// How many slots a round had.
    Slots,
    /// The state of a tag.
    State,
    /// The state of a tag; its flags and numbers stand behind it.
    StateOf,
    /// The number of a tag.
    Tag,
    /// The number of a tag in its own line.
    TagNumber,
    /// The flag that is asked for, or is changed.
    Target,
    /// Tari, in nanoseconds.
    Tari,
    /// The TID bank of a tag.
    Tid,
    /// TRcal, in nanoseconds.
    TrCal,
    /// TRext.
    TrExt,
    /// What becomes of Q.
    UpDn,
    /// The URI of a trade item number.
    Uri,
    /// The User bank of a tag.
    User,
    /// What an operation brought.
    Value,
    /// The preamble of what had to be answered, or that nothing had to be; what stands behind it says more.
    Wanted,
    /// Words of memory.
    Words,
}

/// What the value of a member is made of.
#[derive(Clone, Copy)]
pub enum Shape {
    /// A field that is a number.
    Number,
    /// A field that is a text.
    Text,
    /// The words of an EPC; where they are those of a trade item number its URI is a member more.
    EpcText,
    /// A field that is a place where it is a number, and else a reason.
    PlaceOrReason,
    /// A word that joins what stands around it, and is no member.
    Joint,
}

impl Key {
    /// What the member is called.
    pub fn name(self) -> &'static str
        ensures { result.now ≡ key_name self }
    {
        match self {
            Key::Action => "action",
            Key::Bank => "bank",
            Key::Bits => "bits",
            Key::Code => "code",
            Key::Command => "command",
            Key::Count => "count",
            Key::Cover => "cover",
            Key::Covered => "covered",
            Key::Dr => "dr",
            Key::End => "end",
            Key::Epc => "epc",
            Key::EpcBank => "epc",
            Key::EpcWords => "words",
            Key::Error => "error",
            Key::Exchange => "exchange",
            Key::Flags => "flags",
            Key::Given => "given",
            Key::Half => "half",
            Key::Handle => "handle",
            Key::Index => "index",
            Key::Levels => "levels",
            Key::Line => "line",
            Key::Locks => "locks",
            Key::Mask => "mask",
            Key::Payload => "payload",
            Key::Pc => "pc",
            Key::Or => "or",
            Key::OrPreamble => "or",
            Key::Place => "place",
            Key::Pointer => "pointer",
            Key::Preamble => "preamble",
            Key::Ptr => "ptr",
            Key::Q => "q",
            Key::Reason => "reason",
            Key::Refused => "reason",
            Key::Reply => "reply",
            Key::Reserved => "res",
            Key::Result => "result",
            Key::Rn => "rn",
            Key::Rn16 => "rn16",
            Key::Round => "round",
            Key::RtCal => "rtcal",
            Key::Sel => "sel",
            Key::Session => "session",
            Key::Slot => "slot",
            Key::Slots => "slots",
            Key::State => "state",
            Key::StateOf => "state",
            Key::Tag => "tag",
            Key::TagNumber => "number",
            Key::Target => "target",
            Key::Tari => "tari",
            Key::Tid => "tid",
            Key::TrCal => "trcal",
            Key::TrExt => "trext",
            Key::UpDn => "updn",
            Key::Uri => "uri",
            Key::User => "user",
            Key::Value => "value",
            Key::Wanted => "preamble",
            Key::Words => "words",
        }
    }

    /// What the value of this member is made of, in the object of a line.
    pub fn shape(self) -> Shape
        ensures { result ≡ key_shape self }
    {
        match self {
            Key::Action
            | Key::Count
            | Key::Dr
            | Key::Exchange
            | Key::Index
            | Key::Line
            | Key::Place
            | Key::Pointer
            | Key::Ptr
            | Key::Q
            | Key::Round
            | Key::RtCal
            | Key::Session
            | Key::Slot
            | Key::Slots
            | Key::Tag
            | Key::TagNumber
            | Key::Tari
            | Key::TrCal
            | Key::TrExt => Shape::Number,
            Key::Epc | Key::EpcWords => Shape::EpcText,
            Key::Refused => Shape::PlaceOrReason,
            Key::Or => Shape::Joint,
            _ => Shape::Text,
        }
    }
}
