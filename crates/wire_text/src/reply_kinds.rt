//! The names of the replies, and how many fields stand behind each.
ghost use Rattle.std.specs.Prelude.{◌≡◌, IfSome, Some};
ghost use Rattle.wire_text.specs.ReplyText.{reply_field_count, reply_name};

/// Which reply it is, as its name says.
#[derive(Clone, Copy, Debug, PartialEq, Eq)]
pub enum ReplyKind {
    /// `rn16`: an RN16 alone.
    Rn16,
    /// `epc`: PC and EPC.
    Epc,
    /// `handle`: a handle, or a new RN16.
    Handle,
    /// `words`: the words that were read.
    Words,
    /// `header`: success.
    Header,
    /// `error`: an error code (Annex I).
    Error,
}

/// The reply of this name.
pub(crate) fn reply_named(name: &[u8]) -> Option<ReplyKind>
    ensures value { IfSome result (λ kind. name.now ≡ reply_name kind) }
    ensures only { (kind : ReplyKind) → name.now ≡ reply_name kind → result ≡ Some kind }
{
    match name {
        b"rn16" => Some(ReplyKind::Rn16),
        b"epc" => Some(ReplyKind::Epc),
        b"handle" => Some(ReplyKind::Handle),
        b"words" => Some(ReplyKind::Words),
        b"header" => Some(ReplyKind::Header),
        b"error" => Some(ReplyKind::Error),
        _ => None,
    }
}

/// How many fields stand behind the name of a reply.
pub(crate) fn field_count(kind: ReplyKind) -> u32
    ensures { result ≡ reply_field_count kind }
{
    match kind {
        ReplyKind::Rn16 => 1,
        ReplyKind::Epc => 2,
        ReplyKind::Handle => 1,
        ReplyKind::Words => 1,
        ReplyKind::Header => 0,
        ReplyKind::Error => 1,
    }
}
