//! The lines of a text, and how a text is cut at a byte.
ghost use Rattle.std.specs.Prelude.{◌≡◌, ◌+◌, ◌<◌, ◌↔◌, length, take, drop, [], ◌∷◌, ◌++◌, IsNone, IfSome, IfNone};
ghost use Rattle.text_fields.specs.Lines.{line_feed, lines_of, pieces_between, Lacks};

use memchr::memchr;

/// The byte at which a text is cut into its lines.
const LINE_FEED: u8 = b'\n';

/// The first place of the byte, counted from 0; none exactly where it stands nowhere.
fn first_place(text: &[u8], byte: u8) -> Option<usize>
    ensures found { IfSome result
        (λ place. text.now ≡ take place text.now ++ byte ∷ drop (place + 1) text.now) }
    ensures first { IfSome result (λ place. Lacks byte (take place text.now)) }
    ensures within { IfSome result (λ place. place < length text.now) }
    ensures none { IsNone result ↔ Lacks byte text.now }
{
    memchr(byte, text)
}

/// What stands before the first place of the byte, and what stands behind it; none exactly where the
/// byte stands nowhere.
#[tactic(auto, using(crate::proofs::LineLaws::whole_piece))]
pub(crate) fn split_at_first(text: &[u8], byte: u8) -> Option<(&[u8], &[u8])>
    ensures cut { IfSome result (λ parts. text.now ≡ parts.0.now ++ byte ∷ parts.1.now) }
    ensures first { IfSome result (λ parts. Lacks byte parts.0.now) }
    ensures pieces { IfSome result
        (λ parts. pieces_between byte text.now ≡ parts.0.now ∷ pieces_between byte parts.1.now) }
    ensures none { IsNone result ↔ Lacks byte text.now }
    ensures whole { IfNone result (pieces_between byte text.now ≡ text.now ∷ []) }
{
    let end = first_place(text, byte)?;
    Some((&text[..end], &text[end + 1..]))
}

/// The first line of a text, and what stands behind its line feed; none exactly where the text has no
/// line feed.
pub fn split_line(text: &[u8]) -> Option<(&[u8], &[u8])>
    ensures cut { IfSome result (λ parts. text.now ≡ parts.0.now ++ line_feed ∷ parts.1.now) }
    ensures first { IfSome result (λ parts. Lacks line_feed parts.0.now) }
    ensures lines { IfSome result
        (λ parts. lines_of text.now ≡ parts.0.now ∷ lines_of parts.1.now) }
    ensures none { IsNone result ↔ Lacks line_feed text.now }
    ensures whole { IfNone result (lines_of text.now ≡ text.now ∷ []) }
{
    split_at_first(text, LINE_FEED)
}
