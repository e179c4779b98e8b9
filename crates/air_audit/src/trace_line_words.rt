//! The words that the lines of a trace begin with.
ghost use Rattle.std.specs.Prelude.{◌≡◌, codes};
ghost use Rattle.air_audit.specs.TraceLineWords.{word_of_line, word_of};
ghost use Rattle.report_lines.specs.ReadLines.{first_field};

use report_lines::first_field;

/// What a line is by the word that it begins with.
#[derive(Clone, Copy)]
pub(crate) enum Word {
    /// `tx`: a frame was sent.
    Tx,
    /// `rx`: what came back.
    Rx,
    /// `list`: a tag was listed.
    List,
    /// `op`, `round` or `seen`: nothing in the line is judged.
    Unjudged,
    /// `tag` or `done`: what a tag is in the end, or that this is all.
    OfTags,
    /// Any other.
    Other,
}

/// What this word says as the first field of a line of a trace.
fn word_of(word: &[u8]) -> Word
    ensures { result ≡ word_of word.now }
{
    match word {
        b"tx" => Word::Tx,
        b"rx" => Word::Rx,
        b"list" => Word::List,
        b"op" | b"round" | b"seen" => Word::Unjudged,
        b"tag" | b"done" => Word::OfTags,
        _ => Word::Other,
    }
}

/// What a line is by its first field.
pub(crate) fn word_of_line(line: &[u8]) -> Word
    ensures is { result ≡ word_of_line line.now }
    ensures tx { result ≡ Word.Tx → first_field line.now ≡ codes "tx" }
    ensures rx { result ≡ Word.Rx → first_field line.now ≡ codes "rx" }
{
    word_of(first_field(line))
}
