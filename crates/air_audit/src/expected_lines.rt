//! Lines that have to stand as they are written.
ghost use Rattle.std.specs.Prelude.{◌≡◌, ◌≢◌, ◌++◌, ◌∷◌, [], IsFalse, IsTrue};
ghost use Rattle.text_fields.specs.Lines.{line_feed};

/// Whether a line, which is given without its line feed, has this text, which ends with one.
pub(crate) fn is_text(line: &[u8], text: &str) -> bool
    ensures yes { IsTrue result → line.now ++ line_feed ∷ [] ≡ text.now }
    ensures no { IsFalse result → line.now ++ line_feed ∷ [] ≢ text.now }
{
    match text.as_bytes().strip_suffix(b"\n") {
        Some(front) => front == line,
        None => false,
    }
}
