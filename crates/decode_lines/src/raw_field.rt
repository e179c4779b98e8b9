//! A field of a line as it stands.
ghost use Rattle.std.specs.Prelude.{◌≡◌};

use std::marker::Model;

/// A field of a line as it stands. A contract sees it as the list of its bytes.
#[derive(Drop)]
pub struct RawField<'a> {
    bytes: &'a [u8],
}

impl<'a> Model for RawField<'a> {
    ghost use Rattle.std.specs.Prelude.{List, ℕ};

    ghost Value = { List ℕ };

    ghost view = { λ a. a.bytes.now };
}

impl<'a> RawField<'a> {
    /// The field of these bytes.
    pub fn new(bytes: &'a [u8]) -> RawField<'a>
        ensures { result ≡ bytes.now }
    {
        RawField { bytes }
    }

    /// The bytes of the field.
    pub fn as_slice(&self) -> &[u8]
        ensures { result.now ≡ self.now }
    {
        self.bytes
    }
}
