//! Room for the text of one URI.
ghost use Rattle.std.specs.Prelude.{◌≡◌, ◌≤◌, [], length};

use arrayvec::ArrayVec;
use std::marker::Model;

/// How many bytes there is room for.
pub(crate) const MOST_BYTES: usize = 60;

/// The text of a URI, of at most 60 bytes, in a room of its own. A contract sees it as the list of its bytes.
#[derive(Clone, Debug, PartialEq, Eq, Drop)]
pub struct Uri {
    pub(crate) bytes: ArrayVec<u8, 60>,
}

impl Model for Uri {
    ghost use Rattle.std.specs.Prelude.{ℕ, List, ◌≤◌, length};

    ghost Value = { List ℕ };

    ghost view = { λ a. a.bytes.items };

    ghost invariant = { λ a. length a.bytes.items ≤ 60 };

    ghost inverse = { λ bytes. record { bytes = record { items = bytes } } };
}

impl Uri {
    /// The text of a URI that has no bytes yet.
    pub fn new() -> Uri
        ensures { result ≡ [] }
    {
        Uri {
            bytes: ArrayVec::new(),
        }
    }

    /// The bytes of the text.
    pub fn as_slice(&self) -> &[u8]
        ensures value { result.now ≡ self.now }
        ensures within { length self.now ≤ 60 }
    {
        self.bytes.as_slice()
    }
}
