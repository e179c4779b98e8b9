//! A list of items that a contract sees as just that.
ghost use Rattle.std.specs.Prelude.{◌≡◌, ◌^◌, ◌<◌, ◌≤◌, ◌↔◌, [], length, vec_len, IsTrue, IsNone, option_copied, slice_get};

use std::marker::Model;

/// A list of fewer than 4,294,967,296 items, made from a `Vec` without taking memory.
///
/// A contract sees it as the list of its items.
#[derive(Drop)]
pub struct List<T> {
    items: Vec<T>,
}

impl<T> Model for List<T> {
    ghost use Rattle.std.specs.Prelude.{List, ◌^◌, ◌<◌, vec_len};

    ghost Value = { List T };

    ghost view = { λ a. a.items.items };

    ghost invariant = { λ a. vec_len a.items < 2 ^ 32 };
}

impl<T> List<T> {
    /// The list of these items.
    pub fn new(items: Vec<T>) -> List<T>
        requires { vec_len items < 2 ^ 32 }
        ensures { result ≡ items.items }
    {
        List { items }
    }

    /// How many items this list, made from a `Vec`, has.
    pub fn len(&self) -> u32
        ensures { result ≡ length self.now }
    {
        self.items.len() as u32
    }

    /// Whether this list, made from a `Vec`, has no item.
    pub fn is_empty(&self) -> bool
        ensures { IsTrue result ↔ (self.now ≡ []) }
    {
        self.items.is_empty()
    }

    /// The item of this list, made from a `Vec`, at the place `at`, counted from 0; none exactly past the end.
    pub fn get(&self, at: u32) -> Option<&T>
        ensures value { option_copied result ≡ slice_get self.now at }
        ensures none { IsNone result ↔ (length self.now ≤ at) }
    {
        self.items.get(at as usize)
    }

    /// The items of this list, made from a `Vec`, as a slice.
    pub fn as_slice(&self) -> &[T]
        ensures value { result.now ≡ self.now }
        ensures few { length self.now < 2 ^ 32 }
    {
        self.items.as_slice()
    }
}
