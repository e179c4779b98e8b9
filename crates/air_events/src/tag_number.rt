//! The numbers of tags.
ghost use Rattle.std.specs.Prelude.{◌≡◌, ◌<◌};
ghost use Rattle.air_events.specs.TagNumbers.{most_tags};

use std::marker::Model;

/// How many tags a population has at most.
pub const MOST_TAGS: u16 = 4096;

/// The number of a tag among those of its population, counted from 0.
#[derive(Clone, Copy, Debug, PartialEq, Eq)]
pub struct TagNumber {
    number: u16,
}

impl Model for TagNumber {
    ghost use Rattle.std.specs.Prelude.{ℕ, ◌<◌};
    ghost use Rattle.air_events.specs.TagNumbers.{most_tags};

    ghost Value = { ℕ };

    ghost view = { λ a. a.number };

    ghost invariant = { λ a. a.number < most_tags };

    ghost inverse = { λ n. record { number = n } };
}

impl TagNumber {
    /// The number that is known to be below the most tags.
    pub fn of(number: u32) -> TagNumber
        requires { number < most_tags }
        ensures { result ≡ number }
    {
        TagNumber {
            number: number as u16,
        }
    }

    /// The number that an index is, which is known to be below the most tags.
    pub fn from_index(index: usize) -> TagNumber
        requires { index < most_tags }
        ensures { result ≡ index }
    {
        TagNumber {
            number: index as u16,
        }
    }

    /// The number that the tag has in its population, counted from 0.
    pub fn get(&self) -> u16
        ensures value { result ≡ self.now }
        ensures range { self.now < most_tags }
    {
        self.number
    }

    /// The number, as an index.
    pub fn index(&self) -> usize
        ensures value { result ≡ self.now }
        ensures range { self.now < most_tags }
    {
        usize::from(self.number)
    }
}
