//! What is said of one exchange after another.
ghost use Rattle.std.specs.Prelude.{◌≡◌, ◌+◌, ℕ, List};
ghost use Rattle.air_events.specs.Entries.{entry_at, no_entry};

use crate::Entry;
use bit_strings::List;
use std::alloc::Global;
use std::marker::Model;

/// The entry of an exchange of which nothing is said.
pub fn empty_entry(alloc: Global) -> Entry
    ensures { result ≡ no_entry }
{
    Entry {
        events: List::new(Vec::new(alloc)),
        missed: List::new(Vec::new(alloc)),
        choice: None,
    }
}

/// Goes over what is said of exchanges, one exchange after another from the first on. A contract sees it
/// as the entries that it has not passed yet.
#[derive(Drop)]
pub struct EntryCursor<'a> {
    left: &'a [(u64, Entry)],
    empty: &'a Entry,
}

impl<'a> Model for EntryCursor<'a> {
    ghost use Rattle.std.specs.Prelude.{◌≡◌, ℕ, List};
    ghost use Rattle.air_events.specs.declared.Entry.{Entry};
    ghost use Rattle.air_events.specs.Entries.{no_entry};

    ghost Value = { List (ℕ × Entry) };

    ghost view = { λ a. a.left.now };

    ghost invariant = { λ a. a.empty.now ≡ no_entry };
}

impl<'a> EntryCursor<'a> {
    ghost use Rattle.air_events.specs.declared.Entry.{Entry};
    ghost use Rattle.air_events.specs.Cursor.{AreEntriesLeft};
    ghost use Rattle.air_events.specs.Entries.{Rises};

    /// Stands before the first exchange. The entry that is empty is given for each exchange of which
    /// nothing is said.
    pub fn new(entries: &'a [(u64, Entry)], empty: &'a Entry) -> EntryCursor<'a>
        requires { empty.now ≡ no_entry }
        ensures all { result ≡ entries.now }
        ensures left { Rises 0 entries.now → AreEntriesLeft result entries.now 0 }
    {
        EntryCursor {
            left: entries,
            empty,
        }
    }

    /// What is said of the next exchange, whose number is one more than the number of those before it.
    pub fn next_entry(&mut self, exchange: u64) -> &'a Entry
        ensures entry { (entries : List (ℕ × Entry)) (played : ℕ)
            → AreEntriesLeft self.old entries played → exchange ≡ played + 1 →
            result.now ≡ entry_at entries exchange }
        ensures left { (entries : List (ℕ × Entry)) (played : ℕ)
            → AreEntriesLeft self.old entries played → exchange ≡ played + 1 →
            AreEntriesLeft self.new entries exchange }
    {
        let Some((first, behind)) = self.left.split_first() else {
            return self.empty;
        };
        let (number, entry) = first;
        if *number != exchange {
            return self.empty;
        }
        self.left = behind;
        entry
    }
}
