//! Sets of tags.
ghost use Rattle.std.specs.Prelude.{◌≡◌, ◌≢◌, ◌↔◌, ◌*◌, ℕ, ◌+◌, ◌<◌, ◌≤◌, true, All, Some, IfOk};
ghost use Rattle.air_events.specs.TagNumbers.{most_tags};
ghost use Rattle.tag_population.specs.TagSets.{HasNone, IsIn, IsNextIn, IsNextOne, IsSetOf, bit_in_set};

use air_events::{MOST_TAGS, TagNumber};
use bit_strings::OutOfMemory;
use std::alloc::Global;
use std::marker::Model;

/// Of how many tags a word of a set tells, and of how many words the word that says which have a tag.
const WORD: usize = 64;

/// A set of tags.
///
/// A contract sees its words, with a bit for each tag.
#[derive(Drop)]
pub(crate) struct TagSet {
    words: Vec<u64>,
    /// A bit for each word: 0 where that word is 0.
    filled: u64,
}

impl Model for TagSet {
    ghost use Rattle.std.specs.Prelude.{◌≡◌, ℕ, ◌*◌, List, length};
    ghost use Rattle.air_events.specs.TagNumbers.{most_tags};
    ghost use Rattle.tag_population.specs.TagSets.{IsFilled};

    ghost Value = { List ℕ };

    ghost view = { λ a. a.words.items };

    ghost invariant = { λ a. (length a.words.items * 64 ≡ most_tags)
        × IsFilled a.filled a.words.items };
}

impl TagSet {
    /// The set of no tag, with room for all.
    pub(crate) fn new(alloc: Global) -> Result<TagSet, OutOfMemory>
        ensures { IfOk result HasNone }
    {
        let words = vec![in alloc; 0; usize::from(MOST_TAGS) / WORD]?;
        Ok(TagSet { words, filled: 0 })
    }

    /// Adds the tag with this number to the set.
    pub(crate) fn insert(&mut self, number: TagNumber)
        ensures there { IsIn self.new number }
        ensures others { (other : ℕ) → other ≢ number
            → bit_in_set self.new other ≡ bit_in_set self.old other }
    {
        let number = number.index();
        let at = number / WORD;
        self.words[at] |= 1 << (number % WORD);
        self.filled |= 1 << at;
    }

    /// Removes the tag with this number from the set, if it is there.
    pub(crate) fn remove(&mut self, number: TagNumber)
        ensures there { bit_in_set self.new number ≡ 0 }
        ensures others { (other : ℕ) → other ≢ number
            → bit_in_set self.new other ≡ bit_in_set self.old other }
    {
        let number = number.index();
        let at = number / WORD;
        let word = self.words[at] & !(1 << (number % WORD));
        self.words[at] = word;
        if word == 0 {
            self.filled &= !(1 << at);
        }
    }

    /// Adds these tags to the set of none.
    pub(crate) fn insert_all(&mut self, tags: &[u32])
        requires none { HasNone self.old }
        requires small { All (λ tag. tag < most_tags) tags.now }
        ensures { IsSetOf self.new tags.now }
    {
        for &tag in tags {
            self.insert(TagNumber::of(tag));
        }
    }

    /// Removes these tags, which are all that the set has.
    pub(crate) fn remove_all(&mut self, tags: &[u32])
        requires all { IsSetOf self.old tags.now }
        requires small { All (λ tag. tag < most_tags) tags.now }
        ensures { HasNone self.new }
    {
        for &tag in tags {
            self.remove(TagNumber::of(tag));
        }
    }

    /// Whether a tag is in the set.
    pub(crate) fn contains(&self, number: TagNumber) -> bool
        ensures { (result ≡ true) ↔ IsIn self.now number }
    {
        let number = number.index();
        let word = self.words[number / WORD];
        word >> (number % WORD) & 1 == 1
    }

    /// The tag with the least number from one on, if there is one.
    pub(crate) fn next(&self, from: usize) -> Option<TagNumber>
        requires { from ≤ most_tags }
        ensures { IsNextIn self.now from result }
    {
        let at = from / WORD;
        if at == self.words.len() {
            return None;
        }
        match next_one(self.words[at], from % WORD) {
            Some(bit) => Some(TagNumber::from_index(at * WORD + bit)),
            None => self.from_word(at + 1),
        }
    }

    /// The tag with the least number in the words from one on, if there is one.
    fn from_word(&self, from: usize) -> Option<TagNumber>
        requires { from * 64 ≤ most_tags }
        ensures { IsNextIn self.now (from * 64) result }
    {
        let at = next_one(self.filled, from)?;
        let bit = lowest_one(self.words[at]);
        Some(TagNumber::from_index(at * WORD + bit))
    }
}

/// The least place from one on at which a word has a 1, if there is one.
pub(crate) fn next_one(word: u64, from: usize) -> Option<usize>
    ensures { IsNextOne word from result }
{
    if from >= WORD {
        return None;
    }
    let rest = word & (u64::MAX << from);
    if rest == 0 {
        None
    } else {
        Some(lowest_one(rest))
    }
}

/// The least place at which a word that isn't 0 has a 1.
fn lowest_one(word: u64) -> usize
    requires { word ≢ 0 }
    ensures { IsNextOne word 0 (Some result) }
{
    word.trailing_zeros() as usize
}
