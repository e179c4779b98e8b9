//! Places on which tags stand, and the links between the tags of one place.
ghost use Rattle.std.specs.Prelude.{◌≡◌, ◌<◌, ◌≤◌, ℕ, Some, None, length, replicate, slice_set, IfOk};
ghost use Rattle.std.specs.Option.{is_some};
ghost use Rattle.air_events.specs.TagNumbers.{most_tags};
ghost use Rattle.tag_population.specs.Wheel.{most_places, wheel_place_of, IsLinked, IsTagOn};

use air_events::{MOST_TAGS, TagNumber};
use bit_strings::OutOfMemory;
use std::alloc::Global;
use std::marker::Model;

/// How many places tags can stand on: one for each of the 32,768 values of a slot counter in each of the four sessions.
const PLACES: usize = 131_072;

/// What is kept in place of a place for a tag that stands on none.
const NOWHERE: usize = PLACES;

/// Tags, each of which stands on one place or on none. The tags of one place are linked in both directions.
///
/// A contract sees for each tag the place where it stands, or none.
#[derive(Drop)]
pub(crate) struct Wheel {
    /// For each place the number of the first tag there, and then for each tag that of the next one on its place. `MOST_TAGS` is the number
    /// of none.
    links: Vec<u16>,
    /// For each tag that stands on a place, which link leads to it. One more is written where a link leads to none.
    backs: Vec<usize>,
    /// For each tag the place where it stands, or `NOWHERE`.
    places: Vec<usize>,
}

impl Model for Wheel {
    ghost use Rattle.std.specs.Prelude.{ℕ, List, Option, map};
    ghost use Rattle.tag_population.specs.Wheel.{IsLinked, place_kept};

    ghost Value = { List (Option ℕ) };

    ghost view = { λ a. map place_kept a.places.items };

    ghost invariant = { λ a. IsLinked (map place_kept a.places.items) a.links.items a.backs.items };
}

impl Wheel {
    /// So many tags, which stand on no place.
    pub(crate) fn new(alloc: Global, count: usize) -> Result<Wheel, OutOfMemory>
        requires { count ≤ most_tags }
        ensures { IfOk result (λ wheel. wheel ≡ replicate count None) }
    {
        let links = vec![in alloc; MOST_TAGS; PLACES + usize::from(MOST_TAGS)]?;
        let backs = vec![in alloc; 0; usize::from(MOST_TAGS) + 1]?;
        let places = vec![in alloc; NOWHERE; count]?;
        Ok(Wheel {
            links,
            backs,
            places,
        })
    }

    /// The place where a tag stands, if there is one.
    pub(crate) fn place(&self, number: TagNumber) -> Option<usize>
        requires { number < length self.now }
        ensures value { result ≡ wheel_place_of self.now number }
        ensures range { (place : ℕ) → result ≡ Some place → place < most_places }
    {
        let place = self.places[number.index()];
        if place == NOWHERE { None } else { Some(place) }
    }

    /// A tag on a place; none exactly where no tag stands there.
    pub(crate) fn tag_on(&self, place: usize) -> Option<TagNumber>
        requires { place < most_places }
        ensures { IsTagOn self.now place result }
    {
        let first = usize::from(self.links[place]);
        if first < self.places.len() {
            Some(TagNumber::from_index(first))
        } else {
            None
        }
    }

    /// Takes a tag from the place where it stands, and answers whether there was one.
    #[inline(always)]
    pub(crate) fn take(&mut self, number: TagNumber) -> bool
        requires { number < length self.old }
        ensures places { self.new ≡ slice_set self.old number None }
        ensures stood { result ≡ is_some (wheel_place_of self.old number) }
    {
        let at = number.index();
        if self.places[at] == NOWHERE {
            return false;
        }
        let next = self.links[PLACES + at];
        let back = self.backs[at];
        self.links[back] = next;
        self.backs[usize::from(next)] = back;
        self.places[at] = NOWHERE;
        true
    }

    /// Puts a tag that stands nowhere on a place.
    #[inline(always)]
    pub(crate) fn put(&mut self, number: TagNumber, place: usize)
        requires number { number < length self.old }
        requires nowhere { wheel_place_of self.old number ≡ None }
        requires place { place < most_places }
        ensures { self.new ≡ slice_set self.old number (Some place) }
    {
        let at = number.index();
        let behind = PLACES + at;
        let first = self.links[place];
        self.links[behind] = first;
        self.backs[usize::from(first)] = behind;
        self.links[place] = number.get();
        self.backs[at] = place;
        self.places[at] = place;
    }
}
