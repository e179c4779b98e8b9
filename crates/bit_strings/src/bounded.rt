//! A list of items with a capacity.
ghost use Rattle.std.specs.Prelude.{◌≡◌, ◌<◌, ◌≤◌, ◌+◌, ◌↔◌, [], ◌∷◌, ◌++◌, length, IsErr, IsNone, IsTrue, OnErr, IfOk, option_copied, slice_get};
ghost use Rattle.std.specs.List.Sorted.{IsPermutation, IsSorted};

use crate::bits::{Full, OutOfMemory};
use std::alloc::Global;
use std::marker::Model;

/// A list of items. Its capacity, in items, is fixed when it is made, and no later call takes memory.
///
/// A contract sees it as a record of the list `items` and the number `capacity`.
#[derive(Drop)]
pub struct Bounded<T> {
    items: Vec<T>,
    room: u32,
}

impl<T> Model for Bounded<T> {
    ghost use Rattle.std.specs.Prelude.{◌^◌, ◌<◌, ◌≤◌, vec_len, vec_capacity};
    ghost use Rattle.bit_strings.specs.ItemList.{ItemList};

    ghost Value = { ItemList T };

    ghost view = { λ a. record { items = a.items.items; capacity = a.room } };

    ghost invariant = { λ a. (vec_len a.items ≤ a.room) × (a.room ≤ vec_capacity a.items)
        × (a.room < 2 ^ 32) };
}

impl<T> Bounded<T> {
    /// The empty list with room for `capacity` items.
    pub fn new(alloc: Global, capacity: u32) -> Result<Bounded<T>, OutOfMemory>
        ensures { IfOk result (λ list. (list.items ≡ []) × (list.capacity ≡ capacity)) }
    {
        let items = Vec::with_capacity(alloc, capacity as usize)?;
        Ok(Bounded {
            items,
            room: capacity,
        })
    }

    /// How many items the list has: at most its capacity.
    pub fn len(&self) -> u32
        ensures count { result ≡ length self.now.items }
        ensures within { length self.now.items ≤ self.now.capacity }
    {
        self.items.len() as u32
    }

    /// Whether the list of fixed capacity has no item.
    pub fn is_empty(&self) -> bool
        ensures { IsTrue result ↔ (self.now.items ≡ []) }
    {
        self.items.is_empty()
    }

    /// How many items the list has room for, those that it has included.
    pub fn capacity(&self) -> u32
        ensures room { result ≡ self.now.capacity }
        ensures within { length self.now.items ≤ self.now.capacity }
    {
        self.room
    }

    /// The item of the list of fixed capacity at the place `at`, counted from 0; none exactly past the last item.
    pub fn get(&self, at: u32) -> Option<&T>
        ensures value { option_copied result ≡ slice_get self.now.items at }
        ensures none { IsNone result ↔ (length self.now.items ≤ at) }
    {
        self.items.get(at as usize)
    }

    /// The items of the list of fixed capacity, as a slice.
    pub fn as_slice(&self) -> &[T]
        ensures value { result.now ≡ self.now.items }
        ensures within { length self.now.items ≤ self.now.capacity }
    {
        self.items.as_slice()
    }

    /// Adds an item at the end of a list that has room for it.
    pub fn push_reserved(&mut self, item: T)
        requires { length self.old.items < self.old.capacity }
        ensures { self.new ≡ record self.old { items = self.old.items ++ item ∷ [] } }
    {
        self.items.push_reserved(item);
    }
}

impl<T: Copy> Bounded<T> {
    /// Adds these items, all at once, to a list that has room for them.
    pub fn push_all_reserved(&mut self, items: &[T])
        requires { length self.old.items + length items.now ≤ self.old.capacity }
        ensures { self.new ≡ record self.old { items = self.old.items ++ items.now } }
    {
        // There is room for each item.
        let _ = self.items.extend_from_slice(items);
    }
}

impl<T: Drop> Bounded<T> {
    /// Takes all items off. The capacity stays.
    pub fn clear(&mut self)
        ensures { self.new ≡ record self.old { items = [] } }
    {
        self.items.clear();
    }

    /// Adds an item at the end. `Full` comes exactly where the list has as many items as it has room for, and
    /// changes nothing.
    pub fn push(&mut self, item: T) -> Result<(), Full>
        ensures full { IsErr result ↔ (length self.old.items ≡ self.old.capacity) }
        ensures room { length self.old.items < self.old.capacity
            → self.new ≡ record self.old { items = self.old.items ++ item ∷ [] } }
        ensures err { OnErr result (self.new ≡ self.old) }
    {
        if self.items.len() == self.room as usize {
            return Err(Full);
        }
        self.push_reserved(item);
        Ok(())
    }
}

impl<T: Ord> Bounded<T> {
    /// Puts the items in ascending order.
    pub fn sort(&mut self)
        ensures same { IsPermutation self.old.items self.new.items }
        ensures sorted { IsSorted T.cmp self.new.items }
        ensures capacity { self.new.capacity ≡ self.old.capacity }
    {
        self.items.sort_unstable();
    }
}
