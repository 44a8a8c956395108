ghost use Rattle.std.specs.Prelude.{◌≡◌, ◌↔◌, ◌<◌, ◌≤◌, [], IsTrue, length, slice_index_or, OnOk, OnErr, IfOk};
ghost use Rattle.std.specs.BTreeMap.{is_at};
ghost use Rattle.std.specs.BTreeSet.{replace_key};
ghost use Rattle.std.specs.List.{find, list_any};
ghost use Rattle.std.specs.Option.{option_copied};
ghost use Rattle.std.specs.Set.{remove_key};
ghost use Rattle.std.specs.List.Sorted.{IsStrictlySortedBy};
ghost use Rattle.std.specs.declared.cmp.Ordering.TheVariants.{Equal};
ghost use Rattle.tb_values.specs.Ordered.{place_in};

use crate::duplicate::Duplicate;
use crate::items::{Items, copied, same_slices};
use crate::keyed::Keyed;
use crate::same::Same;
use std::alloc::{AllocError, Global};
use std::cmp::Ordering;
use std::marker::Model;

/// What is kept in increasing order of the key, each key once. A contract sees the list of the items.
#[derive(Drop)]
pub struct Ordered<T: Keyed> {
    items: Vec<T>,
}

impl<T: Keyed> Model for Ordered<T> {
    ghost use Rattle.std.specs.Prelude.{List};
    ghost use Rattle.std.specs.List.Sorted.{IsStrictlySortedBy};

    ghost Value = { List T };

    ghost view = { λ s. s.items.items };

    ghost invariant = { λ s. IsStrictlySortedBy T.order s.items.items };
}

impl<T: Keyed> Ordered<T> {
    pub fn new(alloc: Global) -> Ordered<T>
        ensures { result ≡ [] }
    {
        Ordered {
            items: Vec::new(alloc),
        }
    }

    /// The items as they stand, which are in increasing order.
    pub fn from_increasing(items: Items<T>) -> Ordered<T>
        requires { IsStrictlySortedBy T.order items }
        ensures { result ≡ items }
    {
        Ordered {
            items: items.into_vec(),
        }
    }

    pub fn into_items(self) -> Items<T>
        ensures items { result ≡ self }
        ensures increasing { IsStrictlySortedBy T.order result }
    {
        let Ordered { items } = self;
        Items::from_vec(items)
    }

    pub fn len(&self) -> usize
        ensures { result ≡ length self.now }
    {
        self.items.len()
    }

    pub fn is_empty(&self) -> bool
        ensures { IsTrue result ↔ (self.now ≡ []) }
    {
        self.items.is_empty()
    }

    pub fn as_slice(&self) -> &[T]
        ensures items { result.now ≡ self.now }
        ensures increasing { IsStrictlySortedBy T.order self.now }
    {
        self.items.as_slice()
    }

    /// Puts the item at its place, where it replaces one of the same key. Without memory nothing changes.
    /// Items that come in increasing order each cost one comparison.
    pub fn insert(&mut self, item: T) -> Result<(), AllocError>
    where
        T: Drop,
        ensures ok { OnOk result (self.new ≡ replace_key T.order self.old item) }
        ensures err { OnErr result (self.new ≡ self.old) }
    {
        let place = place_of(self.items.as_slice(), &item);
        if is_key_at(self.items.as_slice(), place, &item) {
            self.items[place] = item;
        } else {
            self.items.insert(place, item)?;
        }
        Ok(())
    }

    /// Takes out the item of the same key, if there is one.
    pub fn remove(&mut self, item: &T) -> Option<T>
        ensures result_is { result ≡ find (is_at (T.order item.now)) self.old }
        ensures rest { self.new ≡ remove_key (is_at (T.order item.now)) self.old }
    {
        let place = place_of(self.items.as_slice(), item);
        if !is_key_at(self.items.as_slice(), place, item) {
            return None;
        }
        Some(self.items.remove(place))
    }

    /// The item of the same key, if there is one.
    pub fn find(&self, item: &T) -> Option<&T>
        ensures { option_copied result ≡ find (is_at (T.order item.now)) self.now }
    {
        let place = place_of(self.items.as_slice(), item);
        if !is_key_at(self.items.as_slice(), place, item) {
            return None;
        }
        Some(&self.items[place])
    }

    /// Whether there is an item of the same key.
    pub fn contains(&self, item: &T) -> bool
        ensures { result ≡ list_any (is_at (T.order item.now)) self.now }
    {
        let place = place_of(self.items.as_slice(), item);
        is_key_at(self.items.as_slice(), place, item)
    }
}

/// The place of an item among those in order. The last ones are looked at first.
fn place_of<T: Keyed>(items: &[T], item: &T) -> usize
    requires { IsStrictlySortedBy T.order items.now }
    ensures { result ≡ place_in T.order items.now item.now }
{
    let mut place = items.len();
    while place > 0 && item.compare(&items[place - 1]) != Ordering::Greater {
        place -= 1;
    }
    place
}

fn is_key_at<T: Keyed>(items: &[T], place: usize, item: &T) -> bool
    ensures { IsTrue result
        ↔ ((place < length items.now)
        × (T.order item.now (slice_index_or items.now place item.now) ≡ Equal)) }
{
    place < items.len() && item.compare(&items[place]) == Ordering::Equal
}

impl<T: Keyed + Duplicate + Drop> Duplicate for Ordered<T> {
    fn duplicate(&self) -> Result<Ordered<T>, AllocError> {
        let items = copied(*self.items.allocator(), self.items.as_slice())?;
        Ok(Ordered { items })
    }
}

impl<T: Keyed + Same> Same for Ordered<T> {
    fn same(&self, other: &Ordered<T>) -> bool {
        same_slices(self.as_slice(), other.as_slice())
    }
}
