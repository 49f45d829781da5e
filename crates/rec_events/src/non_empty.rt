//! A list that is not empty.
ghost use Rattle.std.specs.Prelude.{◌≡◌, ◌++◌, ◌<◌, ◌-◌, List, [], ◌∷◌, length};
ghost use Rattle.std.specs.Prelude.{slice_get, nat_lt, if◌then◌else◌, Some, None};

use crate::Items;
use std::marker::Model;

/// Holds a list of at least one item. Contracts see the items in order.
#[derive(Drop)]
pub struct NonEmpty<T> {
    inner: Vec<T>,
}

impl<T> Model for NonEmpty<T> {
    ghost use Rattle.std.specs.Prelude.{List, length, ◌<◌};

    ghost Value = { List T };

    ghost view = { λ t. t.inner.items };

    ghost invariant = { λ t. 0 < length t.inner.items };
}

impl<T> NonEmpty<T> {
    /// Makes a list of the items of a vector that has some.
    pub fn new(inner: Vec<T>) -> NonEmpty<T>
        requires not_empty { 0 < length inner.items }
        ensures { result ≡ inner.items }
    {
        NonEmpty { inner }
    }

    /// Makes a list of these items; `None` where there are none.
    pub fn from_items(items: Items<T>) -> Option<NonEmpty<T>>
    where
        T: Drop,
        ensures { result ≡ (if nat_lt 0 (length items) then Some items else None) }
    {
        let inner = items.into_vec();
        if inner.is_empty() {
            None
        } else {
            Some(NonEmpty { inner })
        }
    }

    /// Returns the vector that holds the items.
    pub fn into_vec(self) -> Vec<T>
        ensures { result.items ≡ self }
    {
        self.inner
    }

    /// Returns the items themselves.
    pub fn as_slice(&self) -> &[T]
        ensures value { result.now ≡ self.now }
        ensures not_empty { 0 < length self.now }
    {
        self.inner.as_slice()
    }

    /// Returns how many items there are.
    pub fn len(&self) -> usize
        ensures { result ≡ length self.now }
    {
        self.as_slice().len()
    }

    /// Returns the item with `i` others before it.
    pub fn item(&self, i: usize) -> &T
        requires within { i < length self.now }
        ensures { slice_get self.now i ≡ Some result.now }
    {
        &self.as_slice()[i]
    }

    /// Returns the last item.
    pub fn last(&self) -> &T
        ensures { slice_get self.now (length self.now - 1) ≡ Some result.now }
    {
        let all = self.as_slice();
        &all[all.len() - 1]
    }

    /// Returns the first item, and those after it.
    pub fn split_first(&self) -> (&T, &[T])
        ensures { self.now ≡ result.0.now ∷ result.1.now }
    {
        let all = self.as_slice();
        (&all[0], &all[1..])
    }

    /// Returns the last item, and those before it.
    pub fn split_last(&self) -> (&T, &[T])
        ensures { self.now ≡ result.1.now ++ (result.0.now ∷ []) }
    {
        let all = self.as_slice();
        let end = all.len() - 1;
        (&all[end], &all[..end])
    }
}
