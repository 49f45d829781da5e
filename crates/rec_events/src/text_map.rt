//! A map from texts, seen as its pairs.
ghost use Rattle.std.specs.Prelude.{◌≡◌, [], OnOk, OnErr, string_bytes};
ghost use Rattle.rec_events.specs.Names.{AreTexts};
ghost use Rattle.rec_events.specs.Pairs.{pairs, put_pair, keys, KeysRise};

use crate::{Text, TryClone};
use std::alloc::{AllocError, Global};
use std::collections::BTreeMap;
use std::marker::Model;

/// Holds a map from texts to values. Contracts see its pairs in the order of their keys' bytes.
#[derive(Drop)]
pub struct TextMap<V> {
    inner: BTreeMap<String, V>,
}

impl<V> Model for TextMap<V> {
    ghost use Rattle.std.specs.Prelude.{List, ℕ};
    ghost use Rattle.rec_events.specs.Pairs.{pairs};

    ghost Value = { List (List ℕ × V) };

    ghost view = { λ m. pairs m.inner.entries };
}

impl<V> TextMap<V> {
    /// Makes a map of the pairs of a map.
    pub fn new(inner: BTreeMap<String, V>) -> TextMap<V>
        ensures { result ≡ pairs inner.entries }
    {
        TextMap { inner }
    }

    /// Makes an empty map: no pairs.
    pub fn empty(alloc: Global) -> TextMap<V>
        ensures { result ≡ [] }
    {
        TextMap {
            inner: BTreeMap::new(alloc),
        }
    }

    /// Puts `value` at `key`, in the place of what was there.
    ///
    /// # Errors
    ///
    /// `AllocError` means that there was not enough memory. The map is as it was.
    pub fn insert(&mut self, key: Text, value: V) -> Result<(), AllocError>
    where
        V: Drop,
        ensures put { OnOk result (self.new ≡ put_pair key value self.old) }
        ensures unchanged { OnErr result (self.new ≡ self.old) }
    {
        drop(self.inner.insert(key.into_string(), value)?);
        Ok(())
    }

    /// Returns the map that holds the pairs.
    pub fn into_map(self) -> BTreeMap<String, V>
        ensures { pairs result.entries ≡ self }
    {
        self.inner
    }

    /// Returns the map itself.
    pub fn as_map(&self) -> &BTreeMap<String, V>
        ensures pairs { pairs result.now.entries ≡ self.now }
        ensures rise { KeysRise self.now }
        ensures texts { AreTexts (keys self.now) }
    {
        // that the keys rise rests on the order of the map
        let _ordered = self.inner.len();
        &self.inner
    }
}

impl<V: TryClone + Drop> TryClone for TextMap<V> {
    fn try_clone(&self, alloc: Global) -> Result<TextMap<V>, AllocError> {
        let mut copy = TextMap::empty(alloc);
        for (key, value) in self.as_map() {
            put_copy(alloc, &mut copy, key, value)?;
        }
        Ok(copy)
    }
}

/// Puts copies of a key and its value into a map.
fn put_copy<V: TryClone + Drop>(
    alloc: Global,
    map: &mut TextMap<V>,
    key: &String,
    value: &V,
) -> Result<(), AllocError>
    ensures { OnOk result (map.new ≡ put_pair (string_bytes key.now) value.now map.old) }
{
    let key = Text::from_str(alloc, key.as_str())?;
    let Ok(value) = value.try_clone(alloc) else {
        drop(key);
        return Err(AllocError);
    };
    map.insert(key, value)
}
