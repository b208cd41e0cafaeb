//! Ordered maps from texts.

ghost use Rattle.std.specs.Prelude.{◌≡◌, ◌==◌, OnOk};
ghost use Rattle.std.specs.Option.{option_copied};
ghost use Rattle.std.specs.FinMap as map;

use crate::text::Text;
use std::alloc::{AllocError, Global};
use std::collections::{BTreeMap, btree_map};
use std::marker::Model;

/// An ordered map from texts, which contracts see as a finite map from their bytes.
#[derive(Drop)]
pub struct TextMap<V> {
    tree: BTreeMap<String, V>,
}

impl<V> Model for TextMap<V> {
    ghost use Rattle.std.specs.Prelude.{List, ℕ};
    ghost use Rattle.std.specs.Ordering.{nat_cmp};
    ghost use Rattle.std.specs.Cmp.Lexicographic.{slice_cmp};
    ghost use Rattle.std.specs.FinMap as map;
    ghost use Rattle.std.specs.Coded.{coded_ℕ, coded_list};
    ghost use Rattle.dk_model.specs.Texts.{ByText, texts};

    ghost Value = { ByText V };

    ghost coded = { map.code (coded_list coded_ℕ) V.code };

    ghost view = { λ a. map.from_entries (texts a.tree.entries) };
}

impl<V> TextMap<V> {
    /// A map with no keys. Takes no memory.
    pub fn new(alloc: Global) -> TextMap<V>
        ensures { result ≡ map.empty }
    {
        TextMap {
            tree: BTreeMap::new(alloc),
        }
    }

    /// How many keys there are.
    pub fn len(&self) -> usize
        ensures { result ≡ map.len self.now }
    {
        self.tree.len()
    }

    /// Whether there is no key.
    pub fn is_empty(&self) -> bool
        ensures { result ≡ (map.len self.now == 0) }
    {
        self.len() == 0
    }

    /// The value of a key, where it is there.
    pub fn get(&self, key: &str) -> Option<&V>
        ensures { option_copied result ≡ map.get self.now key.now }
    {
        self.tree.get(key)
    }

    /// Whether the key is there.
    pub fn contains(&self, key: &str) -> bool
        ensures { result ≡ map.contains_key self.now key.now }
    {
        self.get(key).is_some()
    }

    /// The entries, in the byte order of their keys.
    pub fn iter(&self) -> Entries<'_, V>
        ensures { result ≡ map.entries self.now }
    {
        Entries {
            inner: self.tree.iter(),
        }
    }
}

impl<V: Drop> TextMap<V> {
    /// Sets the value of a key. `Err` is want of memory, and the map must not be used further after it.
    pub fn insert(&mut self, key: Text, value: V) -> Result<(), AllocError>
        ensures { OnOk result (self.new ≡ map.insert self.old key value) }
    {
        let key = key.into_string();
        self.tree.insert(key, value)?;
        Ok(())
    }

    /// Takes a key away, where it is there.
    pub fn remove(&mut self, key: &str)
        ensures { self.new ≡ map.remove self.old key.now }
    {
        let _ = self.tree.remove(key);
    }

    /// The entries by value, in the byte order of their keys, with no copy.
    pub fn into_entries(self) -> IntoEntries<V>
        ensures { result ≡ map.entries self }
    {
        IntoEntries {
            inner: self.tree.into_iter(),
        }
    }
}

/// The entries that are left, in the byte order of their keys.
#[derive(Drop)]
pub struct Entries<'a, V> {
    inner: btree_map::Iter<'a, String, V>,
}

impl<'a, V> Model for Entries<'a, V> {
    ghost use Rattle.std.specs.Prelude.{List, ℕ};
    ghost use Rattle.std.specs.Coded.{coded_ℕ, coded_list, coded×};
    ghost use Rattle.dk_model.specs.Texts.{texts};

    ghost Value = { List (List ℕ × V) };

    ghost coded = { coded_list (coded× (coded_list coded_ℕ) V.code) };

    ghost view = { λ e. texts e.inner };
}

impl<'a, V> Iterator for Entries<'a, V> {
    ghost use Rattle.std.specs.Iterator.{YieldsFirstBy, item_count};
    ghost use Rattle.std.specs.Map.Iter.{deref_pair};

    type Item = (&'a str, &'a V);

    ghost next_gives = { YieldsFirstBy deref_pair (λ s. s) };

    ghost remaining = { item_count (λ s. s) };

    fn next(&mut self) -> Option<(&'a str, &'a V)> {
        let (key, value) = self.inner.next()?;
        Some((key.as_str(), value))
    }
}

/// The entries that are left, by value, in the byte order of their keys.
#[derive(Drop)]
pub struct IntoEntries<V> {
    inner: btree_map::IntoIter<String, V>,
}

impl<V> Model for IntoEntries<V> {
    ghost use Rattle.std.specs.Prelude.{List, ℕ};
    ghost use Rattle.std.specs.Coded.{coded_ℕ, coded_list, coded×};
    ghost use Rattle.dk_model.specs.Texts.{texts};

    ghost Value = { List (List ℕ × V) };

    ghost coded = { coded_list (coded× (coded_list coded_ℕ) V.code) };

    ghost view = { λ e. texts e.inner };
}

impl<V: Drop> Iterator for IntoEntries<V> {
    ghost use Rattle.std.specs.Iterator.{YieldsFirst, item_count};

    type Item = (Text, V);

    ghost next_gives = { YieldsFirst (λ s. s) };

    ghost remaining = { item_count (λ s. s) };

    fn next(&mut self) -> Option<(Text, V)> {
        let (key, value) = self.inner.next()?;
        Some((Text::new(key), value))
    }
}
