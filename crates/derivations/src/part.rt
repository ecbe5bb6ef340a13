ghost use Rattle.std.specs.Prelude.{◌≡◌, ◌<◌, ℕ, [], None, length, get_or, IfOk, IfSome, OnOk};
ghost use Rattle.std.specs.List.{Contains};
ghost use Rattle.std.specs.Ordering.{int_eq};
ghost use Rattle.std.specs.Cmp.Lexicographic.{pointwise};
ghost use Rattle.indexmap.specs.IndexMap.{insert_all, insert_entry};

use crate::key::Key;
use base::Memory;
use indexmap::IndexMap;
use keyed_hash::KeyedState;
use std::alloc::Global;
use std::marker::Model;

/// Tuples with numbers, found by a hash. Contracts see the list of them.
pub(crate) struct Part {
    map: IndexMap<Key, u32, KeyedState>,
}

impl Drop for Part {
    fn drop(self) {
        let Part { map: _ } = self;
    }
}

impl Model for Part {
    ghost use Rattle.std.specs.Prelude.{List, ℤ, ℕ};

    ghost Value = { List (List ℤ × ℕ) };

    ghost view = { λ p. p.map.entries };
}

impl Part {
    /// Nothing, to be found by hashes under a key.
    pub(crate) fn new(alloc: Global, key: KeyedState) -> Part
        ensures { result ≡ [] }
    {
        Part {
            map: IndexMap::with_hasher(alloc, key),
        }
    }

    /// How many tuples there are.
    pub(crate) fn len(&self) -> usize
        ensures { result ≡ length self.now }
    {
        self.map.len()
    }

    /// The key of its hashes.
    pub(crate) fn key(&self) -> KeyedState {
        *self.map.hasher()
    }

    /// The number that a tuple has.
    pub(crate) fn get(&self, tuple: &[i64]) -> Option<u32>
        ensures some { IfSome result (λ n. Contains self.now (tuple.now, n)) }
        ensures none { result ≡ None → (n : ℕ) → Contains self.now (tuple.now, n) → ⊥ }
    {
        match self.map.get(tuple) {
            Some(number) => Some(*number),
            None => None,
        }
    }

    /// Puts in a tuple with its number.
    pub(crate) fn put(&mut self, key: Key, number: u32) -> Result<(), Memory>
        ensures { OnOk result (self.new ≡ insert_entry (pointwise int_eq) self.old key number) }
    {
        self.map.insert(key, number)?;
        Ok(())
    }

    /// The tuple at a place, shared, with its number.
    fn entry(&self, at: usize) -> Result<(Key, u32), Memory>
        requires { at < length self.now }
        ensures { IfOk result (λ e. e ≡ get_or self.now at e) }
    {
        let keys = self.map.keys().as_slice();
        let numbers = self.map.values().as_slice();
        let key = keys[at].share()?;
        Ok((key, numbers[at]))
    }

    /// Puts in all of another part.
    pub(crate) fn pour(&mut self, other: &Part) -> Result<(), Memory>
        ensures { OnOk result (self.new ≡ insert_all (pointwise int_eq) self.old other.now) }
    {
        let mut at = 0;
        while at < other.len() {
            let (key, number) = other.entry(at)?;
            self.put(key, number)?;
            at += 1;
        }
        Ok(())
    }
}
