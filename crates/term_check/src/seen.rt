ghost use Rattle.std.specs.Prelude.{◌≡◌, ◌++◌, [], ◌∷◌, false, map, IfOk, OnOk};
ghost use Rattle.term_check.specs.Words.{is_word_among};

use crate::bindings::FEW;
use crate::bytes::are_same;
use base::Memory;
use indexmap::IndexSet;
use keyed_hash::{KeyedState, NameKey};
use std::alloc::Global;
use std::marker::Model;

/// The names that stand in a binder before, in their order. The first ones are found by comparing
/// each, and those after them by their hashes under a key, so that no choice of names makes it slow.
pub struct Seen<'a> {
    few: Vec<&'a [u8]>,
    more: IndexSet<NameKey<'a>, KeyedState>,
}

impl<'a> Drop for Seen<'a> {
    fn drop(self) {
        let Seen { few: _, more: _ } = self;
    }
}

impl<'a> Model for Seen<'a> {
    ghost use Rattle.std.specs.Prelude.{List, ℕ, map, ◌++◌};

    ghost Value = { List (List ℕ) };

    ghost view = { λ s. map (λ name. name.now) s.few.items ++ map (λ key. key.bytes.now) s.more.keys };
}

/// Whether one of them is that name.
fn has_name<'a>(few: &[&'a [u8]], name: &[u8]) -> bool
    ensures { result ≡ is_word_among (map (λ one. one.now) few.now) name.now }
{
    for one in few {
        if are_same(name, *one) {
            return true;
        }
    }
    false
}

impl<'a> Seen<'a> {
    /// None yet, with room for `count` names.
    pub fn with_room(alloc: Global, key: KeyedState, count: usize) -> Result<Seen<'a>, Memory>
        ensures { IfOk result (λ seen. seen ≡ []) }
    {
        Ok(Seen {
            few: Vec::with_capacity(alloc, count.min(FEW))?,
            more: IndexSet::with_capacity_and_hasher(alloc, count.saturating_sub(FEW), key)?,
        })
    }

    /// Whether the name is among them.
    pub fn contains(&self, name: &[u8]) -> bool
        ensures { result ≡ is_word_among self.now name.now }
    {
        has_name(self.few.as_slice(), name)
            || !self.more.is_empty() && self.more.contains(&NameKey { bytes: name })
    }

    /// Adds a name that is new.
    pub fn add(&mut self, name: &'a [u8]) -> Result<(), Memory>
        requires { is_word_among self.old name.now ≡ false }
        ensures { OnOk result (self.new ≡ self.old ++ name.now ∷ []) }
    {
        if self.few.len() < FEW && self.more.is_empty() {
            self.few.push(name)?;
        } else {
            self.more.insert(NameKey { bytes: name })?;
        }
        Ok(())
    }
}
