ghost use Rattle.std.specs.Prelude.{◌≡◌, ◌++◌, [], ◌∷◌, ◌-◌, ◌<◌, length, take, OnOk};
ghost use Rattle.base.specs.Widths.{short_limit};
ghost use Rattle.term_check.specs.machinery.Meanings.{named, joined};
ghost use Rattle.term_check.specs.Spelling.{bound_to};

use crate::scope::{Binding, Bound};
use base::Memory;
use indexmap::IndexMap;
use keyed_hash::{KeyedState, NameKey};
use std::alloc::Global;
use std::marker::Model;

/// Bound names, the innermost last, each found by its hash under a key, so that no choice of names makes
/// it slow. A name that was left keeps its place in the map.
pub struct Mapped<'a> {
    bindings: Vec<Binding<'a>>,
    meanings: IndexMap<NameKey<'a>, Option<Bound>, KeyedState>,
}

impl<'a> Drop for Mapped<'a> {
    fn drop(self) {
        let Mapped {
            bindings: _,
            meanings: _,
        } = self;
    }
}

impl<'a> Model for Mapped<'a> {
    ghost use Rattle.std.specs.Prelude.{List, [], map};
    ghost use Rattle.term_check.specs.declared.scope.Named.{Named as ANamed};
    ghost use Rattle.term_check.specs.machinery.Meanings.{named_by, AreKept, AreMeanings};

    ghost Value = { List ANamed };

    ghost view = { λ b. map named_by b.bindings.items };

    ghost invariant = { λ b. AreKept [] b.bindings.items × AreMeanings b.meanings.entries (map named_by b.bindings.items) };
}

fn joined(meaning: Option<Option<Bound>>) -> Option<Bound>
    ensures { result ≡ joined meaning }
{
    match meaning {
        Some(bound) => bound,
        None => None,
    }
}

impl<'a> Mapped<'a> {
    pub fn new(alloc: Global, key: KeyedState) -> Mapped<'a>
        ensures { result ≡ [] }
    {
        Mapped {
            bindings: Vec::new(alloc),
            meanings: IndexMap::with_hasher(alloc, key),
        }
    }

    /// What the innermost of that name stands for.
    pub fn bound_to(&self, name: &[u8]) -> Option<Bound>
        ensures { result ≡ bound_to name.now self.now }
    {
        joined(self.meanings.get(&NameKey { bytes: name }).copied())
    }

    /// How many names there are.
    pub fn len(&self) -> usize
        ensures len { result ≡ length self.now }
        ensures short { result < short_limit }
    {
        self.bindings.len()
    }

    /// Makes room for `count` more names.
    pub fn reserve(&mut self, count: usize) -> Result<(), Memory>
        ensures { OnOk result (self.new ≡ self.old) }
    {
        self.bindings.reserve(count)?;
        Ok(())
    }

    /// Binds one more name, inside of the others.
    pub fn bind(&mut self, name: &'a [u8], bound: Bound) -> Result<(), Memory>
        ensures { OnOk result (self.new ≡ self.old ++ named name.now bound ∷ []) }
    {
        self.bindings.reserve(1)?;
        let before = self.meanings.insert(NameKey { bytes: name }, Some(bound))?;
        let outside = joined(before);
        self.bindings
            .push(Binding {
                name,
                bound,
                outside,
            })
            .unwrap();
        Ok(())
    }

    /// Forgets the innermost name, which stands again for what it stood for outside.
    fn leave_one(&mut self)
        ensures { self.new ≡ take (length self.old - 1) self.old }
    {
        if let Some(Binding { name, outside, .. }) = self.bindings.pop() {
            let put: Result<_, _> = self.meanings.insert(NameKey { bytes: name }, outside);
            put.unwrap();
        }
    }

    /// Forgets the innermost names, so that at most `count` are left.
    pub fn leave(&mut self, count: usize)
        ensures { self.new ≡ take count self.old }
    {
        while self.len() > count {
            self.leave_one();
        }
    }
}
