ghost use Rattle.std.specs.Prelude.{◌≡◌, ◌+◌, ◌<◌, ◌^◌, ◌++◌, [], ◌∷◌, length, take, map, OnOk};
ghost use Rattle.term_check.specs.Formula.{params_from};
ghost use Rattle.term_check.specs.machinery.Meanings.{named, named_as};
ghost use Rattle.term_check.specs.Spelling.{bound_to, variables_from, lets_from};

use crate::binders::{name_bound, sort_bound};
use crate::bytes::are_same;
use crate::mapped::Mapped;
use crate::part::Part;
use crate::scope::{Bound, Meaning};
use base::Memory;
use keyed_hash::KeyedState;
use sexp_read::Tree;
use std::alloc::Global;
use std::marker::Model;
use term_tree::{Name, Sort};

/// How many names are found by comparing each.
pub const FEW: usize = 64;

/// The names that are bound around a term, the innermost last. The outermost ones are found by
/// comparing each, and those after them by their hashes.
pub struct Bindings<'a> {
    few: Vec<Meaning<'a>>,
    more: Mapped<'a>,
}

impl<'a> Drop for Bindings<'a> {
    fn drop(self) {
        let Bindings { few: _, more: _ } = self;
    }
}

impl<'a> Model for Bindings<'a> {
    ghost use Rattle.std.specs.Prelude.{List, map, ◌++◌};
    ghost use Rattle.term_check.specs.declared.scope.Named.{Named as ANamed};
    ghost use Rattle.term_check.specs.machinery.Meanings.{named_as};

    ghost Value = { List ANamed };

    ghost view = { λ b. map named_as b.few.items ++ b.more };
}

/// What the last of that name stands for.
fn last_named<'a>(few: &[Meaning<'a>], name: &[u8]) -> Option<Bound>
    ensures { result ≡ bound_to name.now (map named_as few.now) }
{
    let mut i = few.len();
    while i > 0 {
        let last = &few[i - 1];
        if are_same(last.name, name) {
            return Some(last.bound);
        }
        i -= 1;
    }
    None
}

impl<'a> Bindings<'a> {
    /// None yet. Names are hashed under this key.
    pub fn new(alloc: Global, key: KeyedState) -> Bindings<'a>
        ensures { result ≡ [] }
    {
        Bindings {
            few: Vec::new(alloc),
            more: Mapped::new(alloc, key),
        }
    }

    /// What the innermost of that name stands for.
    pub fn bound_to(&self, name: &[u8]) -> Option<Bound>
        ensures { result ≡ bound_to name.now self.now }
    {
        if self.more.len() == 0 {
            return last_named(self.few.as_slice(), name);
        }
        match self.more.bound_to(name) {
            Some(bound) => Some(bound),
            None => last_named(self.few.as_slice(), name),
        }
    }

    /// How many names there are.
    pub fn len(&self) -> usize
        ensures { result ≡ length self.now }
    {
        self.few.len() + self.more.len()
    }

    /// Makes room for `count` more names.
    fn reserve(&mut self, count: usize) -> Result<(), Memory>
        ensures { OnOk result (self.new ≡ self.old) }
    {
        if count <= FEW {
            self.few.reserve(count)?;
        } else {
            self.more.reserve(count)?;
        }
        Ok(())
    }

    /// Binds one more name, inside of the others.
    fn bind(&mut self, name: &'a [u8], bound: Bound) -> Result<(), Memory>
        ensures { OnOk result (self.new ≡ self.old ++ named name.now bound ∷ []) }
    {
        if self.few.len() < FEW && self.more.len() == 0 {
            self.few.push(Meaning { name, bound })?;
        } else {
            self.more.bind(name, bound)?;
        }
        Ok(())
    }

    /// Forgets the innermost names, so that at most `count` are left.
    pub fn leave(&mut self, count: usize)
        ensures { self.new ≡ take count self.old }
    {
        self.more.leave(count.saturating_sub(self.few.len()));
        self.few.truncate(count);
    }

    /// Binds the variables of a quantifier, numbered from here on.
    pub fn bind_variables(
        &mut self,
        text: &'a [u8],
        first: u32,
        items: &[Tree],
    ) -> Result<(), Memory>
        requires { first + length items.now < 2 ^ 32 }
        ensures { OnOk result (self.new ≡ self.old ++ variables_from text.now first items.now) }
    {
        self.reserve(items.len())?;
        let mut number = first;
        for item in items {
            let sort = sort_bound(text, item);
            self.bind(name_bound(text, item), Bound::Variable { number, sort })?;
            number += 1;
        }
        Ok(())
    }

    /// Binds the names of a `let`, numbered from here on.
    pub fn bind_lets(
        &mut self,
        text: &'a [u8],
        first: u32,
        items: &[Tree],
        parts: &[Part],
    ) -> Result<(), Memory>
        requires { first + length parts.now < 2 ^ 32 }
        ensures { OnOk result (self.new ≡ self.old ++ lets_from text.now first items.now parts.now) }
    {
        self.reserve(items.len())?;
        let mut number = first;
        let mut i = 0;
        while i < items.len() && i < parts.len() {
            let part = parts[i];
            let bound = Bound::Let {
                number,
                sort: part.sort,
                constant: part.constant,
            };
            self.bind(name_bound(text, &items[i]), bound)?;
            number += 1;
            i += 1;
        }
        Ok(())
    }

    /// Binds parameters, as variables numbered from here on.
    pub fn bind_params(&mut self, first: u32, params: &'a [(Name, Sort)]) -> Result<(), Memory>
        requires { first + length params.now < 2 ^ 32 }
        ensures { OnOk result (self.new ≡ self.old ++ params_from first params.now) }
    {
        self.reserve(params.len())?;
        let mut number = first;
        for (name, sort) in params {
            let bound = Bound::Variable {
                number,
                sort: *sort,
            };
            self.bind(name.bytes.as_slice(), bound)?;
            number += 1;
        }
        Ok(())
    }
}
