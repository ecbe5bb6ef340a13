ghost use Rattle.std.specs.Prelude.{◌≡◌, [], ◌∷◌, ◌++◌, ◌<◌, ◌+◌, ◌-◌, ◌^◌, ◌≤◌, length, slice_index_or, map, max, IfOk, OnOk, OnErr};
ghost use Rattle.std.specs.List.{All};
ghost use Rattle.derivations.specs.Facts.{greatest, height_of, fact_premises, tuple_of};

use crate::fact::Fact;
use base::Memory;
use cube_forms::Table;
use std::alloc::Global;
use std::marker::Model;

/// A fact with its height.
pub(crate) struct Noted {
    fact: Fact,
    height: u32,
}

impl Drop for Noted {
    fn drop(self) {
        let Noted { fact: _, height: _ } = self;
    }
}

/// The facts in order of number, with their heights. Versions share the facts.
pub(crate) struct Notes {
    table: Table<Noted>,
}

impl Drop for Notes {
    fn drop(self) {
        let Notes { table: _ } = self;
    }
}

impl Model for Notes {
    ghost use Rattle.std.specs.Prelude.{◌≡◌, List, map};
    ghost use Rattle.derivations.specs.declared.fact.Fact.{Fact};
    ghost use Rattle.derivations.specs.Facts.{heights};

    ghost Value = { List Fact };

    ghost view = { λ n. map (λ r. r.fact) n.table };

    ghost invariant = { λ n. map (λ r. r.height) n.table ≡ heights (map (λ r. r.fact) n.table) };
}

fn greater(a: u32, b: u32) -> u32
    ensures { result ≡ max a b }
{
    if a < b { b } else { a }
}

impl Notes {
    pub(crate) fn new(alloc: Global) -> Result<Notes, Memory>
        ensures { IfOk result (λ notes. notes ≡ []) }
    {
        let table = Table::new(alloc)?;
        Ok(Notes { table })
    }

    pub(crate) fn count(&self) -> u32
        ensures { result ≡ length self.now }
    {
        self.table.count()
    }

    pub(crate) fn share(&self) -> Result<Notes, Memory>
        ensures { IfOk result (λ notes. notes ≡ self.now) }
    {
        Ok(Notes {
            table: self.table.share()?,
        })
    }

    pub(crate) fn fact(&self, id: u32) -> &Fact
        requires { id < length self.now }
        ensures { result.now ≡ slice_index_or self.now id result.now }
    {
        &self.table.get(id).fact
    }

    pub(crate) fn tuple(&self, id: u32) -> &[i64]
        requires { id < length self.now }
        ensures { result.now ≡ tuple_of self.now id }
    {
        self.fact(id).tuple.as_slice()
    }

    pub(crate) fn premises(&self, id: u32) -> &[u32]
        requires { id < length self.now }
        ensures { result.now ≡ fact_premises self.now id }
    {
        self.fact(id).premises.as_slice()
    }

    pub(crate) fn height(&self, id: u32) -> u32
        requires { id < length self.now }
        ensures is { result ≡ height_of self.now id }
        ensures bound { result ≤ length self.now }
    {
        self.table.get(id).height
    }

    /// The height of a fact that follows from these.
    fn height_over(&self, premises: &[u32]) -> u32
        requires there { All (λ p. p < length self.now) premises.now }
        requires room { length self.now < 2 ^ 32 - 1 }
        ensures { result ≡ 1 + greatest (map (height_of self.now) premises.now) }
    {
        let mut most = 0;
        for id in premises {
            most = greater(most, self.height(*id));
        }
        1 + most
    }

    pub(crate) fn add(&mut self, fact: Fact) -> Result<(), Memory>
        requires there { All (λ p. p < length self.old) fact.premises }
        requires room { length self.old < 2 ^ 32 - 1 }
        ensures ok { OnOk result (self.new ≡ self.old ++ fact ∷ []) }
        ensures err { OnErr result (self.new ≡ self.old) }
    {
        let height = self.height_over(fact.premises.as_slice());
        self.table.push(Noted { fact, height })?;
        Ok(())
    }
}
