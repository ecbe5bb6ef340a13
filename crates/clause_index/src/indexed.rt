ghost use Rattle.std.specs.Prelude.{◌≡◌, ◌<◌, ◌^◌, length, map, slice_get, true, Some, IfOk};
ghost use Rattle.clause_form.specs.System.{is_clause, is_system};
ghost use Rattle.clause_index.specs.Index.{flat_of, numbers_of};

use crate::flat::{FlatGuard, falsehood};
use crate::heads::{Heads, heads_of};
use crate::places::{Places, all_places};
use base::{Items, Memory};
use clause_form::{Clause, System};
use lin_atoms::Lit;
use std::alloc::Global;
use std::marker::Model;
use term_tree::Sort;

/// A system beside what a search reads of its clauses again and again: where in each guard its literals
/// and disjunctions stand, and the clauses with each head. Contracts see the system alone.
pub struct IndexedSystem {
    system: System,
    guards: Items<Places>,
    falsehood: Lit,
    heads: Heads,
}

impl Drop for IndexedSystem {
    fn drop(self) {
        let IndexedSystem {
            system: _,
            guards: _,
            falsehood: _,
            heads: _,
        } = self;
    }
}

impl Model for IndexedSystem {
    ghost use Rattle.std.specs.Coded.{codes};
    ghost use Rattle.lin_atoms.specs.contracts.form.Form as form;
    ghost use Rattle.clause_form.specs.System.{Clauses};
    ghost use Rattle.clause_index.specs.machinery.Indexed.{IsIndex};

    ghost Value = { Clauses };

    ghost coded = { Prim.hlevel (codes, form.the_row.coded) };

    ghost view = { λ s. s.system };

    ghost invariant = { λ s. IsIndex s.system s.guards s.falsehood s.heads };
}

impl IndexedSystem {
    /// Makes what a search reads again and again. The clauses have numbers of 32 bits.
    pub fn new(alloc: Global, system: System) -> Result<IndexedSystem, Memory>
        requires { length system.clauses < 2 ^ 32 }
        ensures is { IfOk result (λ indexed. indexed ≡ system) }
        ensures legal { is_system system ≡ true }
    {
        let guards = all_places(alloc, system.clauses())?;
        let heads = heads_of(alloc, &system)?;
        Ok(IndexedSystem {
            system,
            guards,
            falsehood: falsehood(alloc),
            heads,
        })
    }

    /// The system itself.
    pub fn plain(&self) -> &System
        ensures { result.now ≡ self.now }
    {
        &self.system
    }

    /// The clauses, one for each assertion, in their order.
    pub fn clauses(&self) -> &[Clause]
        ensures is { result.now ≡ self.now.clauses }
        ensures legal { is_system self.now ≡ true }
        ensures numbered { length self.now.clauses < 2 ^ 32 }
    {
        self.system.clauses()
    }

    /// The sorts of each predicate's arguments, in the order of the declarations.
    pub fn preds(&self) -> &[Items<Sort>]
        ensures is { result.now ≡ self.now.preds }
        ensures legal { is_system self.now ≡ true }
    {
        self.system.preds()
    }

    /// The clause of that number.
    pub fn clause(&self, number: usize) -> &Clause
        requires { number < length self.now.clauses }
        ensures is { slice_get self.now.clauses number ≡ Some result.now }
        ensures legal { is_clause self.now.preds result.now ≡ true }
    {
        self.system.clause(number)
    }

    /// The guard of the clause of that number as the integer solver starts from it: the literals of its
    /// conjunction in order, and its disjunctions, which stay open.
    pub fn guard(&self, number: usize) -> FlatGuard<'_>
        requires { number < length self.now.clauses }
        ensures { slice_get (map flat_of self.now.clauses) number ≡ Some result }
    {
        let guard = &self.system.clause(number).guard;
        FlatGuard::new(guard, &self.guards.as_slice()[number], &self.falsehood)
    }

    /// The numbers of the clauses whose head is of the predicate, or that have none, in order.
    pub fn with_head(&self, pred: Option<u32>) -> &[u32]
        ensures { result.now ≡ numbers_of self.now pred }
    {
        self.heads.listed(pred)
    }
}
