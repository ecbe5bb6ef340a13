ghost use Rattle.std.specs.Prelude.{◌≡◌, ◌<◌, length, slice_get, Some, IfSome, IsNone, ◌↔◌, true, false};
ghost use Rattle.clause_form.specs.System.{are_clauses, is_clause, is_system};

use crate::clause::Clause;
use crate::legal::are_clauses;
use base::{Copied, Items, Memory};
use std::alloc::Global;
use std::marker::Model;
use term_tree::Sort;

/// The clauses of a script over the predicates that it declares, each with the sorts of its
/// arguments. The predicate of each atom is there and has as many arguments as sorts, at most 256;
/// a clause has at most 2,048 variables and names no others; and in its guard the constants of the
/// divisibilities are below 2^63 in magnitude.
pub struct System {
    clauses: Items<Clause>,
    preds: Items<Items<Sort>>,
}

impl Drop for System {
    fn drop(self) {
        let System {
            clauses: _,
            preds: _,
        } = self;
    }
}

impl Model for System {
    ghost use Rattle.std.specs.Prelude.{◌≡◌, true};
    ghost use Rattle.std.specs.Coded.{codes};
    ghost use Rattle.lin_atoms.specs.contracts.form.Form as form;
    ghost use Rattle.clause_form.specs.System.{Clauses, is_system};

    ghost Value = { Clauses };

    ghost coded = { Prim.hlevel (codes, form.the_row.coded) };

    ghost view = { λ s. record { clauses = s.clauses; preds = s.preds } };

    ghost invariant = { λ s. is_system (record { clauses = s.clauses; preds = s.preds }) ≡ true };
}

impl System {
    /// The system of these clauses over predicates with these sorts, unless a clause is not as a
    /// system needs it.
    pub fn new(clauses: Items<Clause>, preds: Items<Items<Sort>>) -> Option<System>
        ensures made { IfSome result (λ system. system ≡ record { clauses = clauses; preds = preds }) }
        ensures none { IsNone result ↔ (is_system (record { clauses = clauses; preds = preds }) ≡ false) }
    {
        if !are_clauses(preds.as_slice(), clauses.as_slice()) {
            return None;
        }
        Some(System { clauses, preds })
    }

    /// The system of clauses of which is known that they are as a system needs them, so that nothing is
    /// looked at again.
    pub fn of_legal(clauses: Items<Clause>, preds: Items<Items<Sort>>) -> System
        requires { are_clauses preds clauses ≡ true }
        ensures { result ≡ record { clauses = clauses; preds = preds } }
    {
        System { clauses, preds }
    }

    /// The clauses, one for each assertion, in their order.
    pub fn clauses(&self) -> &[Clause]
        ensures is { result.now ≡ self.now.clauses }
        ensures legal { is_system self.now ≡ true }
    {
        self.clauses.as_slice()
    }

    /// The sorts of each predicate's arguments, in the order of the declarations.
    pub fn preds(&self) -> &[Items<Sort>]
        ensures is { result.now ≡ self.now.preds }
        ensures legal { is_system self.now ≡ true }
    {
        self.preds.as_slice()
    }

    /// The clause of that number.
    pub fn clause(&self, number: usize) -> &Clause
        requires { number < length self.now.clauses }
        ensures is { slice_get self.now.clauses number ≡ Some result.now }
        ensures legal { is_clause self.now.preds result.now ≡ true }
    {
        &self.clauses()[number]
    }
}

impl Copied for System {
    fn copy(&self, alloc: Global) -> Result<System, Memory> {
        let clauses = self.clauses.copy(alloc)?;
        let preds = self.preds.copy(alloc)?;
        Ok(System { clauses, preds })
    }
}
