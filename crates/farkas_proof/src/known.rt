//! The literals that are known where a walk stands.

ghost use Rattle.std.specs.Prelude.{◌≡◌, ◌++◌, ◌∷◌, [], List, IfOk, OnOk, length, take};
ghost use Rattle.lin_atoms.specs.declared.lit.Lit.{Lit};
ghost use Rattle.refutation_trees.specs.Combination.{lits_end};
ghost use Rattle.farkas_proof.specs.machinery.Ends.{ends_from};

use base::Memory;
use lin_atoms::Lit;
use refutation_trees::lit_end;
use std::alloc::Global;
use std::marker::Model;

/// Literals, of which the last come and go. First numbers above their variables are kept from call
/// to call, so that none looks through all literals again.
#[derive(Drop)]
pub(crate) struct Known {
    lits: Vec<Lit>,
    /// For each of the first literals, the first number above the variables of those up to it.
    ends: Vec<u64>,
}

impl Model for Known {
    ghost use Rattle.std.specs.Prelude.{◌≡◌, List, length, take};
    ghost use Rattle.lin_atoms.specs.declared.lit.Lit.{Lit};
    ghost use Rattle.farkas_proof.specs.machinery.Ends.{ends_from};

    ghost Value = { List Lit };

    ghost view = { λ k. k.lits.items };

    ghost invariant = { λ k. k.ends.items ≡ ends_from 0 (take (length k.ends.items) k.lits.items) };
}

/// The last of the numbers, 0 where there is none.
fn last_of(ends: &[u64]) -> u64
    ensures { (lits : List Lit) → ends.now ≡ ends_from 0 lits → result ≡ lits_end lits }
{
    match ends.last() {
        Some(end) => *end,
        None => 0,
    }
}

/// Makes the numbers for all literals, where those for the first are there.
fn complete(ends: &mut Vec<u64>, lits: &[Lit]) -> Result<(), Memory>
    requires { ends.old.items ≡ ends_from 0 (take (length ends.old.items) lits.now) }
    ensures kept { ends.new.items ≡ ends_from 0 (take (length ends.new.items) lits.now) }
    ensures all { OnOk result (ends.new.items ≡ ends_from 0 lits.now) }
{
    while ends.len() < lits.len() {
        let end = last_of(ends.as_slice()).max(lit_end(&lits[ends.len()]));
        ends.push(end)?;
    }
    Ok(())
}

impl Known {
    /// No literal.
    pub(crate) fn nothing(alloc: Global) -> Known
        ensures { result ≡ [] }
    {
        Known {
            lits: Vec::new(alloc),
            ends: Vec::new(alloc),
        }
    }

    pub(crate) fn len(&self) -> usize
        ensures { result ≡ length self.now }
    {
        self.lits.len()
    }

    pub(crate) fn as_slice(&self) -> &[Lit]
        ensures { result.now ≡ self.now }
    {
        self.lits.as_slice()
    }

    /// One more than the greatest variable of the literals, 0 where there is none.
    pub(crate) fn end(&mut self) -> Result<u64, Memory>
        ensures value { IfOk result (λ end. end ≡ lits_end self.old) }
        ensures same { self.new ≡ self.old }
    {
        complete(&mut self.ends, self.lits.as_slice())?;
        Ok(last_of(self.ends.as_slice()))
    }

    /// One more literal.
    pub(crate) fn push(&mut self, lit: Lit) -> Result<(), Memory>
        ensures { OnOk result (self.new ≡ self.old ++ lit ∷ []) }
    {
        self.lits.push(lit)?;
        Ok(())
    }

    /// More literals.
    pub(crate) fn push_all(&mut self, mut lits: Vec<Lit>) -> Result<(), Memory>
        ensures { OnOk result (self.new ≡ self.old ++ lits.items) }
    {
        self.lits.append(&mut lits)?;
        Ok(())
    }

    /// The first literals alone.
    pub(crate) fn truncate(&mut self, depth: usize)
        ensures { self.new ≡ take depth self.old }
    {
        self.lits.truncate(depth);
        self.ends.truncate(depth);
    }
}
