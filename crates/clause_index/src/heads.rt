//! The numbers of the clauses with each head.

ghost use Rattle.std.specs.Prelude.{◌≡◌, ◌<◌, ◌^◌, length, replicate, [], true, IfOk, OnOk};
ghost use Rattle.clause_index.specs.machinery.Heads.{AreListed, IsPlaced, is_listed, listed};

use base::{Items, Memory};
use clause_form::{Atom, System};
use std::alloc::Global;

/// The numbers of the clauses without a head, and of those with each predicate's, in order.
pub(crate) struct Heads {
    pub(crate) queries: Items<u32>,
    pub(crate) of: Vec<Items<u32>>,
}

impl Drop for Heads {
    fn drop(self) {
        let Heads { queries: _, of: _ } = self;
    }
}

/// No numbers, over `preds` predicates.
fn no_numbers(alloc: Global, preds: usize) -> Result<Vec<Items<u32>>, Memory>
    ensures { IfOk result (λ made. made.items ≡ replicate preds []) }
{
    let mut made = Vec::with_capacity(alloc, preds)?;
    for _ in 0..preds {
        made.push(Items::new(alloc))?;
    }
    Ok(made)
}

/// Adds the clause of that number to those with its head.
fn place(heads: &mut Heads, head: &Option<Atom>, number: u32) -> Result<(), Memory>
    requires { is_listed heads.old head.now ≡ true }
    ensures { OnOk result (IsPlaced heads.old head.now number heads.new) }
{
    match head {
        None => heads.queries.push(number)?,
        Some(atom) => heads.of[atom.pred as usize].push(number)?,
    }
    Ok(())
}

/// The numbers of the system's clauses by their heads.
pub(crate) fn heads_of(alloc: Global, system: &System) -> Result<Heads, Memory>
    requires { length system.now.clauses < 2 ^ 32 }
    ensures { IfOk result (AreListed system.now) }
{
    let of = no_numbers(alloc, system.preds().len())?;
    let mut heads = Heads {
        queries: Items::new(alloc),
        of,
    };
    for (number, clause) in system.clauses().iter().enumerate() {
        place(&mut heads, &clause.head, number as u32)?;
    }
    Ok(heads)
}

impl Heads {
    /// The numbers of the clauses with the predicate's head, or without one for none, in order.
    pub(crate) fn listed(&self, pred: Option<u32>) -> &[u32]
        ensures { result.now ≡ listed self.now pred }
    {
        match pred {
            None => self.queries.as_slice(),
            Some(pred) => match self.of.get(pred as usize) {
                Some(numbers) => numbers.as_slice(),
                None => &[],
            },
        }
    }
}
