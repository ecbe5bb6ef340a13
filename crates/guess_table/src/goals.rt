//! What a bound's lemma denies at the atoms of a clause. A bound is kept without a query where that is the same
//! at the head and at a body atom.

use crate::bound::{Bound, Use};
use base::{Items, Memory, Same};
use clause_form::Clause;
use cube_forms::Lemma;
use lin_atoms::{Lit, WideStop};
use std::alloc::Global;

/// What a lemma denies, at arguments.
pub fn denied_at(alloc: Global, lemma: &Lemma, args: &[u32]) -> Result<Option<Items<Lit>>, Memory> {
    match lemma.cube().at(alloc, args) {
        Ok(lits) => Ok(Some(lits)),
        Err(WideStop::Wide) => Ok(None),
        Err(WideStop::Memory) => Err(Memory),
    }
}

/// What the bound's lemma denies at the head of the clause, if both have one.
pub fn denied_by(
    alloc: Global,
    bounds: &[Bound],
    at: usize,
    clause: &Clause,
) -> Result<Option<Items<Lit>>, Memory> {
    let head = match &clause.head {
        Some(head) => head,
        None => return Ok(None),
    };
    match bounds.get(at) {
        Some(bound) => match &bound.lemma {
            Some(lemma) => denied_at(alloc, lemma, head.args.as_slice()),
            None => Ok(None),
        },
        None => Ok(None),
    }
}

/// Whether the lemma denies these literals at the arguments.
fn denies(alloc: Global, lemma: &Lemma, args: &[u32], goal: &Items<Lit>) -> Result<bool, Memory> {
    match denied_at(alloc, lemma, args)? {
        Some(own) => Ok(own.equals(goal)),
        None => Ok(false),
    }
}

/// The first body atom of the bound's predicate at which the bound's lemma denies the literals of the goal,
/// those that it denies at the head.
fn atom_of(
    alloc: Global,
    clause: &Clause,
    pred: u32,
    lemma: &Lemma,
    goal: &Items<Lit>,
) -> Result<Option<usize>, Memory> {
    for (number, atom) in clause.atoms.as_slice().iter().enumerate() {
        if atom.pred == pred && denies(alloc, lemma, atom.args.as_slice(), goal)? {
            return Ok(Some(number));
        }
    }
    Ok(None)
}

/// The bound itself, used on the first body atom of its predicate at which its lemma denies what it denies at the
/// head: the clause moves none of its places there.
pub fn unmoved(
    alloc: Global,
    clause: &Clause,
    at: usize,
    bound: &Bound,
    goal: &Items<Lit>,
) -> Result<Option<Use>, Memory> {
    let lemma = match &bound.lemma {
        Some(lemma) => lemma,
        None => return Ok(None),
    };
    match atom_of(alloc, clause, bound.pred, lemma, goal)? {
        Some(atom) => Ok(Some(Use {
            bound: at,
            atom,
            version: bound.version,
        })),
        None => Ok(None),
    }
}
