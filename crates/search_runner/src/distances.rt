//! How many clauses there are between a predicate and a query.

use base::Memory;
use clause_form::{Clause, System};
use std::alloc::Global;

/// From where on it doesn't matter.
const FAR: u32 = 1_000;

fn at(distances: &[u32], pred: u32) -> u32 {
    match distances.get(pred as usize) {
        Some(distance) => *distance,
        None => FAR,
    }
}

/// Lets the clause's body atoms be one clause further than its head; whether one came nearer.
fn shorten(distances: &mut Vec<u32>, clause: &Clause) -> bool {
    let most = match &clause.head {
        Some(head) => at(distances.as_slice(), head.pred).saturating_add(1),
        None => 0,
    };
    let mut changed = false;
    for atom in clause.atoms.as_slice() {
        if let Some(own) = distances.as_mut_slice().get_mut(atom.pred as usize) {
            if most < *own {
                *own = most;
                changed = true;
            }
        }
    }
    changed
}

/// Goes through all clauses once.
fn pass(distances: &mut Vec<u32>, sys: &System) -> bool {
    let mut changed = false;
    for clause in sys.clauses() {
        if shorten(distances, clause) {
            changed = true;
        }
    }
    changed
}

/// For each predicate by how many clauses at least a query rests on it.
pub(crate) fn distances_of(alloc: Global, sys: &System) -> Result<Vec<u32>, Memory> {
    let preds = sys.preds().len();
    let mut distances = vec![in alloc; FAR; preds]?;
    for _ in 0..preds {
        if !pass(&mut distances, sys) {
            return Ok(distances);
        }
    }
    Ok(distances)
}
