//! Conjunctions of as many rows as a tableau may have, and of one more.

use crate::made::lin;
use lia_branch::{Decision, are_below, decide_all, have_short_constants};
use lin_atoms::Lit;
use refutation_trees::Evidence;
use std::alloc::Global;
use std::mem;
use std::process::Abort;

/// The sum of a variable and the next one is at most 0.
fn sum(rt: &impl Abort, alloc: Global, variable: u32) -> Lit {
    let terms = [(variable, 1), (variable.wrapping_add(1), 1)];
    Lit::Le(lin(rt, alloc, &terms, 0))
}

/// So many sums, each of which is a row.
fn sums(rt: &impl Abort, alloc: Global, count: u32) -> Vec<Lit> {
    let mut lits = Vec::new(alloc);
    for variable in 0..count {
        lits.push(sum(rt, alloc, variable)).expect(rt, "memory");
    }
    lits
}

fn decided(rt: &impl Abort, alloc: Global, count: u32) -> Decision {
    let lits = sums(rt, alloc, count);
    assert!(rt; are_below(lits.as_slice(), 1026));
    assert!(rt; have_short_constants(lits.as_slice()));
    let decision = decide_all(alloc, lits.as_slice(), 1026, 1).expect(rt, "memory");
    mem::forget(lits);
    decision
}

/// How many literals evidence of too many rows has.
fn rows_of(decision: Decision) -> Option<usize> {
    let rows = match &decision {
        Decision::GaveUp(gave_up) => match gave_up.evidence() {
            Evidence::Rows { lits } => Some(lits.len()),
            _ => None,
        },
        _ => None,
    };
    mem::forget(decision);
    rows
}

fn has_point(rt: &impl Abort, alloc: Global, count: u32) -> bool {
    let decision = decided(rt, alloc, count);
    let has_point = matches!(&decision, Decision::Model(_));
    mem::forget(decision);
    has_point
}

#[test]
fn too_many_rows_are_given_up(rt: HostRuntime) {
    assert!(rt; has_point(&rt, rt.alloc(), 1024));
    assert!(rt; rows_of(decided(&rt, rt.alloc(), 1025)) == Some(1025));
}
