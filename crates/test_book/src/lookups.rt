//! Facts of two values, looked up by what their tuples begin with, and in cubes of equations.

use crate::facts::added;
use crate::lits::lin;
use derivations::Facts;
use lin_atoms::Lit;
use std::alloc::Global;
use std::mem;
use std::process::Abort;
use step_rules::has_fact_in;

/// The tuples of predicate 1, by the numbers of their facts.
const TUPLES: [[i64; 2]; 7] = [[4, 2], [4, 0], [4, -3], [7, 2], [-1, 2], [0, 9], [0, 0]];

fn made(rt: &impl Abort, alloc: Global) -> Facts {
    let mut facts = Facts::new(alloc).expect(rt, "memory");
    for tuple in TUPLES {
        added(rt, alloc, &mut facts, 1, &tuple, &[]);
    }
    facts
}

/// Whether these are the facts of the predicate that begin so, in order of tuple.
fn are_under(facts: &Facts, pred: u32, front: &[i64], wanted: &[u32]) -> bool {
    facts.under(pred, front) == wanted
}

#[test]
fn tuples_that_begin_alike_stand_side_by_side(rt: HostRuntime) {
    let facts = made(&rt, rt.alloc());
    assert!(rt; facts.count() == 7);
    assert!(rt; are_under(&facts, 1, &[], &[4, 6, 5, 2, 1, 0, 3]));
    assert!(rt; are_under(&facts, 1, &[4], &[2, 1, 0]));
    assert!(rt; are_under(&facts, 1, &[0], &[6, 5]));
    assert!(rt; are_under(&facts, 1, &[7], &[3]));
    assert!(rt; are_under(&facts, 1, &[5], &[]));
    assert!(rt; are_under(&facts, 1, &[4, 0], &[1]));
    assert!(rt; are_under(&facts, 1, &[4, 1], &[]));
    assert!(rt; are_under(&facts, 1, &[4, 2, 0], &[]));
    assert!(rt; are_under(&facts, 0, &[4], &[]));
    mem::forget(facts);
}

/// A coefficient of a place, and a constant, whose sum is 0.
fn equation(rt: &impl Abort, alloc: Global, place: u32, coefficient: i64, constant: i128) -> Lit {
    Lit::Eq(lin(rt, alloc, &[(place, coefficient)], constant))
}

/// Whether a fact lies in the cube of two equations.
fn is_there(
    rt: &impl Abort,
    alloc: Global,
    facts: &Facts,
    first: (u32, i64, i128),
    second: (u32, i64, i128),
) -> bool {
    let first = equation(rt, alloc, first.0, first.1, first.2);
    let second = equation(rt, alloc, second.0, second.1, second.2);
    let lits = Vec::from_array(alloc, [first, second]).expect(rt, "memory");
    let is = has_fact_in(facts, 1, lits.as_slice());
    mem::forget(lits);
    is
}

#[test]
fn facts_are_found_in_cubes_of_equations(rt: HostRuntime) {
    let facts = made(&rt, rt.alloc());
    for (shows, first, second, wanted) in [
        ("x0 = 4 and x1 = 2", (0, 1, -4), (1, 1, -2), true),
        ("x0 = 4 and x1 = 0", (0, 1, -4), (1, 1, 0), true),
        ("x0 = 4 and x1 = 1", (0, 1, -4), (1, 1, -1), false),
        ("-x0 = -4 and -x1 = 3", (0, -1, 4), (1, -1, -3), true),
        ("x1 = 9 and x0 = 0", (1, 1, -9), (0, 1, 0), true),
        ("x0 = 0 and x1 = 0", (0, 1, 0), (1, 1, 0), true),
        ("x0 = 0 and x1 = 1", (0, 1, 0), (1, 1, -1), false),
        ("x0 = 7 and 2 x1 = 4", (0, 1, -7), (1, 2, -4), true),
        ("x0 = 7 and 2 x1 = 3", (0, 1, -7), (1, 2, -3), false),
        ("2 x0 = 8 and x1 = 2", (0, 2, -8), (1, 1, -2), true),
        ("x0 = 4 and x0 = 7", (0, 1, -4), (0, 1, -7), false),
        ("x0 = 4 and x2 = 0", (0, 1, -4), (2, 1, 0), true),
        ("x0 = 4 and x2 = 1", (0, 1, -4), (2, 1, -1), false),
    ] {
        assert!(rt;
            is_there(&rt, rt.alloc(), &facts, first, second) == wanted,
            "{shows}"
        );
    }
    mem::forget(facts);
}
