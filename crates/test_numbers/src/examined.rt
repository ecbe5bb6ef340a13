//! Nodes that were worked out by hand.

use crate::made::{divisor, form};
use lia_node::{Examined, are_known, examine, have_short_constants};
use lin_atoms::Lit;
use refutation_trees::Evidence;
use std::alloc::Global;
use std::mem;
use std::process::Abort;

const LARGE: i64 = (1 << 62) + 1;

/// What two literals over two variables tell.
fn told(rt: &impl Abort, alloc: Global, first: Lit, second: Lit) -> Examined {
    let lits = Vec::from_array(alloc, [first, second]).expect(rt, "memory");
    assert!(rt; are_known(lits.as_slice(), 2));
    assert!(rt; have_short_constants(lits.as_slice()));
    let found = examine(alloc, lits.as_slice(), 2).expect(rt, "memory");
    mem::forget(lits);
    found
}

/// Two equations `a*x + b*y + c = 0`.
fn equations(
    rt: &impl Abort,
    alloc: Global,
    first: (i64, i64, i128),
    second: (i64, i64, i128),
) -> Examined {
    let one = Lit::Eq(form(rt, alloc, &[first.0, first.1], first.2));
    let two = Lit::Eq(form(rt, alloc, &[second.0, second.1], second.2));
    told(rt, alloc, one, two)
}

/// 2 divides x, and x is a number.
fn even(rt: &impl Abort, alloc: Global, x: i64) -> Examined {
    let first = Lit::Div(divisor(rt, 2), form(rt, alloc, &[1, 0], 0));
    let second = Lit::Eq(form(rt, alloc, &[1, 0], -i128::from(x)));
    told(rt, alloc, first, second)
}

fn is_fraction(found: Examined, wanted: (u32, i64)) -> bool {
    let is = match &found {
        Examined::Fraction { variable, floor } => (*variable, *floor) == wanted,
        _ => false,
    };
    mem::forget(found);
    is
}

fn is_model(found: Examined, wanted: &[i64]) -> bool {
    let is = match &found {
        Examined::Model(point) => point.as_slice() == wanted,
        _ => false,
    };
    mem::forget(found);
    is
}

fn is_conflict(found: Examined) -> bool {
    let is = matches!(&found, Examined::Conflict(_));
    mem::forget(found);
    is
}

/// Whether the second literal alone is false.
fn is_second_false(found: Examined) -> bool {
    let is = matches!(&found, Examined::False(1));
    mem::forget(found);
    is
}

fn is_wide_row(found: Examined) -> bool {
    let is = match &found {
        Examined::Wide(
            Evidence::Row {
                lits,
                basis: _,
                entry,
            },
        ) => {
            lits.len() == 2
                && entry.unsigned_abs() == 21_267_647_932_558_653_975_684_285_001_340_289_024
        }
        _ => false,
    };
    mem::forget(found);
    is
}

fn is_wide_coordinate(found: Examined) -> bool {
    let is = match &found {
        Examined::Wide(Evidence::Coordinate { variable, .. }) => *variable == 0,
        _ => false,
    };
    mem::forget(found);
    is
}

#[test]
fn equations_have_models_and_fractions(rt: HostRuntime) {
    let found = equations(&rt, rt.alloc(), (-2, 1, 0), (0, 1, -1));
    assert!(rt; is_fraction(found, (0, 0)));
    let found = equations(&rt, rt.alloc(), (-2, 1, 0), (0, 1, -6));
    assert!(rt; is_model(found, &[3, 6]));
}

#[test]
fn divisibilities_have_models_and_fractions(rt: HostRuntime) {
    assert!(rt; is_fraction(even(&rt, rt.alloc(), -1), (2, -1)));
    assert!(rt; is_model(even(&rt, rt.alloc(), 4), &[4, 0, 2]));
}

#[test]
fn conflicts_and_evidence(rt: HostRuntime) {
    let found = equations(&rt, rt.alloc(), (1, -1, 0), (1, -1, -1));
    assert!(rt; is_conflict(found));
    let found = equations(&rt, rt.alloc(), (1, 0, -1), (0, 0, 1));
    assert!(rt; is_second_false(found));
    let found = equations(&rt, rt.alloc(), (LARGE, 1, -3), (1, LARGE, -5));
    assert!(rt; is_wide_row(found));
    let found = equations(&rt, rt.alloc(), (1, -(1 << 62), 0), (0, 1, -2));
    assert!(rt; is_wide_coordinate(found));
}
