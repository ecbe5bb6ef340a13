//! Forms with values that were worked out by hand.

use crate::made::{check_at, divisor, holds, lin};
use base::{Items, Same};
use lin_atoms::{Lin, LinStop, Lit, WideStop, denied};
use std::alloc::Global;
use std::mem;
use std::process::Abort;

const MOST: i64 = i64::MAX;

const WIDE: i128 = 1 << 64;

/// Whether there is no room for the form; with memory.
fn stopped(rt: &impl Abort, answer: Result<Lin, WideStop>) -> bool {
    let is_wide = matches!(&answer, Err(WideStop::Wide));
    assert!(rt; is_wide == answer.is_err());
    mem::forget(answer);
    is_wide
}

/// Why these terms and the constant are no form.
fn stop(rt: &impl Abort, alloc: Global, terms: &[(u32, i64)], constant: i128) -> Option<LinStop> {
    let terms = Vec::from_slice(alloc, terms).expect(rt, "memory");
    let made = Lin::new(terms, constant);
    let stop = match &made {
        Ok(_) => None,
        Err(stop) => Some(*stop),
    };
    mem::forget(made);
    stop
}

fn are_equal(form: Lin, wanted: Lin) -> bool {
    let are_equal = form.equals(&wanted);
    mem::forget(form);
    mem::forget(wanted);
    are_equal
}

#[test]
fn terms_out_of_order_and_wide_numbers_are_no_form(rt: HostRuntime) {
    for (terms, constant, wanted) in [
        ([(1, 1), (0, 1)], 0, Some(LinStop::Order)),
        ([(1, 1), (1, 1)], 0, Some(LinStop::Order)),
        ([(0, 1), (1, 0)], 0, Some(LinStop::Order)),
        ([(0, MOST), (u32::MAX, -MOST)], WIDE - 1, None),
        ([(0, MOST), (u32::MAX, -MOST)], 1 - WIDE, None),
        ([(0, i64::MIN), (1, 1)], 0, Some(LinStop::Wide)),
        ([(0, 1), (1, 1)], WIDE, Some(LinStop::Wide)),
        ([(0, 1), (1, 1)], -WIDE, Some(LinStop::Wide)),
    ] {
        assert!(rt; stop(&rt, rt.alloc(), &terms, constant) == wanted);
    }
}

#[test]
fn sums_beyond_2_to_the_127_that_come_back_are_exact(rt: HostRuntime) {
    let terms = [(0, MOST), (1, MOST), (2, -MOST), (3, -MOST)];
    let point = [MOST, MOST, MOST, MOST];
    for (constant, at_most, equal) in [(-1, true, false), (0, true, true), (1, false, false)] {
        let le = Lit::Le(lin(&rt, rt.alloc(), &terms, constant));
        check_at(&rt, holds(le, &point) == at_most, constant);
        let eq = Lit::Eq(lin(&rt, rt.alloc(), &terms, constant));
        check_at(&rt, holds(eq, &point) == equal, constant);
    }
}

fn divides(
    rt: &impl Abort,
    alloc: Global,
    n: i64,
    coefficient: i64,
    constant: i128,
    x: i64,
) -> bool {
    let form = lin(rt, alloc, &[(0, coefficient)], constant);
    holds(Lit::Div(divisor(rt, n), form), &[x])
}

#[test]
fn divisibility_counts_negative_numbers_by_their_magnitudes(rt: HostRuntime) {
    for (n, coefficient, constant, x, wanted) in [
        (3, 1, 0, -3, true),
        (3, 1, 0, -4, false),
        (3, 1, 1, -4, true),
        (3, -2, 0, 4, false),
        (MOST, MOST, 0, MOST, true),
        (MOST, 1, 0, -MOST, true),
        (MOST, 1, 0, 1 - MOST, false),
        (7, 1, 0, 0, true),
    ] {
        let found = divides(&rt, rt.alloc(), n, coefficient, constant, x);
        check_at(&rt, found == wanted, i128::from(x));
    }
}

fn added_is(
    rt: &impl Abort,
    alloc: Global,
    a: &[(u32, i64)],
    b: &[(u32, i64)],
    wanted: &[(u32, i64)],
) -> bool {
    let a = lin(rt, alloc, a, 3);
    let b = lin(rt, alloc, b, 4);
    let sum = a.added(alloc, &b).expect(rt, "memory");
    mem::forget(a);
    mem::forget(b);
    are_equal(sum, lin(rt, alloc, wanted, 7))
}

fn scaled_is(
    rt: &impl Abort,
    alloc: Global,
    k: i64,
    terms: &[(u32, i64)],
    wanted: &[(u32, i64)],
) -> bool {
    let form = lin(rt, alloc, terms, 0);
    let multiple = form.scaled(alloc, k).expect(rt, "memory");
    mem::forget(form);
    are_equal(multiple, lin(rt, alloc, wanted, 0))
}

#[test]
fn sums_and_multiples_are_normal_forms(rt: HostRuntime) {
    let alloc = rt.alloc();
    assert!(rt;
        added_is(
            &rt,
            alloc,
            &[(0, 2), (1, -1)],
            &[(1, 1), (2, 1)],
            &[(0, 2), (2, 1)]
        )
    );
    assert!(rt; added_is(&rt, alloc, &[(3, 1)], &[(1, 5), (3, 1)], &[(1, 5), (3, 2)]));
    assert!(rt; scaled_is(&rt, alloc, -3, &[(0, 2), (1, -1)], &[(0, -6), (1, 3)]));
    assert!(rt; scaled_is(&rt, alloc, 0, &[(0, 2), (1, -1)], &[]));
}

fn renamed_is(rt: &impl Abort, alloc: Global, names: &[u32], wanted: &[(u32, i64)]) -> bool {
    let form = lin(rt, alloc, &[(0, MOST), (1, MOST), (2, -MOST)], 3);
    let named = form.renamed(alloc, names).expect(rt, "memory");
    mem::forget(form);
    are_equal(named, lin(rt, alloc, wanted, 3))
}

/// Whether a replaced form is wide.
fn is_wide(rt: &impl Abort, alloc: Global, variable: u32, name: u32) -> bool {
    let form = lin(rt, alloc, &[(0, MOST), (1, 2)], 0);
    let answer = form.replaced(alloc, variable, name);
    mem::forget(form);
    stopped(rt, answer)
}

#[test]
fn coefficients_of_one_name_are_added_up(rt: HostRuntime) {
    assert!(rt; renamed_is(&rt, rt.alloc(), &[5, 5, 5], &[(5, MOST)]));
    assert!(rt; renamed_is(&rt, rt.alloc(), &[4, 1, 4], &[(1, MOST)]));
    assert!(rt; renamed_is(&rt, rt.alloc(), &[2, 1], &[(1, MOST)]));
    assert!(rt; !is_wide(&rt, rt.alloc(), 1, 7));
    assert!(rt; is_wide(&rt, rt.alloc(), 1, 0));
}

fn first_is(lits: &Items<Lit>, wanted: &Lit) -> bool {
    match lits.get(0) {
        Some(first) => first.equals(wanted),
        None => false,
    }
}

fn equality(rt: &impl Abort, alloc: Global) -> Items<Lit> {
    let lit = Lit::Eq(lin(rt, alloc, &[(0, 2)], 3));
    let lits = denied(alloc, &lit).expect(rt, "memory");
    mem::forget(lit);
    lits
}

#[test]
fn denial_of_an_equality_is_below_or_above(rt: HostRuntime) {
    let lits = equality(&rt, rt.alloc());
    assert!(rt; lits.len() == 2);
    let below = Lit::Le(lin(&rt, rt.alloc(), &[(0, 2)], 4));
    assert!(rt; first_is(&lits, &below));
    mem::forget(lits);
    mem::forget(below);
}

/// Whether there is no room for the denial; with memory.
fn denial_stops(rt: &impl Abort, alloc: Global, lit: Lit) -> bool {
    let answer = denied(alloc, &lit);
    mem::forget(lit);
    let is_wide = matches!(&answer, Err(WideStop::Wide));
    assert!(rt; is_wide == answer.is_err());
    mem::forget(answer);
    is_wide
}

#[test]
fn denial_stops_where_the_constant_has_no_room(rt: HostRuntime) {
    for (constant, wanted) in [(1 - WIDE, true), (2 - WIDE, false), (WIDE - 1, false)] {
        let lit = Lit::Le(lin(&rt, rt.alloc(), &[(0, 2)], constant));
        check_at(&rt, denial_stops(&rt, rt.alloc(), lit) == wanted, constant);
    }
}

#[test]
fn denial_of_an_equality_stops_on_either_side(rt: HostRuntime) {
    for (constant, wanted) in [(WIDE - 1, true), (1 - WIDE, true), (WIDE - 2, false)] {
        let lit = Lit::Eq(lin(&rt, rt.alloc(), &[(0, 2)], constant));
        check_at(&rt, denial_stops(&rt, rt.alloc(), lit) == wanted, constant);
    }
}

/// Whether the sum of two forms with these constants has no room.
fn sum_stops(rt: &impl Abort, alloc: Global, a: i128, b: i128) -> bool {
    let (a, b) = (lin(rt, alloc, &[(0, 2)], a), lin(rt, alloc, &[(1, 3)], b));
    let sum = a.added(alloc, &b);
    mem::forget(a);
    mem::forget(b);
    stopped(rt, sum)
}

#[test]
fn sums_stop_where_the_constant_has_no_room(rt: HostRuntime) {
    assert!(rt; sum_stops(&rt, rt.alloc(), WIDE - 1, 1));
    assert!(rt; sum_stops(&rt, rt.alloc(), 1 - WIDE, -1));
    assert!(rt; !sum_stops(&rt, rt.alloc(), WIDE - 1, 0));
}
