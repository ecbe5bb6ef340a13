//! Formulas most of whose disjunctions have nothing to do with what contradicts, by hand.

use crate::made::{divisor, le, lin, pair, put};
use base::{Copied, Items, Same};
use lia_cases::decide;
use lia_decide::decide_back;
use lia_search::{Decision, has_short_multiples, search};
use lin_atoms::{Form, Lit, holds};
use std::alloc::Global;
use std::mem;
use std::process::Abort;

/// So many disjunctions have nothing to do with the rest. Variables 0 to 3 are those of the rest.
const IDLE: u32 = 10;

const VARIABLES: u32 = 14;

/// 3 divides the sum of x2 - x3 and the constant.
fn by_three(rt: &impl Abort, alloc: Global, constant: i128) -> Form {
    let terms = [(2, 1), (3, -1)];
    Form::Lit(Lit::Div(divisor(rt, 3), lin(rt, alloc, &terms, constant)))
}

/// The variable isn't 0.
fn not_zero(rt: &impl Abort, alloc: Global, variable: u32) -> Form {
    let below = le(rt, alloc, &[(variable, 1)], 1);
    Form::Or(pair(rt, alloc, below, le(rt, alloc, &[(variable, -1)], 1)))
}

/// x0 - x1 is 0, but at most -1, at least 1, or 3 and a half: a contradiction that no bound of one variable
/// shows.
fn difference(rt: &impl Abort, alloc: Global, parts: &mut Items<Form>) {
    let terms = [(0, 1), (1, -1)];
    put(rt, parts, Form::Lit(Lit::Eq(lin(rt, alloc, &terms, 0))));
    let mut others = Items::new(alloc);
    put(rt, &mut others, le(rt, alloc, &terms, 1));
    put(rt, &mut others, le(rt, alloc, &[(0, -1), (1, 1)], 1));
    let twice = lin(rt, alloc, &[(0, 2), (1, -2)], -7);
    put(rt, &mut others, Form::Lit(Lit::Eq(twice)));
    put(rt, parts, Form::Or(others));
}

/// 3 divides x2 - x3, and it divides x2 - x3 + 1 or x2 - x3 + 2, where x0 + x1 is then 0, or x2 - x3 + 4.
fn remainders(rt: &impl Abort, alloc: Global, parts: &mut Items<Form>) {
    put(rt, parts, by_three(rt, alloc, 0));
    let mut others = Items::new(alloc);
    put(rt, &mut others, by_three(rt, alloc, 1));
    let mut both = Items::new(alloc);
    put(rt, &mut both, by_three(rt, alloc, 2));
    let sum = lin(rt, alloc, &[(0, 1), (1, 1)], 0);
    put(rt, &mut both, Form::Lit(Lit::Eq(sum)));
    put(rt, &mut others, Form::And(both));
    put(rt, &mut others, by_three(rt, alloc, 4));
    put(rt, parts, Form::Or(others));
}

/// What contradicts, with disjunctions before it that have nothing to do with it.
fn whole(rt: &impl Abort, alloc: Global, rest: Items<Form>) -> Form {
    let mut parts = Items::new(alloc);
    for idle in 0..IDLE {
        put(rt, &mut parts, not_zero(rt, alloc, 4 + idle));
    }
    put(rt, &mut parts, Form::And(rest));
    Form::And(parts)
}

fn is_refuted(form: &Form, decision: Option<Decision>) -> bool {
    let is_refuted = match &decision {
        Some(Decision::Refuted(refuted)) => refuted.form().equals(form),
        _ => false,
    };
    mem::forget(decision);
    is_refuted
}

/// Whether going back refutes the form with a few splits, so that `decide` does so, too, and the search that
/// doesn't go back gives it up with a hundred inner nodes.
fn needs_jumps(rt: &impl Abort, alloc: Global, form: Form) -> bool {
    assert!(rt; form.is_below(VARIABLES as usize));
    assert!(rt; has_short_multiples(&form));
    let found = decide_back(alloc, &form, 1, VARIABLES, 4).expect(rt, "memory");
    assert!(rt; is_refuted(&form, found));
    let copy = form.copy(alloc).expect(rt, "memory");
    let plain = search(alloc, copy, 1, VARIABLES, 100).expect(rt, "memory");
    let decided = decide(alloc, &form, &[], VARIABLES, 100).expect(rt, "memory");
    let needs = matches!(&plain, Decision::GaveUp(_)) && matches!(&decided, Decision::Refuted(_));
    mem::forget(form);
    mem::forget(plain);
    mem::forget(decided);
    needs
}

#[test]
fn cases_that_a_contradiction_does_not_need_are_left(rt: HostRuntime) {
    let (rt, alloc) = (&rt, rt.alloc());
    let mut rest = Items::new(alloc);
    difference(rt, alloc, &mut rest);
    assert!(rt; needs_jumps(rt, alloc, whole(rt, alloc, rest)));
}

#[test]
fn quotients_are_named_where_they_stand(rt: HostRuntime) {
    let (rt, alloc) = (&rt, rt.alloc());
    let mut rest = Items::new(alloc);
    remainders(rt, alloc, &mut rest);
    assert!(rt; needs_jumps(rt, alloc, whole(rt, alloc, rest)));
}

#[test]
fn a_point_is_found_by_going_back(rt: HostRuntime) {
    let (rt, alloc) = (&rt, rt.alloc());
    let form = whole(rt, alloc, Items::new(alloc));
    let found = decide_back(alloc, &form, 0, VARIABLES + 2, 100).expect(rt, "memory");
    assert!(rt; is_model(&form, found));
    mem::forget(form);
}

/// Whether a point for sixteen variables is found, at which the form is true.
fn is_model(form: &Form, decision: Option<Decision>) -> bool {
    let is_model = match &decision {
        Some(Decision::Model(point)) => point.len() == 16 && holds(form, point.as_slice()),
        _ => false,
    };
    mem::forget(decision);
    is_model
}

#[test]
fn without_splits_nothing_is_found(rt: HostRuntime) {
    let (rt, alloc) = (&rt, rt.alloc());
    let form = whole(rt, alloc, Items::new(alloc));
    let found = decide_back(alloc, &form, 0, VARIABLES, 0).expect(rt, "memory");
    assert!(rt; found.is_none());
    mem::forget(form);
    mem::forget(found);
}
