//! For each means of going back a formula by hand that so few splits don't decide without it.

use crate::made::{le, lin, pair, put};
use base::Items;
use lia_decide::decide_back;
use lia_search::Decision;
use lin_atoms::{Form, Lin, Lit};
use std::alloc::Global;
use std::mem;
use std::process::Abort;

const VARIABLES: u32 = 12;

/// The variable times the sign, and the constant, are at most 0.
fn bound(rt: &impl Abort, alloc: Global, variable: u32, sign: i64, constant: i128) -> Form {
    le(rt, alloc, &[(variable, sign)], constant)
}

/// The difference of the variable and the next one: no bound of one variable follows from one of it.
fn difference(rt: &impl Abort, alloc: Global, variable: u32, sign: i64, constant: i128) -> Lin {
    let zero: i64 = 0;
    let other = zero.saturating_sub(sign);
    let terms = [(variable, sign), (variable.saturating_add(1), other)];
    lin(rt, alloc, &terms, constant)
}

fn at_least(rt: &impl Abort, alloc: Global, variable: u32, least: i128) -> Form {
    Form::Lit(Lit::Le(difference(rt, alloc, variable, -1, least)))
}

fn at_most(rt: &impl Abort, alloc: Global, variable: u32, most: i128) -> Form {
    let zero: i128 = 0;
    let constant = zero.saturating_sub(most);
    Form::Lit(Lit::Le(difference(rt, alloc, variable, 1, constant)))
}

fn is(rt: &impl Abort, alloc: Global, variable: u32, value: i128) -> Form {
    let zero: i128 = 0;
    let constant = zero.saturating_sub(value);
    Form::Lit(Lit::Eq(difference(rt, alloc, variable, 1, constant)))
}

fn put_or(rt: &impl Abort, alloc: Global, parts: &mut Items<Form>, first: Form, second: Form) {
    put(rt, parts, Form::Or(pair(rt, alloc, first, second)));
}

/// Variables from `first` on, so many of them, aren't 0: disjunctions that every point with zeros breaks.
fn put_others(rt: &impl Abort, alloc: Global, parts: &mut Items<Form>, first: u32, count: u32) {
    'others: for next in 0..count {
        let variable = first.saturating_add(next);
        let below = bound(rt, alloc, variable, 1, 1);
        let above = bound(rt, alloc, variable, -1, 1);
        put_or(rt, alloc, parts, below, above);
    }
}

/// x0 - x1 is 1 or 3.
fn put_ways(rt: &impl Abort, alloc: Global, parts: &mut Items<Form>) {
    put_or(rt, alloc, parts, is(rt, alloc, 0, 1), is(rt, alloc, 0, 3));
}

/// What four splits for each of the nodes tell of the conjunction.
fn told(rt: &impl Abort, alloc: Global, parts: Items<Form>, nodes: u32) -> Option<Decision> {
    let form = Form::And(parts);
    let found = decide_back(alloc, &form, 100, VARIABLES, nodes).expect(rt, "memory");
    mem::forget(form);
    found
}

/// Whether four splits for each of the nodes refute the conjunction.
fn are_refuted(rt: &impl Abort, alloc: Global, parts: Items<Form>, nodes: u32) -> bool {
    let found = told(rt, alloc, parts, nodes);
    let are_refuted = matches!(&found, Some(Decision::Refuted(_)));
    mem::forget(found);
    are_refuted
}

/// Five disjunctions lead from x2 - x3 > 0 to x2 - x3 <= 0, one after the other, whatever x0 - x1 is. With the
/// tree of the first way the second one takes one split more, and not six.
#[test]
fn a_tree_that_was_kept_closes_the_second_way(rt: HostRuntime) {
    let (rt, alloc) = (&rt, rt.alloc());
    let mut parts = Items::new(alloc);
    put_ways(rt, alloc, &mut parts);
    put_or(
        rt,
        alloc,
        &mut parts,
        at_least(rt, alloc, 2, 1),
        at_least(rt, alloc, 0, 5),
    );
    for variable in [2, 4, 6, 8] {
        let next = at_least(rt, alloc, variable + 2, 1);
        put_or(rt, alloc, &mut parts, at_most(rt, alloc, variable, 0), next);
    }
    put_or(
        rt,
        alloc,
        &mut parts,
        at_most(rt, alloc, 10, 0),
        at_most(rt, alloc, 2, 0),
    );
    assert!(rt; are_refuted(rt, alloc, parts, 3));
}

/// x0 is from 0 to 3, and negative or above 3. Ten disjunctions before it are left.
#[test]
fn a_disjunction_that_ranges_close_comes_first(rt: HostRuntime) {
    let (rt, alloc) = (&rt, rt.alloc());
    let mut parts = Items::new(alloc);
    put(rt, &mut parts, bound(rt, alloc, 0, 1, -3));
    put(rt, &mut parts, bound(rt, alloc, 0, -1, 0));
    put_others(rt, alloc, &mut parts, 1, 10);
    let below = bound(rt, alloc, 0, 1, 1);
    let above = bound(rt, alloc, 0, -1, 4);
    put_or(rt, alloc, &mut parts, below, above);
    assert!(rt; are_refuted(rt, alloc, parts, 1));
}

/// The last of seven disjunctions contradicts both ways of the first. Since it was used for one, it comes first in
/// the other.
#[test]
fn a_disjunction_that_was_used_comes_first(rt: HostRuntime) {
    let (rt, alloc) = (&rt, rt.alloc());
    let mut parts = Items::new(alloc);
    put_ways(rt, alloc, &mut parts);
    put_others(rt, alloc, &mut parts, 2, 5);
    put_or(
        rt,
        alloc,
        &mut parts,
        at_least(rt, alloc, 0, 5),
        at_most(rt, alloc, 0, -5),
    );
    assert!(rt; are_refuted(rt, alloc, parts, 3));
}

/// x0 is at least 100, and ten others aren't 0, or it is at least 1.
#[test]
fn the_nearest_part_comes_first(rt: HostRuntime) {
    let (rt, alloc) = (&rt, rt.alloc());
    let mut far = Items::new(alloc);
    put(rt, &mut far, bound(rt, alloc, 0, -1, 100));
    put_others(rt, alloc, &mut far, 1, 10);
    let mut parts = Items::new(alloc);
    let near = bound(rt, alloc, 0, -1, 1);
    put_or(rt, alloc, &mut parts, Form::And(far), near);
    let found = told(rt, alloc, parts, 1);
    assert!(rt; matches!(&found, Some(Decision::Model(_))));
    mem::forget(found);
}
