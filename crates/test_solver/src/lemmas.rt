//! Formulas with lemmas that were worked out by hand.

use crate::made::{le, pair};
use farkas_proof::{Refuted, check};
use lia_cases::{Decision, are_below, decide, have_short_multiples};
use lia_search::has_short_multiples;
use lin_atoms::{Form, holds};
use refutation_trees::Refutation;
use std::alloc::Global;
use std::mem;
use std::process::Abort;

/// `a*x + c <= 0`.
fn bound(rt: &impl Abort, alloc: Global, a: i64, c: i128) -> Form {
    le(rt, alloc, &[(0, a)], c)
}

fn all_hold(lemmas: &[Form], point: &[i64]) -> bool {
    for lemma in lemmas {
        if !holds(lemma, point) {
            return false;
        }
    }
    true
}

/// 1 for a point at which all is true, 2 for a refutation, 3 for evidence.
fn told(decision: Decision, form: &Form, lemmas: &[Form]) -> u32 {
    let told = match &decision {
        Decision::Model(point) => {
            let fine = holds(form, point.as_slice()) && all_hold(lemmas, point.as_slice());
            if fine { 1 } else { 0 }
        }
        Decision::Refuted(_) => 2,
        Decision::GaveUp(_) => 3,
    };
    mem::forget(decision);
    told
}

fn kind(rt: &impl Abort, alloc: Global, form: &Form, lemmas: &[Form], nodes: u32) -> u32 {
    assert!(rt; nodes > 0);
    assert!(rt; form.is_below(1));
    assert!(rt; has_short_multiples(form));
    assert!(rt; are_below(lemmas, 1));
    assert!(rt; have_short_multiples(lemmas));
    let decision = decide(alloc, form, lemmas, 1, nodes).expect(rt, "memory");
    told(decision, form, lemmas)
}

/// x is from 0 to `most`.
fn bounds(rt: &impl Abort, alloc: Global, most: u16) -> Form {
    let high = -i128::from(most);
    let (low, high) = (bound(rt, alloc, -1, 0), bound(rt, alloc, 1, high));
    Form::And(pair(rt, alloc, low, high))
}

/// x isn't n.
fn other_than(rt: &impl Abort, alloc: Global, n: u16) -> Form {
    let low = bound(rt, alloc, 1, 1 - i128::from(n));
    let high = bound(rt, alloc, -1, 1 + i128::from(n));
    Form::Or(pair(rt, alloc, low, high))
}

/// x is none of the numbers from 0 to `n - 1`.
fn excluded(rt: &impl Abort, alloc: Global, n: u16) -> Vec<Form> {
    let mut lemmas = Vec::new(alloc);
    for i in 0..n {
        lemmas.push(other_than(rt, alloc, i)).expect(rt, "memory");
    }
    lemmas
}

/// x is above each of the numbers from 0 to `n - 1`.
fn risen(rt: &impl Abort, alloc: Global, n: u16) -> Vec<Form> {
    let mut lemmas = Vec::new(alloc);
    for i in 0..n {
        let above = bound(rt, alloc, -1, 1 + i128::from(i));
        lemmas.push(above).expect(rt, "memory");
    }
    lemmas
}

/// What is told of x from 0 to `most` where the first `n` numbers are excluded.
fn decided(rt: &impl Abort, alloc: Global, most: u16, n: u16, nodes: u32) -> u32 {
    let (bounds, lemmas) = (bounds(rt, alloc, most), excluded(rt, alloc, n));
    let kind = kind(rt, alloc, &bounds, lemmas.as_slice(), nodes);
    mem::forget(bounds);
    mem::forget(lemmas);
    kind
}

/// What is told of x from 0 to 300 that is above the first `n` numbers.
fn decided_above(rt: &impl Abort, alloc: Global, n: u16, nodes: u32) -> u32 {
    let (bounds, lemmas) = (bounds(rt, alloc, 300), risen(rt, alloc, n));
    let kind = kind(rt, alloc, &bounds, lemmas.as_slice(), nodes);
    mem::forget(bounds);
    mem::forget(lemmas);
    kind
}

/// The lemmas exclude numbers one by one: all but the last one, and then that one as well.
const CASES: [(u16, u16, u32, u32); 5] = [
    (20, 20, 100, 1),
    (20, 20, 5, 3),
    (20, 21, 100, 2),
    (300, 300, 1000, 1),
    (300, 301, 1000, 2),
];

#[test]
fn lemmas_are_taken_in(rt: HostRuntime) {
    for (most, n, nodes, wanted) in CASES {
        assert!(rt; decided(&rt, rt.alloc(), most, n, nodes) == wanted);
    }
}

/// Literals as lemmas, each of which the point breaks that meets those before it: no node is split.
#[test]
fn literals_are_taken_in(rt: HostRuntime) {
    for (n, wanted) in [(300, 1), (301, 2)] {
        assert!(rt; decided_above(&rt, rt.alloc(), n, 1) == wanted);
    }
}

/// x is at most -5 or at least 5, and isn't negative.
#[test]
fn a_case_is_left(rt: HostRuntime) {
    let (low, high) = (bound(&rt, rt.alloc(), 1, 5), bound(&rt, rt.alloc(), -1, 5));
    let form = Form::Or(pair(&rt, rt.alloc(), low, high));
    let lemmas = [bound(&rt, rt.alloc(), -1, 0)];
    assert!(rt; kind(&rt, rt.alloc(), &form, lemmas.as_slice(), 2000) == 1);
    mem::forget(form);
    mem::forget(lemmas);
}

/// How many nodes a tree has, and the ones before it.
#[cycle(count)]
fn count(tree: &Refutation, before: u64) -> u64 {
    let total = before.saturating_add(1);
    match tree {
        Refutation::Leaf { .. } => total,
        Refutation::Round { sub, .. } => count(sub.get(), total),
        Refutation::Split { below, above, .. } => count(above.get(), count(below.get(), total)),
        Refutation::Cases { subs, .. } => count_all(subs.as_slice(), total),
        Refutation::Quotient { sub, .. } => count(sub.get(), total),
    }
}

#[cycle(count)]
fn count_all(subs: &[Refutation], before: u64) -> u64 {
    let mut total = before;
    for sub in subs {
        total = count(sub, total);
    }
    total
}

/// How many nodes the tree of a refutation has, where a check takes it.
fn checked(alloc: Global, refuted: &Refuted) -> Option<u64> {
    let answer = check(alloc, refuted.form(), refuted.proof());
    let nodes = match &answer {
        Ok(_) => Some(count(refuted.proof(), 0)),
        Err(_) => None,
    };
    mem::forget(answer);
    nodes
}

/// The nodes of the tree that refutes x from 0 to 999 where all these numbers are excluded.
fn nodes_of_chain(rt: &impl Abort, alloc: Global) -> Option<u64> {
    let (bounds, lemmas) = (bounds(rt, alloc, 999), excluded(rt, alloc, 1000));
    assert!(rt; bounds.is_below(1));
    assert!(rt; has_short_multiples(&bounds));
    assert!(rt; are_below(lemmas.as_slice(), 1));
    assert!(rt; have_short_multiples(lemmas.as_slice()));
    let decision = decide(alloc, &bounds, lemmas.as_slice(), 1, 2000).expect(rt, "memory");
    let nodes = match &decision {
        Decision::Refuted(refuted) => checked(alloc, refuted),
        _ => None,
    };
    mem::forget(bounds);
    mem::forget(lemmas);
    mem::forget(decision);
    nodes
}

/// A node for each number, a leaf for what is below it, and one for what is above all.
#[test]
fn a_large_tree_is_checked(rt: HostRuntime) {
    assert!(rt; nodes_of_chain(&rt, rt.alloc()) == Some(2001));
}
