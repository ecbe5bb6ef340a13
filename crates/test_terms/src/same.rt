//! Terms of two arenas that are the same or differ. No arena is let go, since that costs a proof.

use crate::arenas::{apply, number, put};
use std::alloc::Global;
use std::mem;
use std::process::Abort;
use term_tree::{Node, OpKind, Sort, TermId, Terms, same_terms};

fn same(rt: &impl Abort, alloc: Global, a: &Terms, i: TermId, b: &Terms, j: TermId) -> bool {
    same_terms(alloc, a, i, b, j).expect(rt, "memory")
}

/// `(- 1 1)` with one shared numeral, and with two behind another term.
#[test]
fn numbering_and_sharing_do_not_matter(rt: HostRuntime) {
    let alloc = rt.alloc();
    let mut a = Terms::new(alloc);
    let one = number(&rt, &mut a, 1);
    let left = apply(&rt, alloc, &mut a, OpKind::Sub, &[one, one]);
    let mut b = Terms::new(alloc);
    put(&rt, &mut b, Node::True, 0);
    let first = number(&rt, &mut b, 1);
    let second = number(&rt, &mut b, 1);
    let right = apply(&rt, alloc, &mut b, OpKind::Sub, &[first, second]);
    assert!(rt; same(&rt, alloc, &a, left, &b, right));
    assert!(rt; !same(&rt, alloc, &a, left, &b, first));
    mem::forget(a);
    mem::forget(b);
}

#[test]
fn every_part_in_order(rt: HostRuntime) {
    let alloc = rt.alloc();
    let mut a = Terms::new(alloc);
    let (one, two) = (number(&rt, &mut a, 1), number(&rt, &mut a, 2));
    let straight = apply(&rt, alloc, &mut a, OpKind::Add, &[one, two]);
    let turned = apply(&rt, alloc, &mut a, OpKind::Add, &[two, one]);
    let longer = apply(&rt, alloc, &mut a, OpKind::Add, &[one, two, two]);
    let product = apply(&rt, alloc, &mut a, OpKind::Mul, &[one, two]);
    assert!(rt; same(&rt, alloc, &a, straight, &a, straight));
    assert!(rt; !same(&rt, alloc, &a, straight, &a, turned));
    assert!(rt; !same(&rt, alloc, &a, straight, &a, longer));
    assert!(rt; !same(&rt, alloc, &a, straight, &a, product));
    mem::forget(a);
}

/// A variable's sort and number count, and a bound name stands for its term.
#[test]
fn names_by_number_and_by_bound_term(rt: HostRuntime) {
    let alloc = rt.alloc();
    let mut a = Terms::new(alloc);
    let int = Node::Var {
        binder: 0,
        sort: Sort::Int,
    };
    let truth = Node::Var {
        binder: 0,
        sort: Sort::Bool,
    };
    let (x, y) = (put(&rt, &mut a, int, 0), put(&rt, &mut a, truth, 0));
    assert!(rt; !same(&rt, alloc, &a, x, &a, y));
    let (one, two) = (number(&rt, &mut a, 1), number(&rt, &mut a, 2));
    let again = number(&rt, &mut a, 1);
    let name = put(&rt, &mut a, Node::LetVar { bound: one }, 0);
    let other = put(&rt, &mut a, Node::LetVar { bound: again }, 0);
    let third = put(&rt, &mut a, Node::LetVar { bound: two }, 0);
    assert!(rt; same(&rt, alloc, &a, name, &a, other));
    assert!(rt; !same(&rt, alloc, &a, name, &a, third));
    assert!(rt; !same(&rt, alloc, &a, name, &a, one));
    mem::forget(a);
}

/// 200 sums, each of the one before it twice: a tree of 2^200 leaves.
#[test]
fn shared_terms_cost_nothing_twice(rt: HostRuntime) {
    let alloc = rt.alloc();
    let mut a = Terms::new(alloc);
    let mut top = number(&rt, &mut a, 1);
    let mut b = Terms::new(alloc);
    let mut other = number(&rt, &mut b, 1);
    for _ in 0..200 {
        top = apply(&rt, alloc, &mut a, OpKind::Add, &[top, top]);
        other = apply(&rt, alloc, &mut b, OpKind::Add, &[other, other]);
    }
    assert!(rt; same(&rt, alloc, &a, top, &b, other));
    let taller = apply(&rt, alloc, &mut b, OpKind::Add, &[other, other]);
    assert!(rt; !same(&rt, alloc, &a, top, &b, taller));
    mem::forget(a);
    mem::forget(b);
}
