//! A run by hand on three clauses: `p(0)`; where `x1 = x0 + 1`, `p(x0)` gives `p(x1)`; and `p(3)` gives
//! false. One book alone is let go, since that costs a proof.

use crate::clauses::{contradiction, counting};
use crate::frames::lends;
use crate::turns::{Told, Turn, run};
use chc_core::{Book, By, End, Snapshot};
use std::alloc::Global;
use std::mem;
use std::process::Abort;

/// The run up to the Open, and what follows it.
const FIRST: [(Turn, Told); 6] = [
    (Turn::Open(2, 3), Told::Rule(2, By::Obligation(0))),
    (Turn::Zero(None), Told::Rule(22, By::Step)),
    (Turn::Raise(false, 0, 0), Told::Taken(1)),
    (Turn::Raise(false, 0, 0), Told::Rule(40, By::Clause(2))),
    (Turn::Learn(1, 3, 2, 0), Told::Rule(10, By::Level(1))),
    (Turn::Open(2, 3), Told::Taken(2)),
];

fn hand_in_first(rt: &impl Abort, alloc: Global, book: &mut Book) {
    run(rt, alloc, book, &FIRST);
}

const SECOND: [(Turn, Told); 5] = [
    (Turn::Open(2, 3), Told::Rule(7, By::Obligation(1))),
    (Turn::Zero(Some(1)), Told::Rule(23, By::Obligation(1))),
    (Turn::Lift(0, 1, 3), Told::Rule(30, By::Step)),
    (Turn::Learn(1, 3, 1, 0), Told::Rule(11, By::Clause(0))),
    (Turn::Learn(1, 3, 1, 1), Told::Taken(3)),
];

fn hand_in_second(rt: &impl Abort, alloc: Global, book: &mut Book) {
    run(rt, alloc, book, &SECOND);
}

const THIRD: [(Turn, Told); 3] = [
    (Turn::Learn(1, 3, 1, 1), Told::Rule(13, By::Entry(3))),
    (Turn::Raise(true, 0, 0), Told::Taken(4)),
    (Turn::Raise(true, 0, 0), Told::Rule(41, By::Clause(2))),
];

fn hand_in_third(rt: &impl Abort, alloc: Global, book: &mut Book) {
    run(rt, alloc, book, &THIRD);
}

/// Whether these are the leaves, and the lemmas of p of level 1 and of level 2 or more.
fn stands(book: &Book, leaves: &[u32], first: &[u32], second: &[u32]) -> bool {
    book.tree().live_leaves() == leaves
        && lends(book.frames(), 0, 1, first)
        && lends(book.frames(), 0, 2, second)
}

#[test]
fn each_step_has_its_answer(rt: HostRuntime) {
    let mut book = counting(&rt, rt.alloc(), 50_000);
    hand_in_first(&rt, rt.alloc(), &mut book);
    assert!(rt; stands(&book, &[1], &[], &[]));
    hand_in_second(&rt, rt.alloc(), &mut book);
    assert!(rt; stands(&book, &[0], &[0], &[]));
    hand_in_third(&rt, rt.alloc(), &mut book);
    assert!(rt; book.level() == 2);
    assert!(rt; book.units() == 4);
    assert!(rt; book.length() == 4);
    assert!(rt; book.end().is_none());
    mem::forget(book);
}

/// Whether the snapshot is of the book after the Open.
fn is_old(old: &Snapshot) -> bool {
    let is_live = old.tree().count() > 1 && old.tree().is_live(1);
    old.length() == 2 && old.level() == 1 && is_live && old.frames().count() == 0
}

#[test]
fn a_snapshot_stays_as_it_was(rt: HostRuntime) {
    let mut book = counting(&rt, rt.alloc(), 50_000);
    hand_in_first(&rt, rt.alloc(), &mut book);
    let old = book.snapshot().expect(&rt, "memory");
    hand_in_second(&rt, rt.alloc(), &mut book);
    hand_in_third(&rt, rt.alloc(), &mut book);
    assert!(rt; is_old(&old));
    assert!(rt; book.frames().count() == 1);
    mem::forget(old);
    mem::forget(book);
}

const ONE_UNIT: [(Turn, Told); 2] = [
    (Turn::Raise(false, 0, 0), Told::Taken(1)),
    (Turn::Raise(false, 0, 0), Told::Spent(1)),
];

#[test]
fn units_are_spent(rt: HostRuntime) {
    let mut book = counting(&rt, rt.alloc(), 1);
    run(&rt, rt.alloc(), &mut book, &ONE_UNIT);
}

const FALSE: [(Turn, Told); 2] = [
    (Turn::Nothing, Told::Taken(1)),
    (Turn::Nothing, Told::Ended(End::Unsat { fact: 0 })),
];

#[test]
fn false_ends_the_book(rt: HostRuntime) {
    let mut book = contradiction(&rt, rt.alloc());
    run(&rt, rt.alloc(), &mut book, &FALSE);
    mem::forget(book);
}
