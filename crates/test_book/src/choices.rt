//! Runs on two clauses with choices: `p(0)` and `p(7)`; and `p(0)` up to `p(5)` each give false. No book
//! is let go, since that costs a proof.

use crate::clauses::choices;
use crate::turns::{Told, Turn, run};
use chc_core::{By, End};
use derivations::Facts;
use std::alloc::Global;
use std::mem;
use std::process::Abort;

const CHILDREN: [(Turn, Told); 9] = [
    (Turn::Raise(false, 0, 0), Told::Taken(1)),
    (Turn::Open(1, 1), Told::Taken(2)),
    (Turn::Open(1, 2), Told::Taken(3)),
    (Turn::Choice(1, 1), Told::Taken(4)),
    (Turn::Choice(1, 1), Told::Rule(54, By::Obligation(1))),
    (Turn::Open(1, 3), Told::Taken(5)),
    (Turn::Open(1, 3), Told::Rule(7, By::Obligation(3))),
    (Turn::Open(1, 4), Told::Taken(6)),
    (Turn::Open(1, 5), Told::Rule(8, By::Obligation(1))),
];

#[test]
fn four_children_are_enough(rt: HostRuntime) {
    let mut book = choices(&rt, rt.alloc());
    run(&rt, rt.alloc(), &mut book, &CHILDREN);
    assert!(rt; book.tree().live_leaves() == [1, 2, 3, 4].as_slice());
    mem::forget(book);
}

const FACTS: [(Turn, Told); 8] = [
    (Turn::Raise(false, 0, 0), Told::Taken(1)),
    (Turn::False(0), Told::Rule(20, By::Step)),
    (Turn::Open(1, 0), Told::Taken(2)),
    (Turn::Zero(Some(1)), Told::Taken(3)),
    (Turn::Zero(Some(1)), Told::Rule(21, By::Fact(0))),
    (Turn::Open(1, 0), Told::Rule(6, By::Fact(0))),
    (Turn::False(0), Told::Taken(4)),
    (
        Turn::Raise(false, 0, 0),
        Told::Ended(End::Unsat { fact: 1 }),
    ),
];

/// Whether fact 1 rests on fact 0 and itself.
fn rests(rt: &impl Abort, facts: &Facts) -> bool {
    if facts.count() < 2 {
        return false;
    }
    let steps = facts.steps_to(1).expect(rt, "memory");
    steps.as_slice() == [0, 1].as_slice() && facts.height(1) == 2
}

#[test]
fn false_rests_on_its_facts(rt: HostRuntime) {
    let mut book = choices(&rt, rt.alloc());
    run(&rt, rt.alloc(), &mut book, &FACTS);
    assert!(rt; rests(&rt, book.facts()));
    assert!(rt; book.tree().live_leaves().is_empty());
    mem::forget(book);
}
