//! Longer runs on the clauses that count, in which the other rules are broken one after another, each
//! by a step that breaks nothing before it. No book is let go, since that costs a proof.

use crate::clauses::counting;
use crate::replays::{are_as_long, replayed};
use crate::turns::{Told, Turn, run};
use chc_core::{By, End};
use std::mem;

/// Level 1: Open, Lemma and Stall.
const LOW: [(Turn, Told); 14] = [
    (Turn::Other(5, 0, 3), Told::Rule(1, By::Step)),
    (Turn::Other(0, 1, 3), Told::Rule(2, By::Obligation(0))),
    (Turn::Raise(false, 0, 0), Told::Taken(1)),
    (Turn::Other(0, 1, 3), Told::Rule(3, By::Step)),
    (Turn::Other(0, 0, 4), Told::Rule(3, By::Step)),
    (Turn::Other(0, 0, 3), Told::Taken(2)),
    (Turn::Stall(0, 3, 3), Told::Rule(51, By::Obligation(1))),
    (Turn::Learn(1, 4, 1, 1), Told::Rule(14, By::Obligation(1))),
    (Turn::Learn(1, 3, 1, 1), Told::Taken(3)),
    (Turn::Other(1, 0, 3), Told::Rule(1, By::Entry(3))),
    (Turn::Other(0, 0, 3), Told::Rule(5, By::Lemma(0))),
    (Turn::Stall(1, 3, 3), Told::Rule(50, By::Entry(3))),
    (Turn::Stall(0, 3, 4), Told::Rule(52, By::Step)),
    (Turn::Stall(0, 4, 4), Told::Rule(53, By::Clause(2))),
];

/// Level 2: an Open below another, a Lemma over another, a Lift, reasons against a Lift.
const HIGH: [(Turn, Told); 19] = [
    (Turn::Raise(true, 0, 0), Told::Taken(4)),
    (Turn::Other(0, 0, 3), Told::Taken(5)),
    (Turn::Below(2, false), Told::Rule(9, By::Lemma(0))),
    (Turn::Below(2, true), Told::Taken(6)),
    (Turn::Below(2, true), Told::Rule(7, By::Obligation(3))),
    (Turn::Learn(2, 3, 2, 2), Told::Rule(12, By::Clause(1))),
    (Turn::Learn(2, 3, 2, 1), Told::Rule(11, By::Clause(1))),
    (Turn::Learn(3, 2, 1, 1), Told::Taken(7)),
    (Turn::Lift(0, 2, 3), Told::Rule(30, By::Lemma(0))),
    (Turn::Learn(2, 3, 2, 2), Told::Taken(8)),
    (Turn::Raise(true, 0, 0), Told::Rule(42, By::Lemma(0))),
    (Turn::Raise(true, 3, 2), Told::Rule(43, By::Lemma(1))),
    (Turn::Lift(1, 1, 2), Told::Rule(33, By::Clause(1))),
    (Turn::Lift(0, 1, 3), Told::Taken(9)),
    (Turn::Lift(0, 2, 3), Told::Rule(31, By::Level(2))),
    (Turn::Lift(1, 1, 3), Told::Rule(32, By::Clause(0))),
    (Turn::Raise(true, 2, 2), Told::Rule(42, By::Step)),
    (Turn::Unknown(2, 5), Told::Rule(44, By::Lemma(1))),
    (Turn::Raise(true, 2, 0), Told::Taken(10)),
];

#[test]
fn each_rule_is_told(rt: HostRuntime) {
    let mut book = counting(&rt, rt.alloc(), 50_000);
    run(&rt, rt.alloc(), &mut book, &LOW);
    run(&rt, rt.alloc(), &mut book, &HIGH);
    assert!(rt; book.level() == 3);
    assert!(rt; book.units() == 10);
    mem::forget(book);
}

/// Facts, up to the obligation that holds the last.
const FACTS: [(Turn, Told); 5] = [
    (Turn::Raise(false, 0, 0), Told::Taken(1)),
    (Turn::Other(0, 0, 3), Told::Taken(2)),
    (Turn::Next(Some(1), 2, 0), Told::Rule(20, By::Step)),
    (Turn::Zero(Some(7)), Told::Rule(22, By::Step)),
    (Turn::Zero(Some(0)), Told::Rule(23, By::Obligation(0))),
];

#[test]
fn facts_have_their_rules(rt: HostRuntime) {
    let mut book = counting(&rt, rt.alloc(), 50_000);
    run(&rt, rt.alloc(), &mut book, &FACTS);
    mem::forget(book);
}

/// Facts and lemmas that no obligation asks for: each rule of theirs, and each taken. The lemmas close
/// the obligation that they shut out.
const FOR_NONE: [(Turn, Told); 18] = [
    (Turn::Raise(false, 0, 0), Told::Taken(1)),
    (Turn::Other(0, 0, 3), Told::Taken(2)),
    (Turn::Further(0, 0), Told::Rule(70, By::Step)),
    (Turn::First, Told::Taken(3)),
    (Turn::First, Told::Rule(71, By::Fact(0))),
    (Turn::Zero(None), Told::Rule(21, By::Fact(0))),
    (Turn::Further(0, 0), Told::Taken(4)),
    (Turn::Strengthen(1, 3, 1, 1), Told::Rule(80, By::Step)),
    (Turn::Strengthen(0, 3, 0, 1), Told::Rule(81, By::Level(1))),
    (Turn::Strengthen(0, 3, 2, 1), Told::Rule(81, By::Level(1))),
    (Turn::Strengthen(0, 3, 1, 0), Told::Rule(82, By::Clause(0))),
    (Turn::Strengthen(0, 3, 1, 1), Told::Taken(5)),
    (Turn::Other(1, 0, 3), Told::Rule(1, By::Entry(5))),
    (Turn::Raise(true, 0, 0), Told::Taken(6)),
    (Turn::Strengthen(0, 3, 2, 1), Told::Rule(82, By::Clause(1))),
    (Turn::Strengthen(0, 3, 2, 2), Told::Rule(83, By::Clause(1))),
    (Turn::Strengthen(0, 2, 1, 1), Told::Taken(7)),
    (Turn::Strengthen(0, 3, 2, 2), Told::Taken(8)),
];

#[test]
fn steps_for_no_obligation_are_taken(rt: HostRuntime) {
    let mut book = counting(&rt, rt.alloc(), 50_000);
    run(&rt, rt.alloc(), &mut book, &FOR_NONE);
    assert!(rt; book.units() == 8);
    assert!(rt; book.facts().count() == 2);
    assert!(rt; book.frames().count() == 3);
    let again = replayed(&rt, rt.alloc(), &book);
    assert!(rt; are_as_long(&book, &again));
    mem::forget(book);
    mem::forget(again);
}

/// A root that is stalled, and then the book.
const STALLS: [(Turn, Told); 6] = [
    (Turn::Raise(false, 0, 0), Told::Taken(1)),
    (Turn::Other(0, 0, 3), Told::Taken(2)),
    (Turn::Learn(1, 3, 1, 1), Told::Taken(3)),
    (Turn::Stall(0, 3, 3), Told::Taken(4)),
    (Turn::Stall(0, 3, 3), Told::Ended(End::Stalled)),
    (Turn::Raise(true, 0, 0), Told::Ended(End::Stalled)),
];

#[test]
fn a_stalled_root_ends_the_book(rt: HostRuntime) {
    let mut book = counting(&rt, rt.alloc(), 50_000);
    run(&rt, rt.alloc(), &mut book, &STALLS);
    assert!(rt; book.units() == 3);
    assert!(rt; book.length() == 4);
    mem::forget(book);
}
