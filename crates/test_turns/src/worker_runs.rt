//! The ends of runs, whatever the number of workers.

use crate::scripts::system_of;
use chc_core::{Book, End};
use std::alloc::Global;
use std::process::Abort;
use std::sync::Wait;
use std::thread::Threads;
use worker_pool::{FreeGate, Gate, Limits, Outcome, solve};

/// A run over the clauses of the script.
pub(crate) fn solved<W: Threads + Wait + Abort + Sync, G: Gate>(
    rt: &W,
    alloc: Global,
    text: &str,
    workers: u32,
    gate: &G,
) -> Outcome {
    let system = system_of(rt, alloc, text);
    let limits = Limits {
        workers,
        units: 1_000,
        nodes: 100,
    };
    assert!(rt; 0 < workers && workers <= 64, "a number of workers");
    solve(rt, alloc, system, limits, gate).expect(rt, "memory")
}

/// The height of false in the book, 0 where it isn't recorded.
pub(crate) fn height_of_false(book: &Book) -> u32 {
    let facts = book.facts();
    match book.end() {
        Some(End::Unsat { fact }) => {
            if fact < facts.count() {
                facts.height(fact)
            } else {
                0
            }
        }
        _ => 0,
    }
}

/// Asserts that each entry of the book is counted, and that each worker has a count.
pub(crate) fn check_counts(rt: &impl Abort, outcome: &Outcome, workers: usize) {
    let mut sum: u64 = 0;
    for count in outcome.counts.as_slice() {
        sum = sum.saturating_add(*count);
    }
    assert!(rt; sum == outcome.book.length(), "the sum of the counts");
    assert!(rt;
        outcome.counts.len() == workers,
        "the counts of {workers} workers"
    );
}

/// p of 0, and of x + 1 with that of x, but not of 3.
const COUNTER: &str =
    "(set-logic HORN)(declare-fun p (Int) Bool)(assert (p 0))(assert (forall ((x Int)) (=> (p x) (p (+ x 1)))))(assert (not (p 3)))(check-sat)";

#[test]
fn false_has_its_only_height_with_any_number_of_workers(rt: HostRuntime) {
    for workers in [1, 2, 8] {
        let outcome = solved(&rt, rt.alloc(), COUNTER, workers, &FreeGate);
        assert!(&rt; height_of_false(&outcome.book) == 5, "{workers} workers");
        assert!(&rt; outcome.end.is_some(), "the end with {workers} workers");
        check_counts(&rt, &outcome, workers as usize);
    }
}
