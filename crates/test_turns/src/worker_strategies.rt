//! Runs of workers with their strategies.

use crate::worker_runs::{check_counts, height_of_false, solved};
use chc_core::End;
use search_strategy::strategy_of;
use worker_pool::FreeGate;

/// p counts from 0, and would have to stay below 24.
const LONG: &str =
    "(set-logic HORN)(declare-fun p (Int) Bool)(assert (p 0))(assert (forall ((x Int)) (=> (p x) (p (+ x 1)))))(assert (not (p 24)))(check-sat)";

/// Two counters that move together, from different numbers; the second one never passes the first one.
const TOGETHER: &str =
    "(set-logic HORN)(declare-fun p (Int Int) Bool)(assert (p 7 3))(assert (forall ((x Int) (y Int)) (=> (p x y) (p (+ x 2) (+ y 2)))))(assert (forall ((x Int) (y Int)) (=> (and (p x y) (< 40 y) (< x y)) false)))(check-sat)";

#[test]
fn workers_of_other_strategies_come_to_the_same_end(rt: HostRuntime) {
    for workers in [1, 2, 4] {
        let outcome = solved(&rt, rt.alloc(), LONG, workers, &FreeGate);
        assert!(&rt; height_of_false(&outcome.book) == 26, "{workers} workers");
        check_counts(&rt, &outcome, workers as usize);
        let outcome = solved(&rt, rt.alloc(), TOGETHER, workers, &FreeGate);
        assert!(&rt;
            matches!(&outcome.end, Some(End::Sat { .. })),
            "{workers} workers"
        );
        check_counts(&rt, &outcome, workers as usize);
    }
}

#[test]
fn as_many_workers_as_there_may_be_share_a_book(rt: HostRuntime) {
    let outcome = solved(&rt, rt.alloc(), TOGETHER, 64, &FreeGate);
    assert!(&rt; matches!(&outcome.end, Some(End::Sat { .. })), "a sat end");
    check_counts(&rt, &outcome, 64);
}

#[test]
fn the_first_worker_uses_what_serves_alone(rt: HostRuntime) {
    let first = strategy_of(1);
    assert!(&rt; first.reversed && !first.cores_first, "the first worker");
}

#[test]
fn the_others_differ_from_it_by_their_numbers(rt: HostRuntime) {
    for (worker, cores_first, reversed) in [(2, false, false), (3, true, true), (4, false, false)] {
        let strategy = strategy_of(worker);
        assert!(&rt;
            strategy.cores_first == cores_first,
            "cores of worker {worker}"
        );
        assert!(&rt;
            strategy.reversed == reversed,
            "the order of worker {worker}"
        );
    }
}
