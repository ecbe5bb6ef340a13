//! Two workers run at once: each waits for the other.

use crate::worker_runs::{check_counts, solved};
use chc_core::End;
use std::sync::atomic::{AtomicBool, AtomicU64, Ordering};
use std::thread;
use worker_pool::Gate;

/// How often a worker looks whether the other one has come.
const MOST_LOOKS: u32 = 10_000_000;

/// So many turns the workers begin together.
const TOGETHER: u64 = 2;

/// Holds each of two workers before its first turns until the other has come to the same turn. So both
/// have had a job before either has its second one, and the second job of the one that comes late is
/// worked on while nobody else writes.
#[derive(Drop)]
struct Turnstile {
    first: AtomicU64,
    second: AtomicU64,
    held: AtomicU64,
    given_up: AtomicBool,
}

/// Whether the other worker comes to that turn before this one has looked too often.
fn comes(other: &AtomicU64, turn: u64) -> bool {
    for _ in 0..MOST_LOOKS {
        if other.load(Ordering::SeqCst) >= turn {
            return true;
        }
        thread::yield_now();
    }
    false
}

impl Turnstile {
    /// The worker has come to that turn, and waits for the other one.
    fn wait(&self, own: &AtomicU64, other: &AtomicU64, turn: u64) {
        own.store(turn, Ordering::SeqCst);
        if comes(other, turn) {
            let _before = self.held.fetch_add(1, Ordering::SeqCst);
        } else {
            self.given_up.store(true, Ordering::SeqCst);
        }
    }
}

impl Gate for Turnstile {
    fn pass(&self, worker: u32, turn: u64) {
        if turn > TOGETHER {
            return;
        }
        match worker {
            1 => self.wait(&self.first, &self.second, turn),
            2 => self.wait(&self.second, &self.first, turn),
            _ => self.given_up.store(true, Ordering::SeqCst),
        }
    }
}

/// A loop with a saturating counter.
const SATURATING: &str =
    "(set-logic HORN)(declare-fun |main@entry| () Bool)(declare-fun |main@loop| (Int Int) Bool)(declare-fun |main@exit| (Int Int) Bool)(assert |main@entry|)(assert (forall ((A Int) (B Int)) (=> (and |main@entry| (= A 0) (= B 0)) (|main@loop| A B))))(assert (forall ((A Int) (B Int) (C Int) (D Int)) (let ((a!1 (and (< A 100) (= C (+ A 1)))) (a!2 (= D (ite (> B 50) B (+ B 2))))) (=> (and (|main@loop| A B) a!1 a!2) (|main@loop| C D)))))(assert (forall ((A Int) (B Int)) (=> (and (|main@loop| A B) (not (< A 100))) (|main@exit| A B))))(assert (forall ((A Int) (B Int)) (=> (and (|main@exit| A B) (not (<= B 52))) false)))(check-sat)";

#[test]
fn two_workers_hold_each_other_and_both_write(rt: HostRuntime) {
    let gate = Turnstile {
        first: AtomicU64::new(0),
        second: AtomicU64::new(0),
        held: AtomicU64::new(0),
        given_up: AtomicBool::new(false),
    };
    let outcome = solved(&rt, rt.alloc(), SATURATING, 2, &gate);
    assert!(&rt;
        !gate.given_up.load(Ordering::SeqCst),
        "each worker waits for the other, and it comes"
    );
    assert!(&rt;
        gate.held.load(Ordering::SeqCst) == 2 * TOGETHER,
        "both are held before their first turns"
    );
    assert!(&rt; matches!(&outcome.end, Some(End::Sat { .. })), "a sat end");
    check_counts(&rt, &outcome, 2);
    for count in outcome.counts.as_slice() {
        assert!(&rt; *count > 0, "entries of each worker");
    }
}
