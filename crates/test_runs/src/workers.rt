//! Several workers over one script: what is printed, and what their counts sum to.

use crate::runs::{SMALL, check_counts, check_ran, check_start, run};

/// p of 0, and of x + 1 with that of x, but not of 3: false has one derivation.
const COUNTER: &[u8] =
    b"(set-logic HORN)(declare-fun p (Int) Bool)(assert (p 0))(assert (forall ((x Int)) (=> (p x) (p (+ x 1)))))(assert (not (p 3)))(check-sat)";

const DERIVED: &[u8] =
    b"unsat\n(derivation\n(step 1 1 () () (p 0))\n(step 2 2 (0) (1) (p 1))\n(step 3 2 (1) (2) (p 2))\n(step 4 2 (2) (3) (p 3))\n(step 5 3 () (4) false)\n)\n";

/// A loop with a saturating counter.
const SATURATING: &[u8] =
    b"(set-logic HORN)(declare-fun |main@entry| () Bool)(declare-fun |main@loop| (Int Int) Bool)(declare-fun |main@exit| (Int Int) Bool)(assert |main@entry|)(assert (forall ((A Int) (B Int)) (=> (and |main@entry| (= A 0) (= B 0)) (|main@loop| A B))))(assert (forall ((A Int) (B Int) (C Int) (D Int)) (let ((a!1 (and (< A 100) (= C (+ A 1)))) (a!2 (= D (ite (> B 50) B (+ B 2))))) (=> (and (|main@loop| A B) a!1 a!2) (|main@loop| C D)))))(assert (forall ((A Int) (B Int)) (=> (and (|main@loop| A B) (not (< A 100))) (|main@exit| A B))))(assert (forall ((A Int) (B Int)) (=> (and (|main@exit| A B) (not (<= B 52))) false)))(check-sat)";

#[test]
fn an_only_derivation_is_printed_with_any_number_of_workers(rt: HostRuntime) {
    for (word, workers) in [("1", 1), ("2", 2), ("8", 8)] {
        let words = ["solve", "--workers", word];
        let ran = run(&rt, rt.alloc(), &words, COUNTER, &SMALL);
        check_ran(&rt, word, &ran, 0, DERIVED);
        check_counts(&rt, &ran, workers);
    }
}

#[test]
fn four_workers_find_definitions(rt: HostRuntime) {
    let words = ["solve", "--workers", "4"];
    let ran = run(&rt, rt.alloc(), &words, SATURATING, &SMALL);
    let start = b"sat\n(\n(define-fun main@entry () Bool true)\n";
    check_start(&rt, "four workers", &ran, 0, start);
    check_counts(&rt, &ran, 4);
}

#[test]
fn sixty_four_workers_share_a_book_of_two_entries(rt: HostRuntime) {
    let words = ["solve", "--workers", "64"];
    let script = b"(set-logic HORN)(check-sat)";
    let ran = run(&rt, rt.alloc(), &words, script, &SMALL);
    check_ran(&rt, "no clause at all", &ran, 0, b"sat\n(\n)\n");
    check_counts(&rt, &ran, 64);
}
