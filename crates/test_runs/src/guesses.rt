//! Searches that end within so many units by one kind of guess, and don't without it.

use crate::cases::four;
use crate::runs::{SMALL, check_start, run};

/// What a case shows, the units, the script, and the first line of its answer.
const CASES: &str = "\
    a counter of laps of ten steps, whose counterexample has 16: clauses are run forward§\
        100§\
        (set-logic HORN)(declare-fun p (Int Int) Bool)(assert (p 0 0))(assert (forall ((x Int) (l Int)) (=> (and (p x l) (< x 9)) (p (+ x 1) l))))(assert (forall ((x Int) (l Int)) (=> (and (p x l) (>= x 9)) (p 0 (+ l 1)))))(assert (forall ((x Int) (l Int)) (=> (and (p x l) (>= x 5) (= l 1)) false)))(check-sat)§\
        unsat\n¶\
    a loop in a loop that a place limits: clauses are run forward from a great limit§\
        50§\
        (set-logic HORN)(declare-fun p (Int Int Int Int) Bool)(assert (forall ((n Int)) (=> (<= 0 n) (p 0 0 0 n))))(assert (forall ((a Int) (b Int) (s Int) (n Int)) (=> (and (p a b s n) (< a n) (< b 3)) (p a (+ b 1) (+ s 1) n))))(assert (forall ((a Int) (b Int) (s Int) (n Int)) (=> (and (p a b s n) (>= b 3)) (p (+ a 1) 0 s n))))(assert (forall ((a Int) (b Int) (s Int) (n Int)) (=> (and (p a b s n) (>= a n) (distinct s (* 3 n))) false)))(check-sat)§\
        sat\n¶\
    a loop in a loop whose counter keeps up with the outer one: a bound beside literals of a cube§\
        60§\
        (set-logic HORN)(declare-fun p (Int Int Int) Bool)(declare-fun q (Int Int Int Int) Bool)(assert (forall ((n Int)) (=> (<= 0 n) (p 0 n 0))))(assert (forall ((i Int) (n Int) (c Int)) (=> (and (p i n c) (< i n)) (q i i n c))))(assert (forall ((i Int) (j Int) (n Int) (c Int)) (=> (and (q i j n c) (< j n)) (q i (+ j 1) n (+ c 1)))))(assert (forall ((i Int) (j Int) (n Int) (c Int)) (=> (and (q i j n c) (>= j n)) (p (+ i 1) n c))))(assert (forall ((i Int) (n Int) (c Int)) (=> (and (p i n c) (>= i n) (< c n)) false)))(check-sat)§\
        sat\n¶\
    a chain of three loops of 40 turns each: needed bounds enter at once§\
        60§\
        (set-logic HORN)(declare-fun p (Int) Bool)(declare-fun q (Int Int) Bool)(declare-fun r (Int Int Int) Bool)(assert (p 0))(assert (forall ((x0 Int)) (=> (and (p x0) (< x0 40)) (p (+ x0 1)))))(assert (forall ((x0 Int)) (=> (and (p x0) (>= x0 40)) (q x0 0))))(assert (forall ((x0 Int) (x1 Int)) (=> (and (q x0 x1) (< x1 40)) (q x0 (+ x1 1)))))(assert (forall ((x0 Int) (x1 Int)) (=> (and (q x0 x1) (>= x1 40)) (r x0 x1 0))))(assert (forall ((x0 Int) (x1 Int) (x2 Int)) (=> (and (r x0 x1 x2) (< x2 40)) (r x0 x1 (+ x2 1)))))(assert (forall ((x0 Int) (x1 Int) (x2 Int)) (=> (and (r x0 x1 x2) (> (+ x0 x1 x2) 120)) false)))(check-sat)§\
        sat\n";

#[test]
fn guesses_end_searches_in_few_units(rt: HostRuntime) {
    let mut tried: usize = 0;
    for case in CASES.split('¶') {
        if let Some((shows, units, script, begins)) = four(case) {
            let words = ["solve", "--units", units];
            let ran = run(&rt, rt.alloc(), &words, script.as_bytes(), &SMALL);
            check_start(&rt, shows, &ran, 0, begins.as_bytes());
            tried = tried.saturating_add(1);
        }
    }
    assert!(rt; tried == 4);
}
