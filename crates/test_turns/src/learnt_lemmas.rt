//! Scripts with the lemmas that are learnt of them.

ghost use Rattle.search_strategy.specs.Runs.{CanRun};

use crate::led_books::{goes_on, lead_on, stays};
use crate::scripts::opened;
use crate::shown_lemmas::shown_lemmas;
use chc_core::Book;
use std::alloc::Global;
use std::process::Abort;

/// What a case shows, its script, how many units are spent at its end, and the lemmas then.
struct Case {
    shows: &'static str,
    script: &'static str,
    units: u32,
    lemmas: &'static str,
}

const CASES: [Case; 4] = [
    Case {
        shows: "a counter that stops: its one literal stays",
        script: "(set-logic HORN)(declare-fun p (Int) Bool)(assert (p 0))(assert (forall ((x Int)) (=> (and (p x) (< x 10)) (p (+ x 1)))))(assert (forall ((x Int)) (=> (and (p x) (> x 10)) false)))(check-sat)",
        units: 7,
        lemmas: "0 at 2: le -1x0+11; 0 at 2: le -1x0+11; ",
    },
    Case {
        shows: "a literal that isn't needed is dropped",
        script: "(set-logic HORN)(declare-fun p (Int Int) Bool)(assert (p 0 0))(assert (forall ((x Int) (y Int)) (=> (p x y) (p (+ x 1) y))))(assert (forall ((x Int) (y Int)) (=> (and (p x y) (> x 5) (> y 3)) false)))(check-sat)",
        units: 7,
        lemmas: "0 at 2: le -1x1+4; 0 at 2: le -1x1+4; ",
    },
    Case {
        shows: "an equation is split, and a lemma goes up at once",
        script: "(set-logic HORN)(declare-fun p (Int) Bool)(declare-fun q (Int) Bool)(assert (p 0))(assert (forall ((x Int)) (=> (p x) (q x))))(assert (not (q 5)))(check-sat)",
        units: 13,
        lemmas: "1 at 1:; 0 at 3: le -1x0+5; 1 at 3: le -1x0+5; 1 at 3: le -1x0+5; ",
    },
    Case {
        shows: "a loop with a saturating counter",
        script: "(set-logic HORN)(declare-fun |main@entry| () Bool)(declare-fun |main@loop| (Int Int) Bool)(declare-fun |main@exit| (Int Int) Bool)(assert |main@entry|)(assert (forall ((A Int) (B Int)) (=> (and |main@entry| (= A 0) (= B 0)) (|main@loop| A B))))(assert (forall ((A Int) (B Int) (C Int) (D Int)) (let ((a!1 (and (< A 100) (= C (+ A 1)))) (a!2 (= D (ite (> B 50) B (+ B 2))))) (=> (and (|main@loop| A B) a!1 a!2) (|main@loop| C D)))))(assert (forall ((A Int) (B Int)) (=> (and (|main@loop| A B) (not (< A 100))) (|main@exit| A B))))(assert (forall ((A Int) (B Int)) (=> (and (|main@exit| A B) (not (<= B 52))) false)))(check-sat)",
        units: 19,
        lemmas: "2 at 2:; 1 at 1:; 2 at 2:; 1 at 4: le -1x1+53; 2 at 4: le -1x1+53; 2 at 4: le -1x1+53; ",
    },
];

/// The book of a script after the given number of turns.
fn led(rt: &impl Abort, alloc: Global, script: &str, turns: u32) -> Book
    ensures { CanRun result.system }
{
    let mut book = opened(rt, alloc, script, 100);
    lead_on(&mut book, turns).expect(rt, "memory");
    book
}

fn check_case(rt: &impl Abort, alloc: Global, case: &Case) {
    let book = led(rt, alloc, case.script, 100);
    let lemmas = shown_lemmas(alloc, &book).expect(rt, "memory");
    let (units, shows) = (book.units(), case.shows);
    assert!(rt; !goes_on(&book), "{shows} goes on");
    assert!(rt;
        units == case.units && lemmas.as_str() == case.lemmas,
        "{shows}: {units} units, {lemmas}"
    );
}

#[test]
fn literals_are_dropped_and_lemmas_raised(rt: HostRuntime) {
    for case in &CASES {
        check_case(&rt, rt.alloc(), case);
    }
}

#[test]
fn a_lemma_that_its_level_breaks_stays(rt: HostRuntime) {
    let script =
        "(set-logic HORN)(declare-fun p (Int) Bool)(assert (p 0))(assert (forall ((x Int)) (=> (p x) (p (+ x 1)))))(assert (not (p 3)))(check-sat)";
    let book = led(&rt, rt.alloc(), script, 4);
    let lemmas = shown_lemmas(rt.alloc(), &book).expect(&rt, "memory");
    assert!(&rt; lemmas.as_str() == "0 at 1: le -1x0+3; ", "{lemmas}");
    assert!(&rt; stays(&book, 0).expect(&rt, "memory"));
}
