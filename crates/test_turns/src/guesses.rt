//! What is guessed of the tuples of a predicate before a search.

use crate::scripts::opened;
use crate::shown_lemmas::shown_cubes;
use guess_all::{Hints, hints_of};
use std::alloc::Global;
use std::process::Abort;

/// Two counters on the line `2 * x0 + 1 = x1`, of which the first is even.
const SCRIPT: &str =
    "(set-logic HORN)(declare-fun p (Int Int) Bool)(assert (p 0 1))(assert (forall ((x Int) (y Int)) (=> (p x y) (p (+ x 2) (+ y 4)))))(assert (forall ((x Int) (y Int)) (=> (and (p x y) (= y 4)) false)))(check-sat)";

/// What is guessed of the script.
fn guessed(rt: &impl Abort, alloc: Global) -> Hints {
    let book = opened(rt, alloc, SCRIPT, 1);
    hints_of(alloc, book.lend().system).expect(rt, "memory")
}

fn check_cubes(rt: &impl Abort, alloc: Global, hints: &Hints, point: &[i64], expected: &str) {
    let cubes = hints.cubes(alloc, 0, point, true).expect(rt, "memory");
    let shown = shown_cubes(alloc, cubes.as_slice()).expect(rt, "memory");
    assert!(rt; shown.as_str() == expected, "{shown}");
}

#[test]
fn points_off_the_line_and_between_its_tuples_are_shut_out(rt: HostRuntime) {
    let alloc = rt.alloc();
    let hints = guessed(&rt, alloc);
    check_cubes(&rt, alloc, &hints, &[4, 9], "");
    check_cubes(
        &rt,
        alloc,
        &hints,
        &[3, 7],
        " ndiv 2 +1x0+0; ndiv 6 +1x0+1x1+5; ndiv 2 +1x0+1x1+1; ndiv 4 +1x1+3;",
    );
    check_cubes(
        &rt,
        alloc,
        &hints,
        &[2, 6],
        " le +2x0-1x1+2; ndiv 6 +1x0+1x1+5; ndiv 2 +1x0+1x1+1; ndiv 4 +1x1+3;",
    );
}
