//! The journal of a whole search: a letter for each step. Books aren't let go, since that costs a proof.

ghost use Rattle.chc_core.specs.Views.{standing_of};
ghost use Rattle.obligation_turn.specs.Turns.{IsThin};
ghost use Rattle.search_strategy.specs.Runs.{CanRun};

use crate::scripts::opened;
use base::Same;
use book_loop::search;
use chc_core::{Book, Step};
use lin_atoms::{Lin, Lit};
use std::alloc::Global;
use std::mem;
use std::process::Abort;

/// The letter of a step: an Open, a Lemma, a Fact, a lift (U), a Raise, a Stall, a Derive, or a lemma that
/// tightens a frame (T).
pub(crate) fn letter(step: &Step) -> &'static str {
    match step {
        Step::OpenStep(_) => "O",
        Step::LemmaStep(_) => "L",
        Step::FactStep(_) => "F",
        Step::LiftStep(_) => "U",
        Step::RaiseStep(_) => "R",
        Step::StallStep(_) => "S",
        Step::DeriveStep(_) => "D",
        Step::StrengthenStep(_) => "T",
    }
}

/// The letters of all entries.
fn letters(rt: &impl Abort, alloc: Global, book: &Book) -> String {
    let mut told = String::new(alloc);
    for before in 0..book.length() {
        let entry = book.entry(before + 1);
        told.push_str(letter(&entry.step)).expect(rt, "memory");
    }
    told
}

/// The book of a script once it has ended.
pub(crate) fn searched(rt: &impl Abort, alloc: Global, text: &str) -> Book
    ensures can_run { CanRun result.system }
    ensures thin { IsThin (standing_of result) }
{
    let mut book = opened(rt, alloc, text, 1_000);
    search(&mut book, 100).expect(rt, "memory");
    book
}

fn check(rt: &impl Abort, alloc: Global, shows: &str, text: &str, expected: &str) {
    let book = searched(rt, alloc, text);
    assert!(rt; book.end().is_some(), "the end of {shows}");
    let told = letters(rt, alloc, &book);
    mem::forget(book);
    assert!(rt; told.as_str() == expected, "{shows}");
}

/// p of 3 to 10, and of x to x + 7 for x = 3.
const EIGHT: &str =
    "(set-logic HORN)(declare-fun p (Int) Bool)(assert (forall ((x Int)) (=> (and (<= 3 x) (<= x 10)) (p x))))(assert (forall ((x Int)) (=> (and (= x 3) (p x) (p (+ x 1)) (p (+ x 2)) (p (+ x 3)) (p (+ x 4)) (p (+ x 5)) (p (+ x 6)) (p (+ x 7))) false)))(check-sat)";

/// q by a guard in which every pivot has an entry without room.
const LOST: &str =
    "(set-logic HORN)(declare-fun q () Bool)(assert (forall ((x Int) (y Int)) (=> (and (= (+ (* 4611686018427387905 x) y) 3) (= (+ x (* 4611686018427387905 y)) 5)) q)))(assert (not q))(check-sat)";

#[test]
fn each_turn_writes_an_entry(rt: HostRuntime) {
    for (shows, text, expected) in [
        ("no clause", "(set-logic HORN)(check-sat)", "RR"),
        (
            "false itself",
            "(set-logic HORN)(assert false)(check-sat)",
            "D",
        ),
        (
            "eight tuples by the runner, and false from them",
            EIGHT,
            "DDDDDDDDD",
        ),
        (
            "an obligation whose only query is given up stalls",
            LOST,
            "ROS",
        ),
    ] {
        check(&rt, rt.alloc(), shows, text, expected);
    }
}

/// p of an integer and 7, or of none, gives false.
const EITHER: &str =
    "(set-logic HORN)(declare-fun p (Int Int) Bool)(assert (forall ((x Int) (y Int)) (=> (and (p x y) (or (and (<= x 3) (<= 5 x)) (= y 7))) false)))(check-sat)";

/// x1 = 7.
fn seven(rt: &impl Abort, alloc: Global) -> Lit {
    let terms = Vec::from_slice(alloc, &[(1, 1)]).expect(rt, "memory");
    Lit::Eq(Lin::new(terms, -7).expect(rt, "a form"))
}

/// Whether the step opens an obligation whose cube is one literal.
fn opens_only(step: &Step, lit: &Lit) -> bool {
    match step {
        Step::OpenStep(part) => match part.cube.lits() {
            [only] => only.equals(lit),
            _ => false,
        },
        _ => false,
    }
}

#[test]
fn the_area_takes_the_first_true_part_of_a_disjunction(rt: HostRuntime) {
    let book = searched(&rt, rt.alloc(), EITHER);
    let lit = seven(&rt, rt.alloc());
    assert!(&rt; book.length() > 1);
    assert!(&rt; opens_only(&book.entry(2).step, &lit));
    mem::forget(lit);
    mem::forget(book);
}
