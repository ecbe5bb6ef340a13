//! Which clauses are asked first, and what is found of several. Books and what is found aren't let go, since
//! that costs a proof.

ghost use Rattle.std.specs.Prelude.{◌<◌};
ghost use Rattle.chc_core.specs.Views.{standing_of};
ghost use Rattle.obligation_turn.specs.Turns.{IsThin};
ghost use Rattle.search_strategy.specs.Runs.{CanRun};

use crate::journals::searched;
use crate::scripts::opened;
use chc_core::Book;
use chc_tokens::Goal;
use clause_queries::{Found, ask_all};
use std::alloc::Global;
use std::mem;
use std::process::Abort;

/// A predicate p over an integer.
const P: &str = "(set-logic HORN)(declare-fun p (Int) Bool)";

/// Three bodies of p, each with an instance that gives false; the last has one atom alone.
const BODIES: &str =
    "(assert (forall ((x Int)) (=> (and (p x) (p 1) (p 2)) false)))(assert (forall ((x Int)) (=> (and (p x) (p 1)) false)))(assert (forall ((x Int)) (=> (and (p x) (< x 0)) false)))";

/// A clause without a body, and without an instance.
const NEVER: &str = "(assert (forall ((x Int)) (=> (and (< x 0) (> x 3)) false)))";

/// A clause without a body in whose guard every pivot has an entry without room.
const WIDE: &str =
    "(assert (forall ((x Int) (y Int)) (=> (and (= (+ (* 4611686018427387905 x) y) 3) (= (+ x (* 4611686018427387905 y)) 5)) false)))";

/// What is found of a query for false under the frame of level k, with the clause's number, or with
/// how many refutations there are.
#[derive(Clone, Copy, Debug, PartialEq, Eq)]
enum Told {
    Instance(u32),
    Refuted(usize),
    GivenUp(u32),
}

fn summary(found: &Found) -> Told {
    match found {
        Found::Instance(seen) => Told::Instance(seen.clause()),
        Found::Refuted(proofs) => Told::Refuted(proofs.len()),
        Found::GivenUp(lost) => Told::GivenUp(lost.clause),
    }
}

/// Asks all clauses for false.
fn asked(rt: &impl Abort, alloc: Global, book: &Book, k: u32) -> Found
    requires can_run { CanRun book.now.system }
    requires thin { IsThin (standing_of book.now) }
{
    book.replay_law();
    let lent = book.lend();
    ask_all(alloc, lent.system, lent.frames, None, &Goal::Query, k, 100).expect(rt, "memory")
}

fn check(rt: &impl Abort, alloc: Global, shows: &str, clauses: [&str; 2], k: u32, expected: Told) {
    let [first, second] = clauses;
    let text = format!(in alloc; "{P}{first}{second}(check-sat)").expect(rt, "memory");
    let book = opened(rt, alloc, text.as_str(), 1);
    let found = asked(rt, alloc, &book, k);
    let told = summary(&found);
    mem::forget(found);
    mem::forget(book);
    assert!(rt; told == expected, "{shows}");
}

#[test]
fn clauses_with_fewer_body_atoms_are_asked_first(rt: HostRuntime) {
    for (shows, clauses, k, expected) in [
        (
            "one atom before two and three",
            [BODIES, ""],
            1,
            Told::Instance(2),
        ),
        (
            "a clause without a body is refuted first",
            [BODIES, NEVER],
            1,
            Told::Instance(2),
        ),
        (
            "at level 0 bodies have no instance",
            [BODIES, ""],
            0,
            Told::Refuted(0),
        ),
        (
            "at level 0 a clause without a body is asked",
            [BODIES, NEVER],
            0,
            Told::Refuted(1),
        ),
        (
            "an instance comes before what is given up",
            [WIDE, BODIES],
            1,
            Told::Instance(3),
        ),
        ("a query is given up", [WIDE, BODIES], 0, Told::GivenUp(0)),
        (
            "the first that is given up",
            [NEVER, WIDE],
            1,
            Told::GivenUp(1),
        ),
    ] {
        check(&rt, rt.alloc(), shows, clauses, k, expected);
    }
}

/// p of 0 and of what follows a number of p; q of what p has; no number of q is below 0.
const CHAIN: &str =
    "(set-logic HORN)(declare-fun p (Int) Bool)(declare-fun q (Int) Bool)(assert (p 0))(assert (forall ((x Int)) (=> (p x) (p (+ x 1)))))(assert (forall ((x Int)) (=> (p x) (q x))))(assert (forall ((x Int)) (=> (and (q x) (< x 0)) false)))(check-sat)";

/// How many lemmas of F(k) are about q.
fn lemmas_of_q(book: &Book, k: u32) -> usize
    requires { 0 < k }
{
    if book.frames().preds() == 2 {
        book.frames().upper(1, k).len()
    } else {
        0
    }
}

/// How many lemmas are used in the proofs that false has no instance under F(k).
fn used(rt: &impl Abort, alloc: Global, book: &Book, k: u32) -> usize
    requires can_run { CanRun book.now.system }
    requires thin { IsThin (standing_of book.now) }
{
    let found = asked(rt, alloc, book, k);
    let used = match &found {
        Found::Refuted(proofs) => match proofs.as_slice() {
            [only] => only.used().len(),
            _ => panic!(rt; "one clause is asked"),
        },
        _ => panic!(rt; "false has no instance"),
    };
    mem::forget(found);
    used
}

#[test]
fn a_lemma_that_another_one_implies_is_left_out(rt: HostRuntime) {
    let book = searched(&rt, rt.alloc(), CHAIN);
    // That q has no number within one step, and that it has none below 0.
    assert!(rt; lemmas_of_q(&book, 1) == 2);
    assert!(rt; used(&rt, rt.alloc(), &book, 1) == 1);
    // The second one alone.
    assert!(rt; lemmas_of_q(&book, 2) == 1);
    assert!(rt; used(&rt, rt.alloc(), &book, 2) == 1);
    mem::forget(book);
}
