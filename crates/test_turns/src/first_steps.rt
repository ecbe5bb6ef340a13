//! The step of a book's first turn. Books and steps aren't let go, since that costs a proof.

ghost use Rattle.std.specs.Prelude.{◌≡◌, None};
ghost use Rattle.std.specs.Bool.{OnTrue};
ghost use Rattle.book_rules.specs.Legal.{end};
ghost use Rattle.chc_core.specs.Views.{standing_of, state_of};
ghost use Rattle.obligation_turn.specs.Turns.{IsThin};
ghost use Rattle.search_strategy.specs.Runs.{CanRun};
ghost use Rattle.book_loop.specs.machinery.Jobs.{IsJob};

use crate::journals::letter;
use crate::scripts::opened;
use chc_core::{Book, Step};
use obligation_tree::Tree;
use obligation_turn::turn;
use std::alloc::Global;
use std::mem;
use std::process::Abort;

/// Whether the obligation may be asked.
fn may_ask(tree: &Tree, job: u32) -> bool
    ensures { OnTrue result (IsJob tree.now.nodes job) }
{
    job < tree.count() && tree.is_live(job) && !tree.has_live_child(job) && !tree.is_stalled(job)
}

/// Asserts that the book goes on.
fn goes_on(rt: &impl Abort, book: &Book)
    ensures { end (state_of book.now) ≡ None }
{
    match book.end() {
        Some(_) => panic!(rt; "a book that has ended"),
        None => {}
    }
}

/// Asserts that the root may be asked.
fn root_may_be_asked(rt: &impl Abort, book: &Book)
    ensures { IsJob book.now.tree.nodes 0 }
{
    assert!(rt; may_ask(book.tree(), 0), "the root may be asked");
}

/// The step for the root.
fn first_step(rt: &impl Abort, book: &Book) -> Step
    requires can_run { CanRun book.now.system }
    requires thin { IsThin (standing_of book.now) }
{
    goes_on(rt, book);
    root_may_be_asked(rt, book);
    let _facts = book.facts();
    let lent = book.lend();
    turn(&lent, 0, 100).expect(rt, "memory")
}

fn check(rt: &impl Abort, alloc: Global, shows: &str, assertion: &str, expected: &str) {
    let text = format!(in alloc; "(set-logic HORN)(declare-fun q () Bool){assertion}(check-sat)");
    let text = text.expect(rt, "memory");
    let book = opened(rt, alloc, text.as_str(), 9);
    let step = first_step(rt, &book);
    let told = letter(&step);
    mem::forget(step);
    mem::forget(book);
    assert!(rt; told == expected, "{shows}");
}

#[test]
fn the_root_is_asked_first(rt: HostRuntime) {
    for (shows, assertion, expected) in [
        ("false itself", "(assert false)", "F"),
        ("a query with a body", "(assert (not q))", "R"),
        ("no query", "(assert q)", "R"),
        (
            "a query that is given up",
            "(assert (forall ((x Int) (y Int)) (=> (and (= (+ (* 4611686018427387905 x) y) 3) (= (+ x (* 4611686018427387905 y)) 5)) false)))",
            "S",
        ),
    ] {
        check(&rt, rt.alloc(), shows, assertion, expected);
    }
}
