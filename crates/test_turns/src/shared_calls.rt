//! What the calls of a shared book answer.

ghost use Rattle.std.specs.Prelude.{◌≡◌, ◌<◌, ◌≤◌, [], length};
ghost use Rattle.chc_core.specs.Openings.{most_units};
ghost use Rattle.chc_core.specs.Views.{standing_of};
ghost use Rattle.clause_queries.specs.Answers.{AreFew};
ghost use Rattle.obligation_tree.specs.Claims.{most_workers};
ghost use Rattle.obligation_turn.specs.Turns.{IsThin};

use crate::scripts::opened;
use crate::shared_moves::{Made, Move, Told, is_written, moved};
use chc_core::Book;
use shared_book::{Run, Share, SharedBook};
use std::alloc::Global;
use std::marker::Brand;
use std::process::Abort;
use std::sync::Wait;
use std::sync::ledger::Blank;

/// A worker's place among the shares, what it does, and what is told.
type Row = (usize, Move, Told);

/// Makes the moves, one after another.
fn move_all<R: Run, W: Wait + Abort>(
    rt: &W,
    alloc: Global,
    shared: &SharedBook<R>,
    shares: &mut [Share<R>],
    rows: &[Row],
) -> Vec<Made>
    requires { R.nodes ≡ 100 }
    ensures { length shares.new ≡ length shares.old }
{
    let mut held = None;
    let mut made = Vec::new(alloc);
    for (at, what, expected) in rows {
        let share = shares.get_mut(*at).expect(rt, "a worker");
        let told = moved(rt, shared, share, *what, &mut held, &mut made);
        assert!(rt; told == *expected, "what is told");
    }
    made
}

/// Asserts that each worker has written so many entries.
fn have_counts<R: Run>(rt: &impl Abort, shares: &[Share<R>], expected: &[u64]) {
    assert!(rt; shares.len() == expected.len(), "a count for each worker");
    for at in 0..shares.len() {
        assert!(rt; shares[at].count() == expected[at], "a worker's entries");
    }
}

/// A run of the given number of workers.
fn run<R: Run, W: Wait + Abort>(
    rt: &W,
    alloc: Global,
    blank: Blank,
    book: Book,
    workers: u32,
    rows: &[Row],
    expected: &[u64],
)
    requires name { blank.name ≡ R.name }
    requires parts { blank.parts ≡ R.parts }
    requires each { R.parts ≡ R.workers }
    requires workers { workers ≡ R.workers }
    requires some { 0 < workers }
    requires most { workers ≤ most_workers }
    requires nodes { R.nodes ≡ 100 }
    requires system { book.system ≡ R.system }
    requires given { book.given ≡ R.units }
    requires new { book.journal ≡ [] }
    requires few { AreFew book.system }
    requires thin { IsThin (standing_of book) }
{
    let (shared, mut shares) = SharedBook::<R>::new(alloc, blank, book, workers).expect(
        rt, "memory",
    );
    let made = move_all(rt, alloc, &shared, shares.as_mut_slice(), rows);
    have_counts(rt, shares.as_slice(), expected);
    assert!(rt; shares.len() == workers as usize, "a share of each worker");
    let book = shared.into_book(shares);
    is_written(rt, &book, made.as_slice());
}

/// p of 0, and p of 1 gives false.
const COUNTED: &str =
    "(set-logic HORN)(declare-fun p (Int) Bool)(assert (p 0))(assert (not (p 1)))(check-sat)";

/// p of 0, and false by itself.
const CONTRADICTS: &str =
    "(set-logic HORN)(declare-fun p (Int) Bool)(assert (p 0))(assert (forall ((x Int)) (=> (= x 1) false)))(check-sat)";

/// A run over the book of a script with so many units, under a name of its own.
fn check<W: Wait + Abort>(
    rt: &W,
    alloc: Global,
    script: &str,
    units: u32,
    workers: u32,
    rows: &[Row],
    expected: &[u64],
)
    requires some { 0 < workers }
    requires most { workers ≤ most_workers }
    requires units { units ≤ most_units }
{
    let book = opened(rt, alloc, script, units);
    let blank = Blank::new(u64::from(workers));
    run::<Brand, W>(rt, alloc, blank, book, workers, rows, expected)
}

#[test]
fn each_commit_answers_its_entrys_number(rt: HostRuntime) {
    let rows = [
        (0, Move::Take, Told::Job(0)),
        (0, Move::Commit, Told::Number(1)),
        (0, Move::Take, Told::Job(0)),
        (0, Move::Commit, Told::Number(2)),
        (0, Move::Take, Told::Job(1)),
        (0, Move::Commit, Told::Number(3)),
    ];
    check(&rt, rt.alloc(), COUNTED, 100, 1, &rows, &[3]);
}

#[test]
fn an_ended_book_gives_no_job(rt: HostRuntime) {
    let rows = [
        (0, Move::Take, Told::Job(0)),
        (0, Move::Commit, Told::Number(1)),
        (1, Move::Take, Told::Unsat),
        (0, Move::Take, Told::Unsat),
    ];
    check(&rt, rt.alloc(), CONTRADICTS, 100, 2, &rows, &[1, 0]);
}

#[test]
fn a_book_without_units_gives_no_job(rt: HostRuntime) {
    let rows = [(0, Move::Note, Told::Nothing), (1, Move::Take, Told::Spent)];
    check(&rt, rt.alloc(), CONTRADICTS, 0, 2, &rows, &[0, 0]);
}

#[test]
fn a_note_ends_the_run_and_not_the_job(rt: HostRuntime) {
    let rows = [
        (0, Move::Take, Told::Job(0)),
        (0, Move::Commit, Told::Number(1)),
        (1, Move::Take, Told::Job(0)),
        (0, Move::Note, Told::Nothing),
        (1, Move::Commit, Told::Number(2)),
        (1, Move::Take, Told::Memory),
        (0, Move::Take, Told::Memory),
    ];
    check(&rt, rt.alloc(), COUNTED, 100, 2, &rows, &[1, 1]);
}

#[test]
fn a_note_does_not_hide_an_end(rt: HostRuntime) {
    let rows = [
        (0, Move::Take, Told::Job(0)),
        (1, Move::Note, Told::Nothing),
        (0, Move::Commit, Told::Number(1)),
        (0, Move::Take, Told::Unsat),
        (1, Move::Take, Told::Unsat),
    ];
    check(&rt, rt.alloc(), CONTRADICTS, 100, 2, &rows, &[1, 0]);
}
