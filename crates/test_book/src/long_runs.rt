//! Long runs, the books to which their journals lead once more, and versions of them. A benchmark runs these
//! tests one by one. No book is let go, since that costs a proof; versions and copies are.

ghost use Rattle.std.specs.Prelude.{◌≤◌, length};

use crate::copies::copied;
use crate::counted::long_run;
use crate::replays::{are_as_long, is_same_fact, is_same_obligation, replayed};
use chc_core::{Book, has_places};
use std::alloc::Global;
use std::mem;
use std::process::Abort;

/// Whether the book has so many entries, and has come to that level.
fn is_long(book: &Book, units: u32, level: u32) -> bool {
    book.length() == u64::from(units) && book.units() == units && book.level() == level
}

fn is_again(book: &Book, again: &Book) -> bool {
    let count = book.facts().count();
    are_as_long(book, again)
        && again.frames().count() == book.frames().count()
        && (0..count).all(|id| is_same_fact(book, again, id))
        && (0..count).all(|id| is_same_obligation(book, again, id))
}

#[test]
fn a_run_of_2_500_units(rt: HostRuntime) {
    let book = long_run(&rt, rt.alloc(), 2_500);
    assert!(rt; is_long(&book, 2_500, 5));
    mem::forget(book);
}

#[test]
fn a_run_of_2_500_units_again(rt: HostRuntime) {
    let book = long_run(&rt, rt.alloc(), 2_500);
    let again = replayed(&rt, rt.alloc(), &book);
    assert!(rt; is_long(&again, 2_500, 5));
    mem::forget(book);
    mem::forget(again);
}

#[test]
fn a_run_of_5_000_units(rt: HostRuntime) {
    let book = long_run(&rt, rt.alloc(), 5_000);
    assert!(rt; is_long(&book, 5_000, 10));
    mem::forget(book);
}

#[test]
fn a_run_of_5_000_units_again(rt: HostRuntime) {
    let book = long_run(&rt, rt.alloc(), 5_000);
    let again = replayed(&rt, rt.alloc(), &book);
    assert!(rt; is_long(&again, 5_000, 10));
    assert!(rt; is_again(&book, &again));
    mem::forget(book);
    mem::forget(again);
}

/// Takes a version of a book, and lets it go.
fn share(rt: &impl Abort, book: &Book) -> u64 {
    book.snapshot().expect(rt, "memory").length()
}

#[test]
fn versions_of_a_run(rt: HostRuntime) {
    let book = long_run(&rt, rt.alloc(), 5_000);
    for _ in 0..2_000 {
        assert!(rt; share(&rt, &book) == 5_000);
    }
    mem::forget(book);
}

/// Copies an entry, and lets it go.
fn copy(rt: &impl Abort, alloc: Global, book: &Book, number: u64) -> bool
    requires first { 1 ≤ number }
    requires last { number ≤ length book.now.journal }
{
    let step = copied(rt, alloc, &book.entry(number).step);
    has_places(book.system(), &step)
}

#[test]
fn copies_of_a_run(rt: HostRuntime) {
    let book = long_run(&rt, rt.alloc(), 5_000);
    for _ in 0..8 {
        for before in 0..book.length() {
            assert!(rt; copy(&rt, rt.alloc(), &book, before + 1));
        }
    }
    mem::forget(book);
}
