//! A book of 3,001 entries, and the book to which its journal leads once more: a fact for each of 1,500
//! values, each asked for before. From the second on an obligation's cube is its value, and each is looked
//! up among all facts. No book is let go, since that costs a proof.

ghost use Rattle.std.specs.Prelude.{◌≡◌, ◌≤◌, length};
ghost use Rattle.step_rules.specs.Taken.{IsMadeFor};

use crate::clauses::anything;
use crate::copies::copied;
use crate::lits::only;
use crate::tokens::instance;
use crate::turns::{fact, projected, raise};
use base::{Copied, Same};
use chc_core::{Book, OpenPart, Step, has_places};
use clause_form::System;
use cube_forms::Cube;
use std::alloc::Global;
use std::mem;
use std::process::Abort;

/// How many facts are recorded.
const FACTS: u32 = 1_500;

/// The value of a fact: the values fall and rise in turn, and 0 is the first.
fn value_of(number: u32) -> i64 {
    let value = i64::from(number);
    if number % 2 == 0 { value } else { -value }
}

/// The cube of all at first, then that of the value.
fn cube_of(rt: &impl Abort, alloc: Global, number: u32) -> Cube {
    if number == 0 {
        return Cube::new(alloc, Vec::new(alloc)).expect(rt, "a cube");
    }
    only(rt, alloc, value_of(number))
}

/// An Open of the root by the second clause.
fn open(rt: &impl Abort, alloc: Global, sys: &System, number: u32) -> Step
    ensures { IsMadeFor sys.now result }
{
    let value = value_of(number);
    Step::OpenStep(OpenPart {
        parent: 0,
        atom: 0,
        seen: instance(rt, alloc, sys, 1, &[value]),
        cube: cube_of(rt, alloc, number),
        area: projected(rt, alloc, &[], &[value], 0),
    })
}

/// Hands a step in, which is taken.
pub(crate) fn take(rt: &impl Abort, book: &mut Book, step: Step)
    requires { IsMadeFor book.old.system step }
    ensures { book.new.system ≡ book.old.system }
{
    assert!(rt;
        has_places(book.system(), &step),
        "a place that isn't there"
    );
    assert!(rt; book.commit(1, step).is_ok(), "a step that is refused");
}

fn take_open(rt: &impl Abort, alloc: Global, book: &mut Book, number: u32) {
    let step = open(rt, alloc, book.system(), number);
    take(rt, book, step);
}

fn take_fact(rt: &impl Abort, alloc: Global, book: &mut Book, number: u32) {
    let target = book.tree().count().saturating_sub(1);
    let values = [value_of(number)];
    let step = fact(rt, alloc, book.system(), 0, &values, Some(target), &[]);
    take(rt, book, step);
}

fn take_raise(rt: &impl Abort, alloc: Global, book: &mut Book) {
    let step = raise(rt, alloc, book.system(), false, 0, 0);
    take(rt, book, step);
}

/// The book of all facts.
fn filled(rt: &impl Abort, alloc: Global) -> Book {
    let mut book = anything(rt, alloc);
    take_raise(rt, alloc, &mut book);
    for number in 0..FACTS {
        take_open(rt, alloc, &mut book, number);
        take_fact(rt, alloc, &mut book, number);
    }
    book
}

/// Hands the entry of that number in to another book of the same clauses.
fn take_entry(rt: &impl Abort, alloc: Global, book: &Book, number: u64, again: &mut Book)
    requires first { 1 ≤ number }
    requires last { number ≤ length book.now.journal }
    requires same { again.old.system ≡ book.now.system }
    ensures { again.new.system ≡ again.old.system }
{
    book.replay_law();
    let step = copied(rt, alloc, &book.entry(number).step);
    take(rt, again, step);
}

/// The book to which the journal leads.
pub(crate) fn replayed(rt: &impl Abort, alloc: Global, book: &Book) -> Book {
    book.replay_law();
    let system = book.system().copy(alloc).expect(rt, "memory");
    let mut again = Book::new(alloc, system, 50_000).expect(rt, "memory");
    for before in 0..book.length() {
        take_entry(rt, alloc, book, before + 1, &mut again);
    }
    again
}

pub(crate) fn is_same_fact(one: &Book, other: &Book, id: u32) -> bool {
    let (facts, others) = (one.facts(), other.facts());
    if id >= facts.count() || id >= others.count() {
        return false;
    }
    let (fact, same) = (facts.fact(id), others.fact(id));
    match fact.pred {
        Some(pred) => {
            fact.pred == same.pred
                && fact.tuple.equals(&same.tuple)
                && others.find(pred, fact.tuple.as_slice()) == Some(id)
        }
        None => false,
    }
}

pub(crate) fn is_same_obligation(one: &Book, other: &Book, id: u32) -> bool {
    let (tree, others) = (one.tree(), other.tree());
    id < tree.count() && id < others.count() && tree.closed_by(id) == others.closed_by(id)
}

pub(crate) fn are_as_long(one: &Book, other: &Book) -> bool {
    one.length() == other.length()
        && one.units() == other.units()
        && one.facts().count() == other.facts().count()
        && one.tree().count() == other.tree().count()
}

#[test]
fn a_journal_leads_to_its_book(rt: HostRuntime) {
    let book = filled(&rt, rt.alloc());
    let again = replayed(&rt, rt.alloc(), &book);
    assert!(rt; book.length() == 3_001);
    assert!(rt; are_as_long(&book, &again));
    for id in 0..FACTS {
        assert!(rt; is_same_fact(&book, &again, id));
        assert!(rt; is_same_obligation(&book, &again, id));
    }
    mem::forget(book);
    mem::forget(again);
}
