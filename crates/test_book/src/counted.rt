//! A long run on the ten counters, level after level. At each a Raise comes first. Then 24 times each
//! counter gets one fact more, which was asked for just before. Then the query of each counter asks for the
//! next one far above it, and a lemma denies it: 'below the level'. So a level is made of 501 steps.

ghost use Rattle.chc_tokens.specs.Tokens.{IsNoLift, IsShownToken};
ghost use Rattle.book_rules.specs.Walks.{AllOf};
ghost use Rattle.step_rules.specs.Taken.{IsMadeFor};

use crate::counters::{
    COUNTERS, FAR, apart, begins_below, below, clause_of, counters, from, isnt_far, least, reaches,
    stays_below,
};
use crate::lits::only;
use crate::replays::take;
use crate::tokens::instance;
use crate::turns::{fact, projected};
use base::Items;
use chc_core::{Book, LemmaPart, OpenPart, RaisePart, Step};
use chc_tokens::{NoLift, Shown};
use clause_form::System;
use cube_forms::Cube;
use model_project::Projected;
use std::alloc::Global;
use std::mem;
use std::process::Abort;

/// How many facts each counter gets at a level.
const FACTS: u32 = 24;

/// The area of one variable of a query, at a value of the counter.
fn area(rt: &impl Abort, alloc: Global, value: i64, kept: u32) -> Projected {
    let lits = [apart(rt, alloc), least(rt, alloc, 0)];
    let area = projected(rt, alloc, &lits, &[value, value.wrapping_add(FAR)], kept);
    mem::forget(lits);
    area
}

/// An Open of the root by a counter's query, for an atom.
fn open(
    rt: &impl Abort,
    alloc: Global,
    sys: &System,
    counter: u32,
    value: i64,
    atom: u32,
    cube: Cube,
) -> Step
    ensures { IsMadeFor sys.now result }
{
    let clause = clause_of(counter).wrapping_add(2);
    let values = [value, value.wrapping_add(FAR)];
    Step::OpenStep(OpenPart {
        parent: 0,
        atom,
        seen: instance(rt, alloc, sys, clause, &values),
        cube,
        area: area(rt, alloc, value, atom),
    })
}

/// Asks for a value of a counter: the first time for all from 0 on, and then for this one alone.
fn ask(rt: &impl Abort, alloc: Global, book: &mut Book, counter: u32, value: u32) {
    let value = i64::from(value);
    let cube = if value == 0 {
        from(rt, alloc, 0)
    } else {
        only(rt, alloc, value)
    };
    let step = open(rt, alloc, book.system(), counter, value, 0, cube);
    take(rt, book, step);
}

/// Asks for the next counter far above 0.
fn ask_far(rt: &impl Abort, alloc: Global, book: &mut Book, counter: u32) {
    let cube = from(rt, alloc, FAR);
    let step = open(rt, alloc, book.system(), counter, 0, 1, cube);
    take(rt, book, step);
}

/// The number of the obligation that came so many before the next one.
fn target(book: &Book, before: u32) -> u32 {
    book.tree().count().saturating_sub(before)
}

/// Records that a counter is the value. The facts of one value stand side by side.
fn count(rt: &impl Abort, alloc: Global, book: &mut Book, counter: u32, value: u32) {
    let target = Some(target(book, 1));
    let clause = clause_of(counter);
    let now = i64::from(value);
    let step = if value == 0 {
        fact(rt, alloc, book.system(), clause, &[now], target, &[])
    } else {
        let premise = book.facts().count().saturating_sub(COUNTERS);
        let clause = clause.wrapping_add(1);
        let values = [now - 1, now];
        fact(
            rt,
            alloc,
            book.system(),
            clause,
            &values,
            target,
            &[premise],
        )
    };
    take(rt, book, step);
}

/// Why a counter is below a level.
fn bounded(rt: &impl Abort, alloc: Global, sys: &System, counter: u32, level: u32) -> Items<Shown>
    ensures { AllOf (IsShownToken sys.now) result }
{
    let mut proofs = Items::new(alloc);
    proofs
        .push(begins_below(rt, alloc, sys, counter, level))
        .expect(rt, "memory");
    if level > 1 {
        proofs
            .push(stays_below(rt, alloc, sys, counter, level))
            .expect(rt, "memory");
    }
    proofs
}

fn learn(rt: &impl Abort, alloc: Global, sys: &System, target: u32, pred: u32, level: u32) -> Step
    ensures { IsMadeFor sys.now result }
{
    Step::LemmaStep(LemmaPart {
        target,
        pred,
        lemma: below(rt, alloc, level),
        level,
        proofs: bounded(rt, alloc, sys, pred, level),
    })
}

/// Denies the next counter, which was asked for by ten Opens, one for each counter in turn.
fn deny(rt: &impl Abort, alloc: Global, book: &mut Book, counter: u32) {
    let target = target(book, COUNTERS.saturating_sub(counter));
    let level = book.level();
    let pred = counter.wrapping_add(1) % COUNTERS;
    let step = learn(rt, alloc, book.system(), target, pred, level);
    take(rt, book, step);
}

fn push_shown(
    rt: &impl Abort,
    alloc: Global,
    sys: &System,
    counter: u32,
    level: u32,
    closed: &mut Items<Shown>,
)
    requires { AllOf (IsShownToken sys.now) closed.old }
    ensures { AllOf (IsShownToken sys.now) closed.new }
{
    let shown = isnt_far(rt, alloc, sys, counter, level);
    closed.push(shown).expect(rt, "memory");
}

/// Why no query is met at a level.
fn closed(rt: &impl Abort, alloc: Global, sys: &System, level: u32) -> Items<Shown>
    ensures { AllOf (IsShownToken sys.now) result }
{
    let mut closed = Items::new(alloc);
    if level == 0 {
        return closed;
    }
    for counter in 0..COUNTERS {
        push_shown(rt, alloc, sys, counter, level, &mut closed);
    }
    closed
}

fn push_kept(rt: &impl Abort, alloc: Global, sys: &System, number: u32, kept: &mut Items<NoLift>)
    requires { AllOf (IsNoLift sys.now) kept.old }
    ensures { AllOf (IsNoLift sys.now) kept.new }
{
    let counter = (number % COUNTERS).wrapping_add(1) % COUNTERS;
    let level = number / COUNTERS + 1;
    let no_lift = reaches(rt, alloc, sys, counter, level);
    kept.push(no_lift).expect(rt, "memory");
}

/// Why no lemma of a level below this one can be lifted.
fn kept(rt: &impl Abort, alloc: Global, sys: &System, level: u32) -> Items<NoLift>
    ensures { AllOf (IsNoLift sys.now) result }
{
    let mut kept = Items::new(alloc);
    for number in 0..level.saturating_sub(1).wrapping_mul(COUNTERS) {
        push_kept(rt, alloc, sys, number, &mut kept);
    }
    kept
}

fn raise(rt: &impl Abort, alloc: Global, sys: &System, level: u32) -> Step
    ensures { IsMadeFor sys.now result }
{
    Step::RaiseStep(RaisePart {
        closed: closed(rt, alloc, sys, level),
        kept: kept(rt, alloc, sys, level),
    })
}

/// One step of a level, by its number in it.
fn turn(rt: &impl Abort, alloc: Global, book: &mut Book, at: u32) {
    let asked = 2 * COUNTERS * FACTS;
    if at == 0 {
        let step = raise(rt, alloc, book.system(), book.level());
        take(rt, book, step);
    } else if at <= asked {
        let value = book.facts().count() / COUNTERS;
        let counter = book.facts().count() % COUNTERS;
        if at % 2 == 1 {
            ask(rt, alloc, book, counter, value);
        } else {
            count(rt, alloc, book, counter, value);
        }
    } else if at <= asked + COUNTERS {
        ask_far(rt, alloc, book, at - asked - 1);
    } else {
        deny(rt, alloc, book, at.wrapping_sub(asked + COUNTERS + 1));
    }
}

/// The book of the run until its units are spent.
pub(crate) fn long_run(rt: &impl Abort, alloc: Global, units: u32) -> Book {
    let mut book = counters(rt, alloc, units);
    let each = 2 * COUNTERS * (FACTS + 1) + 1;
    for number in 0..units {
        turn(rt, alloc, &mut book, number % each);
    }
    book
}
