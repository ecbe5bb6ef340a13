//! Ten counters, each a predicate of an integer: it begins at 0 and goes up by one, and no counter may be a
//! million above the one before it. What the steps of a run on them are made of.

ghost use Rattle.chc_tokens.specs.Tokens.{IsNoLift, IsShownToken};

use crate::clauses::{book, clause, next, rule, step};
use crate::lits::{cube, denied, is, lin};
use crate::tokens::{both, broken_by, leaf, token, used};
use base::Items;
use chc_core::Book;
use chc_tokens::{Goal, NoLift, Shown};
use clause_form::{Clause, System};
use cube_forms::{Cube, Lemma};
use lin_atoms::{Form, Lit};
use std::alloc::Global;
use std::process::Abort;

/// How many counters there are.
pub(crate) const COUNTERS: u32 = 10;

/// How far above a counter the next one may not be.
pub(crate) const FAR: i64 = 1_000_000;

/// The clause with which a counter begins; the two behind it are its step and its query.
pub(crate) fn clause_of(counter: u32) -> u32 {
    counter.wrapping_mul(3)
}

/// x0 is at least the value.
pub(crate) fn least(rt: &impl Abort, alloc: Global, value: i64) -> Lit {
    Lit::Le(lin(rt, alloc, &[(0, -1)], i128::from(value)))
}

/// x1 is far above x0.
pub(crate) fn apart(rt: &impl Abort, alloc: Global) -> Lit {
    Lit::Eq(lin(rt, alloc, &[(0, 1), (1, -1)], i128::from(FAR)))
}

/// The cube of the values from this one on.
pub(crate) fn from(rt: &impl Abort, alloc: Global, value: i64) -> Cube {
    cube(rt, alloc, least(rt, alloc, value))
}

/// False follows where a counter that is 0 or more is far below the other one.
fn query(rt: &impl Abort, alloc: Global, counter: u32, other: u32) -> Clause {
    let (apart, least) = (apart(rt, alloc), least(rt, alloc, 0));
    let guard = both(rt, alloc, Form::Lit(apart), Form::Lit(least));
    clause(rt, alloc, 2, guard, &[counter, other], None)
}

/// Adds the clauses of a counter: it is 0, one that is x0 may be x0 + 1, and its query.
fn push_clauses(rt: &impl Abort, alloc: Global, counter: u32, clauses: &mut Items<Clause>) {
    let zero = Form::Lit(is(rt, alloc, 0, 0));
    clauses
        .push(rule(rt, alloc, counter, zero))
        .expect(rt, "memory");
    clauses
        .push(step(rt, alloc, counter, next(rt, alloc)))
        .expect(rt, "memory");
    let other = counter.wrapping_add(1) % COUNTERS;
    clauses
        .push(query(rt, alloc, counter, other))
        .expect(rt, "memory");
}

/// The book of the ten counters.
pub(crate) fn counters(rt: &impl Abort, alloc: Global, units: u32) -> Book {
    let mut clauses = Items::new(alloc);
    for counter in 0..COUNTERS {
        push_clauses(rt, alloc, counter, &mut clauses);
    }
    book(rt, alloc, clauses, COUNTERS, units)
}

/// 'Below the level'.
pub(crate) fn below(rt: &impl Abort, alloc: Global, level: u32) -> Lemma {
    denied(rt, alloc, least(rt, alloc, i64::from(level)))
}

/// A counter begins below a level from 1 up.
pub(crate) fn begins_below(
    rt: &impl Abort,
    alloc: Global,
    sys: &System,
    counter: u32,
    level: u32,
) -> Shown
    ensures { IsShownToken sys.now result }
{
    let proof = leaf(rt, alloc, &[(0, 1), (1, 1)]);
    let goal = Goal::Holds(below(rt, alloc, level));
    let clause = clause_of(counter);
    token(rt, alloc, sys, clause, goal, Vec::new(alloc), proof)
}

/// A counter that was below the level before is below this one after a step.
pub(crate) fn stays_below(
    rt: &impl Abort,
    alloc: Global,
    sys: &System,
    counter: u32,
    level: u32,
) -> Shown
    ensures { IsShownToken sys.now result }
{
    let proof = leaf(rt, alloc, &[(0, -1), (1, 1), (2, 1)]);
    let goal = Goal::Holds(below(rt, alloc, level));
    let clause = clause_of(counter).wrapping_add(1);
    let used = used(rt, alloc, 0, below(rt, alloc, level.wrapping_sub(1)));
    token(rt, alloc, sys, clause, goal, used, proof)
}

/// A counter isn't far below another one that is below the level.
pub(crate) fn isnt_far(
    rt: &impl Abort,
    alloc: Global,
    sys: &System,
    counter: u32,
    level: u32,
) -> Shown
    ensures { IsShownToken sys.now result }
{
    let proof = leaf(rt, alloc, &[(0, 1), (1, 1), (2, 1)]);
    let clause = clause_of(counter).wrapping_add(2);
    let used = used(rt, alloc, 1, below(rt, alloc, level));
    token(rt, alloc, sys, clause, Goal::Query, used, proof)
}

/// A counter that is below the level may be at it after a step.
pub(crate) fn reaches(
    rt: &impl Abort,
    alloc: Global,
    sys: &System,
    counter: u32,
    level: u32,
) -> NoLift
    ensures { IsNoLift sys.now result }
{
    let lemma = below(rt, alloc, level);
    let clause = clause_of(counter).wrapping_add(1);
    let value = i64::from(level);
    broken_by(rt, alloc, sys, clause, lemma, &[value - 1, value])
}
