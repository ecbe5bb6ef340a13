//! The clauses of the runs, most over one predicate of an integer, and books of them.

use crate::lits::{is, lin};
use base::Items;
use chc_core::Book;
use clause_form::{Atom, Clause, System};
use lin_atoms::{Form, Lit};
use std::alloc::Global;
use std::process::Abort;
use term_tree::Sort;

/// x1 = x0 + 1.
pub(crate) fn next(rt: &impl Abort, alloc: Global) -> Lit {
    Lit::Eq(lin(rt, alloc, &[(0, 1), (1, -1)], 1))
}

/// Each of the values for variable 0.
pub(crate) fn values(rt: &impl Abort, alloc: Global, values: &[i64]) -> Items<Form> {
    let mut parts = Items::new(alloc);
    for value in values {
        parts
            .push(Form::Lit(is(rt, alloc, 0, *value)))
            .expect(rt, "memory");
    }
    parts
}

/// A predicate at a variable.
fn atom(rt: &impl Abort, alloc: Global, pred: u32, variable: u32) -> Atom {
    let args = Items::from_slice(alloc, &[variable]).expect(rt, "memory");
    Atom { pred, args }
}

fn integers(rt: &impl Abort, alloc: Global, count: u32) -> Items<Sort> {
    let mut sorts = Items::new(alloc);
    for _ in 0..count {
        sorts.push(Sort::Int).expect(rt, "memory");
    }
    sorts
}

/// The predicates at x0, x1 and so on.
fn atoms(rt: &impl Abort, alloc: Global, preds: &[u32]) -> Items<Atom> {
    let mut atoms = Items::new(alloc);
    let mut variable = 0u32;
    for pred in preds {
        atoms
            .push(atom(rt, alloc, *pred, variable))
            .expect(rt, "memory");
        variable = variable.wrapping_add(1);
    }
    atoms
}

/// A clause of that guard over the given number of variables, whose body atoms are of these predicates.
pub(crate) fn clause(
    rt: &impl Abort,
    alloc: Global,
    variables: u32,
    guard: Form,
    preds: &[u32],
    head: Option<Atom>,
) -> Clause {
    Clause {
        assertion: 0,
        user: variables,
        sorts: integers(rt, alloc, variables),
        atoms: atoms(rt, alloc, preds),
        guard,
        head,
    }
}

/// The guard gives the predicate at x0.
pub(crate) fn rule(rt: &impl Abort, alloc: Global, pred: u32, guard: Form) -> Clause {
    let head = atom(rt, alloc, pred, 0);
    clause(rt, alloc, 1, guard, &[], Some(head))
}

/// Under the guard the predicate at x0 gives it at x1.
pub(crate) fn step(rt: &impl Abort, alloc: Global, pred: u32, guard: Lit) -> Clause {
    let head = atom(rt, alloc, pred, 1);
    clause(rt, alloc, 2, Form::Lit(guard), &[pred], Some(head))
}

/// The system of these clauses over the given number of predicates of an integer.
pub(crate) fn system_of(
    rt: &impl Abort,
    alloc: Global,
    clauses: Items<Clause>,
    count: u32,
) -> System {
    let mut preds = Items::new(alloc);
    for _ in 0..count {
        preds.push(integers(rt, alloc, 1)).expect(rt, "memory");
    }
    System::new(clauses, preds).expect(rt, "a system")
}

/// The book of these clauses over the given number of predicates; there are few of both.
pub(crate) fn book(
    rt: &impl Abort,
    alloc: Global,
    clauses: Items<Clause>,
    count: u32,
    units: u32,
) -> Book {
    let system = system_of(rt, alloc, clauses, count);
    assert!(rt; system.clauses().len() <= 30, "too many clauses");
    assert!(rt; system.preds().len() <= 10, "too many predicates");
    assert!(rt; units <= 50_000, "too many units");
    Book::new(alloc, system, units).expect(rt, "memory")
}

/// `p(0)`; where the guard, `x1 = x0 + 1`, holds, `p(x0)` gives `p(x1)`; and `p(3)` gives false.
pub(crate) fn counting_clauses(rt: &impl Abort, alloc: Global, guard: Lit) -> Items<Clause> {
    let mut clauses = Items::new(alloc);
    let zero = rule(rt, alloc, 0, Form::Lit(is(rt, alloc, 0, 0)));
    clauses.push(zero).expect(rt, "memory");
    clauses.push(step(rt, alloc, 0, guard)).expect(rt, "memory");
    let three = Form::Lit(is(rt, alloc, 0, 3));
    clauses
        .push(clause(rt, alloc, 1, three, &[0], None))
        .expect(rt, "memory");
    clauses
}

/// The book of the clauses that count to 3.
pub(crate) fn counting(rt: &impl Abort, alloc: Global, units: u32) -> Book {
    let clauses = counting_clauses(rt, alloc, next(rt, alloc));
    book(rt, alloc, clauses, 1, units)
}

/// The book of a clause in which that guard gives `p(x0)`, and one under whose guard `p(x0)` gives false.
fn two(rt: &impl Abort, alloc: Global, first: Form, second: Form) -> Book {
    let mut clauses = Items::new(alloc);
    clauses.push(rule(rt, alloc, 0, first)).expect(rt, "memory");
    clauses
        .push(clause(rt, alloc, 1, second, &[0], None))
        .expect(rt, "memory");
    book(rt, alloc, clauses, 1, 50_000)
}

/// The book of two clauses with choices: `p(0)` and `p(7)`; and `p(0)` up to `p(5)` each give false.
pub(crate) fn choices(rt: &impl Abort, alloc: Global) -> Book {
    let first = Form::Or(values(rt, alloc, &[0, 7]));
    let second = Form::Or(values(rt, alloc, &[0, 1, 2, 3, 4, 5]));
    two(rt, alloc, first, second)
}

/// The book of the clauses in which every value is a fact: `p` of all, of which each gives false.
pub(crate) fn anything(rt: &impl Abort, alloc: Global) -> Book {
    two(rt, alloc, Form::True, Form::True)
}

/// The book of one clause, which is false by itself.
pub(crate) fn contradiction(rt: &impl Abort, alloc: Global) -> Book {
    let mut clauses = Items::new(alloc);
    clauses
        .push(clause(rt, alloc, 0, Form::True, &[], None))
        .expect(rt, "memory");
    book(rt, alloc, clauses, 1, 50_000)
}
