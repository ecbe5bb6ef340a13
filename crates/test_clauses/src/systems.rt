//! Systems that keep what a system keeps, and some that don't.

use base::{Copied, Items, Same};
use clause_form::{Atom, Clause, System};
use lin_atoms::{Divisor, Form, Lin, Lit};
use std::alloc::Global;
use std::mem;
use std::process::Abort;
use term_tree::Sort;

/// A divisibility of the first variable and a constant.
fn guard(rt: &impl Abort, alloc: Global, constant: i128) -> Form {
    let mut terms = Vec::new(alloc);
    terms.push((0, 1)).expect(rt, "memory");
    let divisor = Divisor::new(2).expect(rt, "a divisor");
    Form::Lit(Lit::Div(divisor, Lin::new(terms, constant).expect(rt, "a form")))
}

/// One clause over a predicate 0 of one integer: its guard, and a head at this variable.
fn system(
    rt: &impl Abort,
    alloc: Global,
    pred: u32,
    variable: u32,
    constant: i128,
) -> Option<System> {
    let atom = Atom {
        pred,
        args: Items::from_slice(alloc, &[variable]).expect(rt, "memory"),
    };
    let mut clauses = Items::new(alloc);
    clauses
        .push(Clause {
            assertion: 0,
            user: 1,
            sorts: Items::from_slice(alloc, &[Sort::Int, Sort::Int]).expect(rt, "memory"),
            atoms: Items::new(alloc),
            guard: guard(rt, alloc, constant),
            head: Some(atom),
        })
        .expect(rt, "memory");
    let mut preds = Items::new(alloc);
    preds
        .push(Items::from_slice(alloc, &[Sort::Int]).expect(rt, "memory"))
        .expect(rt, "memory");
    System::new(clauses, preds)
}

/// Whether the first clauses have the same guard, over variables of the same sorts.
fn has_same_guard(one: &System, other: &System) -> bool {
    match (one.clauses(), other.clauses()) {
        ([this, ..], [that, ..]) => this.guard.equals(&that.guard)
            && this.sorts.equals(&that.sorts),
        _ => false,
    }
}

/// Asserts that something holds, and names the case where it doesn't.
fn check_case(rt: &impl Abort, holds: bool, pred: u32, variable: u32, constant: i128) {
    assert!(rt; holds, "{pred} {variable} {constant}");
}

#[test]
fn a_clause_names_its_own_variables_and_predicates_that_are_there(rt: HostRuntime) {
    for (pred, variable, constant, is_one) in [
        (0, 1, 0, true),
        (1, 1, 0, false),
        (0, 2, 0, false),
        (0, 0, i128::from(i64::MAX), true),
        (0, 0, 1 << 63, false),
    ] {
        let made = system(&rt, rt.alloc(), pred, variable, constant);
        let is_made = made.is_some();
        mem::forget(made);
        check_case(&rt, is_made == is_one, pred, variable, constant);
    }
}

#[test]
fn a_copy_is_the_same_system(rt: HostRuntime) {
    let made = system(&rt, rt.alloc(), 0, 1, 5).expect(&rt, "a system");
    let copied = made.copy(rt.alloc()).expect(&rt, "memory");
    assert!(rt; has_same_guard(&copied, &made));
    let other = system(&rt, rt.alloc(), 0, 1, 6).expect(&rt, "a system");
    assert!(rt; !has_same_guard(&copied, &other));
    assert!(rt; copied.clauses().len() == 1);
    assert!(rt; copied.preds().len() == 1);
    assert!(rt; copied.clause(0).user == 1);
    mem::forget(made);
    mem::forget(copied);
    mem::forget(other);
}
