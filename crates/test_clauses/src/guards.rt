//! Guards by hand.

use crate::made::{add, eq, le, lin, two};
use crate::texts::script_of;
use base::{Copied, Same};
use clause_form::{Clause, System};
use clause_normal::read_clauses;
use lin_atoms::{Divisor, Form, Lit};
use std::alloc::Global;
use std::mem;
use std::process::Abort;

/// A copy of the first clause.
fn first_of(rt: &impl Abort, alloc: Global, system: &System) -> Clause {
    let first = system.clauses().first().expect(rt, "a clause");
    first.copy(alloc).expect(rt, "memory")
}

/// The clause of the text's first assertion.
pub fn clause_of_text(rt: &impl Abort, alloc: Global, rest: &str) -> Clause {
    let checked = script_of(rt, alloc, rest);
    let system = read_clauses(alloc, &checked).expect(rt, "clauses");
    let first = first_of(rt, alloc, &system);
    mem::forget(checked);
    mem::forget(system);
    first
}

fn triple(rt: &impl Abort, alloc: Global, first: Form, second: Form, third: Form) -> Form {
    let mut parts = two(rt, alloc, first, second);
    add(rt, &mut parts, third);
    Form::And(parts)
}

/// Whether that is the clause's guard.
fn is_guard(clause: Clause, awaited: Form) -> bool {
    let is_guard = clause.guard.equals(&awaited);
    mem::forget(clause);
    mem::forget(awaited);
    is_guard
}

/// The bits of b, that b is true, that x is below 0, and what false gives.
fn wanted_bits(rt: &impl Abort, alloc: Global) -> Form {
    let mut parts = two(
        rt,
        alloc,
        le(rt, alloc, &[(0, -1)], 0),
        le(rt, alloc, &[(0, 1)], -1),
    );
    add(rt, &mut parts, le(rt, alloc, &[(0, -1)], 1));
    add(rt, &mut parts, le(rt, alloc, &[(1, 1)], 1));
    add(rt, &mut parts, Form::True);
    Form::And(parts)
}

#[test]
fn a_guard_has_the_bits_then_the_guards_and_what_false_gives(rt: HostRuntime) {
    let text = "(assert (forall ((b Bool) (x Int)) (=> (and (r b x) b (< x 0)) false)))";
    let made = clause_of_text(&rt, rt.alloc(), text);
    assert!(rt; is_guard(made, wanted_bits(&rt, rt.alloc())));
}

/// Whether the clause has a head whose only argument is the variable 1.
fn has_head_at_1(clause: &Clause) -> bool {
    match &clause.head {
        Some(head) => head.args.as_slice() == [1].as_slice(),
        None => false,
    }
}

#[test]
fn an_argument_that_is_no_variable_has_one(rt: HostRuntime) {
    let text = "(assert (forall ((x Int)) (=> (p x) (p (+ x 1)))))";
    let made = clause_of_text(&rt, rt.alloc(), text);
    let wanted = eq(&rt, rt.alloc(), &[(0, -1), (1, 1)], -1);
    assert!(rt; has_head_at_1(&made));
    assert!(rt; is_guard(made, wanted));
}

/// 3 divides the quotient and 1 less the remainder.
fn divides(rt: &impl Abort, alloc: Global) -> Form {
    let divisor = Divisor::new(3).expect(rt, "a divisor");
    Form::Lit(Lit::Div(divisor, lin(rt, alloc, &[(2, -1), (3, 1)], 1)))
}

fn remainder(rt: &impl Abort, alloc: Global) -> Form {
    let least = le(rt, alloc, &[(2, -1)], 0);
    let most = le(rt, alloc, &[(2, 1)], -2);
    triple(rt, alloc, least, most, divides(rt, alloc))
}

fn quotient(rt: &impl Abort, alloc: Global) -> Form {
    let least = le(rt, alloc, &[(0, -1), (3, 2)], 0);
    let most = le(rt, alloc, &[(0, 1), (3, -2)], -1);
    Form::And(two(rt, alloc, least, most))
}

/// 1 is the argument, 2 the remainder, 3 the quotient.
#[test]
fn a_place_comes_before_the_places_inside_it(rt: HostRuntime) {
    let text = "(assert (forall ((x Int)) (p (+ (mod (+ (div x 2) 1) 3) 1))))";
    let made = clause_of_text(&rt, rt.alloc(), text);
    let argument = eq(&rt, rt.alloc(), &[(1, 1), (2, -1)], -1);
    let (remainder, quotient) = (remainder(&rt, rt.alloc()), quotient(&rt, rt.alloc()));
    let wanted = triple(&rt, rt.alloc(), argument, remainder, quotient);
    assert!(rt; is_guard(made, wanted));
}
