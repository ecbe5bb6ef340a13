//! Formulas by hand.

use crate::defined_texts::formula_under;
use crate::made::{add, eq, le, two};
use base::Same;
use clause_normal::NormalStop;
use lin_atoms::Form;
use std::alloc::Global;
use std::mem;
use std::process::Abort;

/// The formula that is true where the variable v is the magnitude of u.
fn magnitude(rt: &impl Abort, alloc: Global, u: u32, v: u32) -> Form {
    let (least, same) = (
        le(rt, alloc, &[(u, -1)], 0),
        eq(rt, alloc, &[(u, -1), (v, 1)], 0),
    );
    let (most, denied) = (
        le(rt, alloc, &[(u, 1)], 1),
        eq(rt, alloc, &[(u, 1), (v, 1)], 0),
    );
    let positive = Form::And(two(rt, alloc, least, same));
    let negative = Form::And(two(rt, alloc, most, denied));
    Form::Or(two(rt, alloc, positive, negative))
}

/// Whether that is the formula of the assertion over p with one argument, under the definition by the
/// term, with `count` variables.
fn is_made(
    rt: &impl Abort,
    alloc: Global,
    assertion: &str,
    term: &str,
    form: Form,
    count: u32,
) -> bool {
    let text = format!(in alloc;
        "(set-logic HORN)(declare-fun p (Int) Bool){assertion}(check-sat)"
    ).expect(rt, "memory");
    let (text, term) = (text.as_bytes(), term.as_bytes());
    assert!(rt; text.len() <= 1000 && term.len() <= 1000);
    let found = formula_under(rt, alloc, text, term);
    let is_made = match &found {
        Ok((made, variables)) => made.equals(&form) && *variables == count,
        Err(NormalStop::Memory) => panic!(rt; "memory"),
        Err(_) => false,
    };
    mem::forget(found);
    mem::forget(form);
    is_made
}

/// p of a number implies p of the next one.
const STEP: &str = "(assert (forall ((x Int)) (=> (p x) (p (+ x 1)))))";

#[test]
fn the_body_holds_and_the_head_does_not(rt: HostRuntime) {
    let a = rt.alloc();
    let (next, most) = (
        eq(&rt, a, &[(0, -1), (1, 1)], -1),
        le(&rt, a, &[(0, 1)], -9),
    );
    let mut parts = two(&rt, a, next, most);
    add(&rt, &mut parts, le(&rt, a, &[(1, -1)], 10));
    assert!(rt; is_made(&rt, a, STEP, "(< a 10)", Form::And(parts), 2));
}

#[test]
fn each_use_has_auxiliary_variables_of_its_own(rt: HostRuntime) {
    let a = rt.alloc();
    let (next, first) = (eq(&rt, a, &[(0, -1), (1, 1)], -1), magnitude(&rt, a, 0, 2));
    let mut parts = two(&rt, a, next, first);
    add(&rt, &mut parts, le(&rt, a, &[(2, 1)], -9));
    add(&rt, &mut parts, magnitude(&rt, a, 1, 3));
    add(&rt, &mut parts, le(&rt, a, &[(3, -1)], 10));
    assert!(rt; is_made(&rt, a, STEP, "(< (abs a) 10)", Form::And(parts), 4));
}

#[test]
fn without_atoms_and_head_the_guard_stands_alone(rt: HostRuntime) {
    let a = rt.alloc();
    let text = "(assert (forall ((x Int)) (not (< x 0))))";
    assert!(rt; is_made(&rt, a, text, "true", le(&rt, a, &[(0, 1)], 1), 1));
}
