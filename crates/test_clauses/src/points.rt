//! Guards of one variable, and its only value at their points.

use crate::guards::clause_of_text;
use crate::made;
use lin_atoms::{Form, holds};
use std::alloc::Global;
use std::mem;
use std::process::Abort;

/// The integer from -20 to 20 that is alone a point of the guard; `None` where none or more than one is.
fn only_value(guard: &Form) -> Option<i64> {
    let mut found = None;
    for value in -20..21 {
        let point: [i64; 1] = [value];
        if holds(guard, point.as_slice()) {
            if found.is_some() {
                return None;
            }
            found = Some(value);
        }
    }
    found
}

/// Asserts that the one variable of a fact's clause, which is the argument's, has this value alone.
fn check(rt: &impl Abort, alloc: Global, argument: &str, awaited: i64) {
    let text = format!(in alloc; "(assert (p {argument}))").expect(rt, "memory");
    let clause = clause_of_text(rt, alloc, text.as_str());
    let is_right = clause.sorts.len() == 1 && only_value(&clause.guard) == Some(awaited);
    mem::forget(clause);
    made::check(rt, is_right, argument);
}

#[test]
fn quotients_and_remainders_have_one_value(rt: HostRuntime) {
    let cases = [
        ("(div (- 7) 2)", -4),
        ("(mod (- 7) 2)", 1),
        ("(div (- 7) (- 2))", 4),
        ("(mod (- 7) (- 2))", 1),
        ("(div 7 (- 2))", -3),
        ("(mod 7 (- 2))", 1),
        ("(div (- 8) 2)", -4),
        ("(abs (- 7))", 7),
        ("(+ (- 7) 2)", -5),
    ];
    for (argument, awaited) in cases {
        check(&rt, rt.alloc(), argument, awaited);
    }
}
