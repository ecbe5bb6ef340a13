//! Forms and divisors of numbers, for the tests of all modules.
//!
//! The tests hand most of what they made to `mem::forget` once they have looked at it: to let such values go
//! part by part is known to be right for every value, and would be proved anew in each function.

ghost use Rattle.std.specs.Prelude.{◌≡◌};

use lin_atoms::{Divisor, Lin, Lit};
use std::alloc::Global;
use std::mem;
use std::process::Abort;

/// The form with these terms.
pub(crate) fn lin(rt: &impl Abort, alloc: Global, terms: &[(u32, i64)], constant: i128) -> Lin
    ensures { result ≡ record { terms = terms.now; constant = constant } }
{
    let terms = Vec::from_slice(alloc, terms).expect(rt, "memory");
    Lin::new(terms, constant).expect(rt, "a form")
}

/// The form in which the variables have these coefficients, one after the other.
pub(crate) fn form(rt: &impl Abort, alloc: Global, coefficients: &[i64], constant: i128) -> Lin {
    let mut terms = Vec::new(alloc);
    let mut variable: u32 = 0;
    for coefficient in coefficients {
        if *coefficient != 0 {
            terms.push((variable, *coefficient)).expect(rt, "memory");
        }
        variable = variable.wrapping_add(1);
    }
    Lin::new(terms, constant).expect(rt, "a form")
}

pub(crate) fn divisor(rt: &impl Abort, n: i64) -> Divisor {
    Divisor::new(n).expect(rt, "a divisor")
}

/// Whether the literal is true at the point.
pub(crate) fn holds(lit: Lit, point: &[i64]) -> bool {
    let holds = lit.holds(point);
    mem::forget(lit);
    holds
}

/// Asserts that something holds, and names the case where it doesn't.
pub(crate) fn check(rt: &impl Abort, holds: bool, case: &str) {
    assert!(rt; holds, "{case}");
}

/// Asserts that something holds, and names the number at which it doesn't.
pub(crate) fn check_at(rt: &impl Abort, holds: bool, number: i128) {
    assert!(rt; holds, "at {number}");
}
