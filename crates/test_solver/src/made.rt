//! Forms and formulas of numbers, for the tests of all modules.
//!
//! The tests hand most of what they made to `mem::forget` once they have looked at it: to let such values go
//! part by part is known to be right for every value, and would be proved anew in each function.

use base::Items;
use lin_atoms::{Divisor, Form, Lin, Lit};
use std::alloc::Global;
use std::process::Abort;

/// The form with these terms.
pub(crate) fn lin(rt: &impl Abort, alloc: Global, terms: &[(u32, i64)], constant: i128) -> Lin {
    let terms = Vec::from_slice(alloc, terms).expect(rt, "memory");
    Lin::new(terms, constant).expect(rt, "a form")
}

/// The form in which the variables have these coefficients, one after the other.
pub(crate) fn form(rt: &impl Abort, alloc: Global, coefficients: &[i64], constant: i128) -> Lin {
    let mut terms = Vec::new(alloc);
    let mut variable: u32 = 0;
    for coefficient in coefficients {
        if *coefficient != 0 {
            terms.push((variable, *coefficient)).expect(rt, "memory");
        }
        variable = variable.wrapping_add(1);
    }
    Lin::new(terms, constant).expect(rt, "a form")
}

pub(crate) fn divisor(rt: &impl Abort, n: i64) -> Divisor {
    Divisor::new(n).expect(rt, "a divisor")
}

/// A literal: `<=`, `=`, a divisibility or one denied, of a form.
pub(crate) fn lit(kind: i64, n: Divisor, lin: Lin) -> Lit {
    match kind {
        0 => Lit::Le(lin),
        1 => Lit::Eq(lin),
        2 => Lit::Div(n, lin),
        _ => Lit::NDiv(n, lin),
    }
}

/// The form with these terms is at most 0.
pub(crate) fn le(rt: &impl Abort, alloc: Global, terms: &[(u32, i64)], constant: i128) -> Form {
    Form::Lit(Lit::Le(lin(rt, alloc, terms, constant)))
}

pub(crate) fn pair(rt: &impl Abort, alloc: Global, first: Form, second: Form) -> Items<Form> {
    Items::from_vec(Vec::from_array(alloc, [first, second]).expect(rt, "memory"))
}

pub(crate) fn put(rt: &impl Abort, parts: &mut Items<Form>, form: Form) {
    parts.push(form).expect(rt, "memory");
}
