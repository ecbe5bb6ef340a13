//! The truth of formulas at points.

use crate::trees::{Kind, literals};
use base::{Copied, Items, Same};
use lin_atoms::{Form, holds};
use std::alloc::Global;
use std::mem;
use std::process::Abort;

/// x is at most y, or 3 doesn't divide y.
fn sample(rt: &impl Abort, alloc: Global) -> Form {
    let parts = literals(
        rt,
        alloc,
        &[
            (Kind::AtMostZero, &[(0, 1), (1, -1)], 0),
            (Kind::Undivided, &[(1, 1)], 0),
        ],
    );
    Form::Or(parts)
}

fn is_true_as_or_says(form: &Form) -> bool {
    form.is_below(2)
        && !form.is_below(1)
        && holds(form, &[3, 3])
        && !holds(form, &[4, 3])
        && holds(form, &[5, 4])
}

#[test]
fn formulas_are_true_as_or_says(rt: HostRuntime) {
    let form = sample(&rt, rt.alloc());
    let copied = form.copy(rt.alloc()).expect(&rt, "memory");
    assert!(rt; copied.equals(&form) && is_true_as_or_says(&copied));
    mem::forget(form);
    mem::forget(copied);
}

#[test]
fn no_parts_are_true_under_and_alone(rt: HostRuntime) {
    let (all, any) = (
        Form::And(Items::new(rt.alloc())),
        Form::Or(Items::new(rt.alloc())),
    );
    assert!(rt; holds(&all, &[]) && !holds(&any, &[]));
    mem::forget(all);
    mem::forget(any);
}
