//! Sums by hand, some with more than 63 bits on the way.

use crate::made::lin;
use base::{Items, Same};
use lin_atoms::{Lin, WideStop};
use linear_terms::{difference_form, less, product_form, sum_form};
use std::alloc::Global;
use std::mem;
use std::process::Abort;

const MOST: i64 = i64::MAX;

/// A multiple of the variable 3, and a constant.
fn form(rt: &impl Abort, alloc: Global, coefficient: i64, constant: i128) -> Lin {
    let mut terms = Vec::new(alloc);
    if coefficient != 0 {
        terms.push((3, coefficient)).expect(rt, "memory");
    }
    Lin::new(terms, constant).expect(rt, "a form")
}

/// Multiples of the variable 3, each with a constant.
fn forms(rt: &impl Abort, alloc: Global, parts: &[(i64, i128)]) -> Items<Lin> {
    let mut forms = Items::new(alloc);
    for (coefficient, constant) in parts {
        forms
            .push(form(rt, alloc, *coefficient, *constant))
            .expect(rt, "memory");
    }
    forms
}

/// Whether this is the form.
fn is_form(found: Result<Lin, WideStop>, awaited: Lin) -> bool {
    let is_form = match &found {
        Ok(form) => form.equals(&awaited),
        Err(_) => false,
    };
    mem::forget(found);
    mem::forget(awaited);
    is_form
}

/// Whether this is the refusal of a wide one.
fn is_wide(found: Result<Lin, WideStop>) -> bool {
    let is_wide = matches!(&found, Err(WideStop::Wide));
    mem::forget(found);
    is_wide
}

/// The difference of two forms.
fn less_of(alloc: Global, ours: Lin, theirs: Lin) -> Result<Lin, WideStop> {
    let found = less(alloc, &ours, &theirs);
    mem::forget(ours);
    mem::forget(theirs);
    found
}

#[test]
fn sums_are_exact_before_they_are_judged(rt: HostRuntime) {
    let alloc = rt.alloc();
    let back = forms(&rt, alloc, &[(MOST, 5), (MOST, 6), (-MOST, -1)]);
    let sum = sum_form(alloc, back.as_slice());
    assert!(rt; is_form(sum, form(&rt, alloc, MOST, 10)));
    let wide = forms(&rt, alloc, &[(MOST, 5), (1, 6)]);
    assert!(rt; is_wide(sum_form(alloc, wide.as_slice())));
    mem::forget(back);
    mem::forget(wide);
}

#[test]
fn a_difference_takes_the_later_forms_away(rt: HostRuntime) {
    let alloc = rt.alloc();
    let three = forms(&rt, alloc, &[(7, 5), (2, 1), (4, 9)]);
    let difference = difference_form(alloc, three.as_slice());
    mem::forget(three);
    assert!(rt; is_form(difference, form(&rt, alloc, 1, -5)));
    let rest = less_of(alloc, form(&rt, alloc, 7, 5), form(&rt, alloc, 7, 1));
    assert!(rt; is_form(rest, form(&rt, alloc, 0, 4)));
}

#[test]
fn a_difference_has_the_terms_of_both_forms_in_order(rt: HostRuntime) {
    let alloc = rt.alloc();
    let rows: [(&[(u32, i64)], &[(u32, i64)], &[(u32, i64)]); 6] = [
        (&[(1, 5), (4, 2)], &[(2, 3)], &[(1, 5), (2, -3), (4, 2)]),
        (&[(2, 3)], &[(1, 5), (4, -2)], &[(1, -5), (2, 3), (4, 2)]),
        (&[(1, 5), (2, 3)], &[(1, 5), (2, 2)], &[(2, 1)]),
        (&[], &[(7, 1), (9, -1)], &[(7, -1), (9, 1)]),
        (&[(7, 1), (9, -1)], &[], &[(7, 1), (9, -1)]),
        (&[(3, MOST)], &[(3, MOST)], &[]),
    ];
    for (ours, theirs, rest) in rows {
        let found = less_of(alloc, lin(&rt, alloc, ours, 4), lin(&rt, alloc, theirs, 9));
        assert!(rt; is_form(found, lin(&rt, alloc, rest, -5)));
    }
}

#[test]
fn a_difference_is_refused_where_a_number_of_it_is_wide(rt: HostRuntime) {
    let alloc = rt.alloc();
    // 2^63 times a variable, -2^63 times it, and a constant of 2^63
    for (ours, theirs) in [
        ((MOST, 0), (-1, 0)),
        ((-1, 0), (MOST, 0)),
        ((1, i128::from(MOST)), (1, -1)),
    ] {
        let (a, b) = (
            form(&rt, alloc, ours.0, ours.1),
            form(&rt, alloc, theirs.0, theirs.1),
        );
        assert!(rt; is_wide(less_of(alloc, a, b)));
    }
}

#[test]
fn a_product_is_a_multiple_of_the_factor_that_varies(rt: HostRuntime) {
    let alloc = rt.alloc();
    let factors = forms(&rt, alloc, &[(0, 3), (2, 1), (0, -5)]);
    let product = product_form(alloc, &[Some(3), None, Some(-5)], factors.as_slice());
    mem::forget(factors);
    assert!(rt; is_form(product, form(&rt, alloc, -30, -15)));
    let none = forms(&rt, alloc, &[(0, 0), (0, MOST.into()), (0, MOST.into())]);
    let zero = product_form(alloc, &[Some(0), Some(MOST), Some(MOST)], none.as_slice());
    mem::forget(none);
    assert!(rt; is_form(zero, form(&rt, alloc, 0, 0)));
}
