//! Forms that are taken into a tableau, before and after pivots that were worked out by hand.

use crate::made::form;
use crate::tableaux::{LARGE, constants, fasten, has_bounds, has_row, is_made, of_two, tableau};
use int_rows::{PushStop, RowWide, Tableau};
use lin_atoms::Lin;
use std::alloc::Global;
use std::mem;
use std::process::Abort;

/// What a push of a*x + b*y and a constant answers, where the variables are the tableau's.
fn push(rt: &impl Abort, alloc: Global, t: &mut Tableau, a: i64, b: i64) -> Result<(), PushStop> {
    let form = form(rt, alloc, &[a, b], 7);
    assert!(rt; form.is_below(t.columns()));
    let answer = t.push(alloc, &form);
    mem::forget(form);
    answer
}

fn is_pushed(rt: &impl Abort, alloc: Global, t: &mut Tableau, a: i64, b: i64) -> bool {
    push(rt, alloc, t, a, b).is_ok()
}

/// Where a row would be wide, and its entry.
fn wide(rt: &impl Abort, alloc: Global, t: &mut Tableau, a: i64, b: i64) -> Option<RowWide> {
    match push(rt, alloc, t, a, b) {
        Err(PushStop::Wide(wide)) => Some(wide),
        _ => None,
    }
}

/// Whether the tableau has these rows and basic variables.
fn has_rows(t: &Tableau, rows: &[(&[i64], usize)]) -> bool {
    let mut all = t.rows() == rows.len() && t.columns() == 2;
    for (i, (entries, basic)) in rows.iter().enumerate() {
        all = all && has_row(t, i, entries, *basic);
    }
    all
}

#[test]
fn a_form_is_taken_as_with_the_others(rt: HostRuntime) {
    let alloc = rt.alloc();
    let mut t = of_two(&rt, alloc, 2, 3, 1, -1);
    assert!(rt; is_pushed(&rt, alloc, &mut t, 4, 6));
    let forms = Vec::from_array(
        alloc,
        [
            form(&rt, alloc, &[2, 3], 7),
            form(&rt, alloc, &[1, -1], 7),
            form(&rt, alloc, &[4, 6], 7),
        ],
    )
    .expect(&rt, "memory");
    let whole = tableau(&rt, alloc, forms, 2);
    let rows: [(&[i64], usize); 3] = [
        (&[-2, -3, 1, 0, 0], 2),
        (&[-1, 1, 0, 1, 0], 3),
        (&[-4, -6, 0, 0, 1], 4),
    ];
    assert!(rt; has_rows(&t, rows.as_slice()) && has_rows(&whole, rows.as_slice()));
    mem::forget(t);
    mem::forget(whole);
}

#[test]
fn a_form_is_freed_of_what_is_basic(rt: HostRuntime) {
    let alloc = rt.alloc();
    let mut t = of_two(&rt, alloc, 2, 3, 1, -1);
    assert!(rt; is_made(&mut t, 0, 0) && is_pushed(&rt, alloc, &mut t, 1, 1));
    let once: [(&[i64], usize); 3] = [
        (&[2, 3, -1, 0, 0], 0),
        (&[0, 5, -1, 2, 0], 3),
        (&[0, 1, -1, 0, 2], 4),
    ];
    assert!(rt; has_rows(&t, once.as_slice()));
    assert!(rt; is_made(&mut t, 1, 1) && is_pushed(&rt, alloc, &mut t, 3, 2));
    let twice: [(&[i64], usize); 4] = [
        (&[5, 0, -1, -3, 0, 0], 0),
        (&[0, 5, -1, 2, 0, 0], 1),
        (&[0, 0, -2, -1, 5, 0], 4),
        (&[0, 0, -1, -1, 0, 1], 5),
    ];
    assert!(rt; has_rows(&t, twice.as_slice()));
    mem::forget(t);
}

#[test]
fn bounds_stay_and_the_new_slack_has_none(rt: HostRuntime) {
    let mut t = of_two(&rt, rt.alloc(), 2, 3, 1, -1);
    fasten(&mut t, 0);
    fasten(&mut t, 3);
    assert!(rt; is_pushed(&rt, rt.alloc(), &mut t, 1, 1));
    for variable in [0, 3] {
        assert!(rt; has_bounds(&t, variable, Some(-5), Some(7)));
    }
    for variable in [1, 2, 4] {
        assert!(rt; has_bounds(&t, variable, None, None));
    }
    mem::forget(t);
}

/// The tableau of x + y and x + LARGE * y, solved for y and x.
fn of_large(rt: &impl Abort, alloc: Global) -> Tableau {
    let mut t = of_two(rt, alloc, 1, 1, 1, LARGE);
    assert!(rt; is_made(&mut t, 0, 1) && is_made(&mut t, 1, 0));
    t
}

/// Forms that would be wide, the row by which they would, and the entry.
const WIDE: [(i64, i64, usize, i128); 3] = [
    (3, 1, 1, -3 * (1 << 62)),
    (3, 0, 2, -3 * (1 << 62) - 3),
    (LARGE, LARGE, 1, -(1 << 124) - (1 << 62)),
];

#[test]
fn the_first_wide_row_leaves_the_tableau(rt: HostRuntime) {
    let mut t = of_large(&rt, rt.alloc());
    let rows: [(&[i64], usize); 2] = [(&[0, 1 << 62, 1, -1], 1), (&[1 << 62, 0, -LARGE, 1], 0)];
    for (a, b, row, entry) in WIDE {
        assert!(rt; wide(&rt, rt.alloc(), &mut t, a, b) == Some(RowWide { row, entry }));
        assert!(rt; has_rows(&t, rows.as_slice()));
    }
    mem::forget(t);
}

#[test]
fn a_form_that_is_there_has_the_same_slack(rt: HostRuntime) {
    let mut t = of_large(&rt, rt.alloc());
    assert!(rt; is_pushed(&rt, rt.alloc(), &mut t, 1, 1));
    assert!(rt; has_row(&t, 2, &[0, 0, -1, 0, 1], 4));
    mem::forget(t);
}

/// Whether a form more than `count` is too many; with memory.
fn is_one_too_many(rt: &impl Abort, alloc: Global, count: usize) -> bool {
    let mut t = tableau(rt, alloc, constants(rt, alloc, count), 0);
    let form = Lin::of_constant(alloc, 0);
    assert!(rt; form.is_below(t.columns()));
    let answer = t.push(alloc, &form);
    let is_too_many = matches!(answer, Err(PushStop::TooMany)) && t.rows() == count;
    mem::forget(form);
    mem::forget(t);
    is_too_many
}

#[test]
fn a_form_more_than_1024_is_too_many(rt: HostRuntime) {
    for (count, wanted) in [(1023, false), (1024, true)] {
        assert!(rt; is_one_too_many(&rt, rt.alloc(), count) == wanted);
    }
}
