//! Coordinates by hand, where their numerators and floors begin to have no room, and between integers.

use crate::solving::{Found, between, of_forms, solved};
use int_rows::Tableau;
use std::alloc::Global;
use std::mem;
use std::process::Abort;

/// 2^63 - 1, 2^64 - 1 and 2^63.
const ENTRY: i64 = i64::MAX;

const VALUE: i128 = 18446744073709551615;

const HALF: i128 = 9223372036854775808;

/// Makes the column the basic one of the first row, where it can be.
fn enter(t: &mut Tableau, column: usize) -> bool {
    if t.rows() == 0 || column >= t.columns() || t.entry(0, column) == 0 {
        return false;
    }
    t.pivot(0, column).is_ok()
}

/// Gives each column its value, but for the basic one.
fn fix(t: &mut Tableau, basic: usize, values: [i128; 5]) {
    for column in 0..5 {
        if column != basic {
            between(t, column, values[column], values[column]);
        }
    }
}

/// What is answered for the tableau of one form, whose basic column may have two bounds, and each
/// other one has its value. The form's slack is column 4.
fn found(
    rt: &impl Abort,
    alloc: Global,
    row: [i64; 4],
    basic: usize,
    values: [i128; 5],
    bounds: Option<(i128, i128)>,
) -> Found {
    let rows = [row];
    let mut t = of_forms(rt, alloc, &rows);
    if basic < 4 {
        assert!(rt; enter(&mut t, basic));
    }
    fix(&mut t, basic, values);
    if let Some((lower, upper)) = bounds {
        between(&mut t, basic, lower, upper);
    }
    let found = solved(alloc, &mut t, &rows);
    mem::forget(t);
    found
}

/// Where numerators have no room. A vertex at such values of the first column is refused for its floor.
const NUMERATORS: [([i64; 4], usize, i128, u32); 6] = [
    // (2^63 - 1) * (2^64 - 1) + (2^64 - 1) + (2^63 - 1) = 2^127 - 1
    ([ENTRY, 1, 1, 0], 4, HALF - 1, 0),
    ([ENTRY, 1, 1, 0], 4, HALF, 4),
    ([-ENTRY, -1, -1, 0], 4, HALF - 1, 0),
    ([-ENTRY, -1, -1, 0], 4, HALF, 4),
    // 2^127 / 2 is 2^126, and 2^127 / 3 is in lowest terms
    ([ENTRY, 1, 1, 2], 3, HALF, 0),
    ([ENTRY, 1, 1, 3], 3, HALF, 3),
];

#[test]
fn numerators_are_wide_from_two_to_the_127_on_in_lowest_terms(rt: HostRuntime) {
    for (row, basic, third, wide) in NUMERATORS {
        let values = [VALUE, VALUE, third, 0, 0];
        let found = found(&rt, rt.alloc(), row, basic, values, None);
        assert!(rt; found == Found::WideCoordinate(wide));
    }
}

/// Values of the second column, where the first is it over the form's first number, or its negative.
const FLOORS: [(i64, i64, i128, Found); 8] = [
    (1, -1, HALF - 1, Found::Vertex),
    (1, -1, HALF, Found::WideCoordinate(0)),
    (1, 1, HALF - 1, Found::Vertex),
    (1, 1, HALF, Found::WideCoordinate(0)),
    // the floor of (2^64 - 1) / 2 is 2^63 - 1, and that of its negative is -2^63
    (2, -1, VALUE, Found::WideCoordinate(1)),
    (2, 1, VALUE, Found::WideCoordinate(0)),
    (2, -1, -VALUE, Found::WideCoordinate(0)),
    (2, 1, -VALUE, Found::WideCoordinate(1)),
];

#[test]
fn floors_are_wide_from_two_to_the_63_on(rt: HostRuntime) {
    for (own, other, value, wanted) in FLOORS {
        let values = [0, value, 0, 0, 0];
        let found = found(&rt, rt.alloc(), [own, other, 0, 0], 0, values, None);
        assert!(rt; found == wanted);
    }
}

/// Bounds of x where 3x is the value.
const BOUNDS: [(i128, i128, i128, Found); 7] = [
    (10, 3, 4, Found::Vertex),
    (10, -9, 3, Found::Conflict),
    (10, 4, 9, Found::Conflict),
    (15, 5, 5, Found::Vertex),
    (15, 6, 6, Found::Conflict),
    (-10, -4, -3, Found::Vertex),
    (-10, -3, 0, Found::Conflict),
];

#[test]
fn values_are_compared_with_integers(rt: HostRuntime) {
    for (value, lower, upper, wanted) in BOUNDS {
        let (values, bounds) = ([7, value, 0, 0, 0], Some((lower, upper)));
        let found = found(&rt, rt.alloc(), [3, -1, 0, 0], 0, values, bounds);
        assert!(rt; found == wanted);
    }
}
