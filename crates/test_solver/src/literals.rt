//! Conjunctions that were worked out by hand.

use crate::conjunctions::{Row, decided, is_refuted, point};
use lia_branch::Decision;
use refutation_trees::Evidence;
use std::mem;

/// 3 divides x + y, 3 divides x - y - 1, and both are from 0 to 5: x is 2 and y is 1, or both are 3 more
/// in turn. So y is 1 more than a multiple of 3, which the last row denies.
const RESIDUES: [Row; 7] = [
    (2, 3, [1, 1, 0, 0], 0),
    (2, 3, [1, -1, 0, 0], -1),
    (0, 1, [-1, 0, 0, 0], 0),
    (0, 1, [1, 0, 0, 0], -5),
    (0, 1, [0, -1, 0, 0], 0),
    (0, 1, [0, 1, 0, 0], -5),
    (3, 3, [0, 1, 0, 0], -1),
];

/// Two equations whose coefficients have no room in one row.
const LARGE: i64 = (1 << 62) + 1;

const WIDE: [Row; 2] = [(1, 1, [LARGE, 1, 0, 0], -3), (1, 1, [1, LARGE, 0, 0], -5)];

/// 3x - 3y is 1 or 2: no bound ends branches on x and y.
const STRIP: [Row; 2] = [(0, 1, [-3, 3, 0, 0], 1), (0, 1, [3, -3, 0, 0], -2)];

/// Three numbers that aren't negative, 6, 9 and 20 times, add up to 43, which no such sum is.
const FORTY_THREE: [Row; 4] = [
    (1, 1, [6, 9, 20, 0], -43),
    (0, 1, [-1, 0, 0, 0], 0),
    (0, 1, [0, -1, 0, 0], 0),
    (0, 1, [0, 0, -1, 0], 0),
];

/// Three numbers that aren't negative, 6, 9 and 20 times, add up to 41 in one way.
const FORTY_ONE: [Row; 4] = [
    (1, 1, [6, 9, 20, 0], -41),
    (0, 1, [-1, 0, 0, 0], 0),
    (0, 1, [0, -1, 0, 0], 0),
    (0, 1, [0, 0, -1, 0], 0),
];

#[test]
fn residues(rt: HostRuntime) {
    assert!(rt; point(&rt, rt.alloc(), &RESIDUES[..6], 100).is_some());
    assert!(rt; is_refuted(&rt, rt.alloc(), &RESIDUES, 1000));
}

#[test]
fn a_strip_between_two_lines(rt: HostRuntime) {
    assert!(rt; is_refuted(&rt, rt.alloc(), &STRIP, 5));
}

#[test]
fn knapsacks(rt: HostRuntime) {
    assert!(rt; is_refuted(&rt, rt.alloc(), &FORTY_THREE, 100));
    assert!(rt; point(&rt, rt.alloc(), &FORTY_ONE, 100) == Some([2, 1, 1, 0]));
}

#[test]
fn nothing_is_true_at_once(rt: HostRuntime) {
    assert!(rt; point(&rt, rt.alloc(), &[], 1).is_some());
}

/// Whether the decision is evidence of a row with an entry of that size.
fn has_entry(decision: Decision, size: u128) -> bool {
    let has_entry = match &decision {
        Decision::GaveUp(gave_up) => match gave_up.evidence() {
            Evidence::Row { entry, .. } => entry.unsigned_abs() == size,
            _ => false,
        },
        _ => false,
    };
    mem::forget(decision);
    has_entry
}

/// 2^124 + 2^63, the square of 2^62 + 1 less 1.
const SIZE: u128 = 21_267_647_932_558_653_975_684_285_001_340_289_024;

#[test]
fn rows_without_room_are_given_up(rt: HostRuntime) {
    assert!(rt; has_entry(decided(&rt, rt.alloc(), &WIDE, 1), SIZE));
}
