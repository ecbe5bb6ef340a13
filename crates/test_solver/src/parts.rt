//! Conjunctions that neither one row nor branches end: the parts of a node do.

use crate::conjunctions::{Row, is_refuted};

/// 5 divides none of five numbers in a row.
const FIVE: [Row; 5] = [
    (3, 5, [1, 0, 0, 0], 0),
    (3, 5, [1, 0, 0, 0], 1),
    (3, 5, [1, 0, 0, 0], 2),
    (3, 5, [1, 0, 0, 0], 3),
    (3, 5, [1, 0, 0, 0], 4),
];

/// x and y are twice odd numbers, and 4 doesn't divide x + y.
const HALVES: [Row; 5] = [
    (2, 2, [1, 0, 0, 0], 0),
    (3, 4, [1, 0, 0, 0], 0),
    (2, 2, [0, 1, 0, 0], 0),
    (3, 4, [0, 1, 0, 0], 0),
    (3, 4, [1, 1, 0, 0], 0),
];

/// 3 divides none of x, y, their sum and their difference: either both leave the same, or the sum is divided.
const THIRDS: [Row; 4] = [
    (3, 3, [1, 0, 0, 0], 0),
    (3, 3, [0, 1, 0, 0], 0),
    (3, 3, [1, 1, 0, 0], 0),
    (3, 3, [1, -1, 0, 0], 0),
];

/// 5 divides none of x, y, and x with y, twice y and their negatives added.
const FIFTHS: [Row; 6] = [
    (3, 5, [1, 0, 0, 0], 0),
    (3, 5, [0, 1, 0, 0], 0),
    (3, 5, [1, 1, 0, 0], 0),
    (3, 5, [1, -1, 0, 0], 0),
    (3, 5, [1, 2, 0, 0], 0),
    (3, 5, [1, -2, 0, 0], 0),
];

/// 7 divides none of seven numbers in a row.
const SEVEN: [Row; 7] = [
    (3, 7, [1, 0, 0, 0], 0),
    (3, 7, [1, 0, 0, 0], 1),
    (3, 7, [1, 0, 0, 0], 2),
    (3, 7, [1, 0, 0, 0], 3),
    (3, 7, [1, 0, 0, 0], 4),
    (3, 7, [1, 0, 0, 0], 5),
    (3, 7, [1, 0, 0, 0], 6),
];

const REFUTED: [&[Row]; 5] = [&FIVE, &HALVES, &THIRDS, &FIFTHS, &SEVEN];

#[test]
fn parts_end(rt: HostRuntime) {
    for rows in REFUTED {
        assert!(rt; is_refuted(&rt, rt.alloc(), rows, 40));
    }
}
