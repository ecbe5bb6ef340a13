//! Conjunctions over unbounded variables that branches don't end: a common divisor of a row or of
//! equations does, or a point at which equations hold.

use crate::conjunctions::{Row, is_refuted, point};

/// x is twice y, and one more than twice z.
const PARITY: [Row; 2] = [(1, 1, [1, -2, 0, 0], 0), (1, 1, [1, 0, -2, 0], -1)];

/// 2 divides x and y and not x + y: an even number of calls twice over is even.
const EVEN: [Row; 3] = [
    (2, 2, [1, 0, 0, 0], 0),
    (2, 2, [0, 1, 0, 0], 0),
    (3, 2, [1, 1, 0, 0], 0),
];

/// An even number times an odd one: y = 3x, x is even, and y + 1 is twice z.
const TIMES: [Row; 3] = [
    (1, 1, [3, -1, 0, 0], 0),
    (2, 2, [1, 0, 0, 0], 0),
    (1, 1, [0, 1, -2, 0], 1),
];

/// x leaves 1 and y leaves 1 by 3, and x + y doesn't leave 2.
const SUM: [Row; 3] = [
    (2, 3, [1, 0, 0, 0], -1),
    (2, 3, [0, 1, 0, 0], -1),
    (3, 3, [1, 1, 0, 0], -2),
];

/// Each of four numbers leaves 1 by 5, and their sum leaves 3.
const FIVE: [Row; 5] = [
    (2, 5, [1, 0, 0, 0], -1),
    (2, 5, [0, 1, 0, 0], -1),
    (2, 5, [0, 0, 1, 0], -1),
    (2, 5, [0, 0, 0, 1], -1),
    (2, 5, [1, 1, 1, 1], -3),
];

/// x moves by 2 and y by 3: 3x + 5y keeps what it leaves by 7.
const KEPT: [Row; 4] = [
    (3, 7, [3, 5, 0, 0], -1),
    (1, 1, [1, 0, -1, 0], 2),
    (1, 1, [0, 1, 0, -1], 3),
    (2, 7, [0, 0, 3, 5], -1),
];

/// The parity as pairs of bounds, in place of equations.
const PAIRS: [Row; 4] = [
    (0, 1, [1, -2, 0, 0], 0),
    (0, 1, [-1, 2, 0, 0], 0),
    (0, 1, [1, 0, -2, 0], -1),
    (0, 1, [-1, 0, 2, 0], 1),
];

/// 3 divides x, x - y is 4 or 5, and 3 divides y.
const BOX: [Row; 4] = [
    (2, 3, [1, 0, 0, 0], 0),
    (2, 3, [0, 1, 0, 0], 0),
    (0, 1, [1, -1, 0, 0], -5),
    (0, 1, [-1, 1, 0, 0], 4),
];

/// The box with the bounds of twice the difference, which are rounded first: from 7 to 11.
const TWICE: [Row; 4] = [
    (2, 3, [1, 0, 0, 0], 0),
    (2, 3, [0, 1, 0, 0], 0),
    (0, 1, [2, -2, 0, 0], -11),
    (0, 1, [-2, 2, 0, 0], 7),
];

/// 4 divides x + 2 and x is 12z + 1.
const MODULI: [Row; 2] = [(2, 4, [1, 0, 0, 0], 2), (1, 1, [1, 0, -12, 0], -1)];

/// z is odd and even: no row of the first vertex says both.
const TOGETHER: [Row; 2] = [(1, 1, [2, 0, 1, 0], -1), (1, 1, [0, 2, 1, 0], 0)];

/// z is at least 1, and at most twice x - y and 2 less than that: two cuts put x - y above 0 and below 1.
const WEDGE: [Row; 3] = [
    (0, 1, [-2, 2, 1, 0], 0),
    (0, 1, [2, -2, 1, 0], -2),
    (0, 1, [0, 0, -1, 0], 1),
];

/// 9 divides x and 6 divides y, so 3 divides x + y, which is 1 or 2. No cut is made of a row in which a free
/// quotient has 9 or 6 as its entry, and the fraction the other.
const NINES: [Row; 4] = [
    (2, 9, [1, 0, 0, 0], 0),
    (2, 6, [0, 1, 0, 0], 0),
    (0, 1, [-1, -1, 0, 0], 1),
    (0, 1, [1, 1, 0, 0], -2),
];

/// 15 divides x and 10 divides y, and x - y is from 1 to 4.
const FIFTEENS: [Row; 4] = [
    (2, 15, [1, 0, 0, 0], 0),
    (2, 10, [0, 1, 0, 0], 0),
    (0, 1, [-1, 1, 0, 0], 1),
    (0, 1, [1, -1, 0, 0], -4),
];

/// 15 divides x and 10 divides y, and x - y is the sum of z, from 0 to 1, and u, from 1 to 3. Only the
/// bounds of both together leave no multiple of 5.
const TWO: [Row; 7] = [
    (2, 15, [1, 0, 0, 0], 0),
    (2, 10, [0, 1, 0, 0], 0),
    (1, 1, [1, -1, -1, -1], 0),
    (0, 1, [0, 0, -1, 0], 0),
    (0, 1, [0, 0, 1, 0], -1),
    (0, 1, [0, 0, 0, -1], 1),
    (0, 1, [0, 0, 0, 1], -3),
];

/// 3 divides two sums, and not what both and 3y + 3u add up to. No row of the vertex says so.
const RESIDUE: [Row; 4] = [
    (2, 3, [3, 2, 1, 2], 1),
    (2, 3, [2, 2, 0, 2], 2),
    (3, 3, [5, 7, 1, 7], 3),
    (0, 1, [0, 0, 1, 0], 5),
];

/// x and y are from 0 to 50, z is 0 or 1, and 12x - 4y + z is 2 or 3. All columns lie between bounds, so one
/// of the entries has to be tried: 4 divides those of x and y.
const BOUNDED: [Row; 8] = [
    (0, 1, [1, 0, 0, 0], -50),
    (0, 1, [-1, 0, 0, 0], 0),
    (0, 1, [0, 1, 0, 0], -50),
    (0, 1, [0, -1, 0, 0], 0),
    (0, 1, [0, 0, 1, 0], -1),
    (0, 1, [0, 0, -1, 0], 0),
    (0, 1, [-12, 4, -1, 0], 2),
    (0, 1, [12, -4, 1, 0], -3),
];

const ALL: [&[Row]; 17] = [
    &PARITY, &EVEN, &TIMES, &SUM, &FIVE, &KEPT, &PAIRS, &BOX, &TWICE, &MODULI, &TOGETHER, &WEDGE,
    &NINES, &FIFTEENS, &TWO, &RESIDUE, &BOUNDED,
];

/// 1009x is 1 more than 1013y, and x + y is at least 100.
const LINE: [Row; 2] = [(1, 1, [1009, -1013, 0, 0], -1), (0, 1, [-1, -1, 0, 0], 100)];

/// x leaves 2 by 101, 4 by 103 and 5 by 107, and is at least 1000.
const REMAINDERS: [Row; 4] = [
    (2, 101, [1, 0, 0, 0], -2),
    (2, 103, [1, 0, 0, 0], -4),
    (2, 107, [1, 0, 0, 0], -5),
    (0, 1, [-1, 0, 0, 0], 1000),
];

const POINTS: [&[Row]; 2] = [&LINE, &REMAINDERS];

/// 3x - 2y is 1 or 2, and y isn't below 0. At the vertex x is a third and y is 0, and no rounding of that is
/// a point: one is moved to (1, 1).
const STRIP: [Row; 4] = [
    (0, 1, [-3, 2, 0, 0], 1),
    (0, 1, [3, -2, 0, 0], -2),
    (0, 1, [0, -1, 0, 0], 0),
    (0, 1, [1, 1, 0, 0], -7),
];

/// x is 6y - 8z + 9, and from 0 to 2. Steps by (6, 1, 0) and by (-8, 0, 1) keep the equation, and so does their
/// sum, which changes x by 2 alone.
const NARROW: [Row; 3] = [
    (1, 1, [1, -6, 8, 0], -9),
    (0, 1, [1, 0, 0, 0], -2),
    (0, 1, [-1, 0, 0, 0], 0),
];

/// x + 2y + 2z is -4, z is below x and at least 2x + 2.
const SLANTED: [Row; 3] = [
    (1, 1, [1, 2, 2, 0], 4),
    (0, 1, [-1, 0, 1, 0], 1),
    (0, 1, [2, 0, -1, 0], 2),
];

const SHORT: [&[Row]; 2] = [&NARROW, &SLANTED];

/// x is at least 3y + 4 and at most y + 1. At the vertex x is -1/2 and y is -3/2, and
/// (-1, -2) is a point.
const BELOW: [Row; 2] = [(0, 1, [-1, 3, 0, 0], 4), (0, 1, [1, -1, 0, 0], -1)];

/// 5y is at least 2x + 1, and y at most x. At the vertex both are a third, and (1, 1) is a point.
const ABOVE: [Row; 2] = [(0, 1, [2, -5, 0, 0], 1), (0, 1, [-1, 1, 0, 0], 0)];

const ROUNDED: [&[Row]; 2] = [&BELOW, &ABOVE];

#[test]
fn common_divisors_end(rt: HostRuntime) {
    for rows in ALL {
        assert!(rt; is_refuted(&rt, rt.alloc(), rows, 1));
    }
}

#[test]
fn equations_have_points(rt: HostRuntime) {
    for rows in POINTS {
        assert!(rt; point(&rt, rt.alloc(), rows, 8).is_some());
    }
}

#[test]
fn points_are_moved(rt: HostRuntime) {
    assert!(rt; point(&rt, rt.alloc(), &STRIP, 1).is_some());
}

#[test]
fn short_combinations_lead_to_points(rt: HostRuntime) {
    for rows in SHORT {
        assert!(rt; point(&rt, rt.alloc(), rows, 1).is_some());
    }
}

/// Moves find neither point: of two after which bounds lack as much the first one is made, and what it breaks
/// leads back.
#[test]
fn vertices_are_rounded_both_ways(rt: HostRuntime) {
    for rows in ROUNDED {
        assert!(rt; point(&rt, rt.alloc(), rows, 1).is_some());
    }
}
