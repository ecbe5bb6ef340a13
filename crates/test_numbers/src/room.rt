//! Where a number reaches 2^63 the cube is the model's point, and just below it the elimination's.
//! The variables are x, y and z, with the numbers 0, 1 and 2.

use crate::made::check;
use crate::projected::{Case, EQ, LE, is_right};

const HALF: i64 = 1 << 62;

const TOP: i128 = 1 << 63;

/// 2^63 - 1, and a number that is a seventh of it.
const MOST: i64 = 9223372036854775807;

const SEVENTH: i64 = 1317624576693539401;

const POINTS: [Case; 14] = [
    (
        "a constant in the first list",
        &[(LE, 1, 0, 0, -TOP)],
        [5, 0, 0],
        &[0],
        &[(EQ, 1, 0, 0, -5)],
    ),
    (
        "a constant above 0 in the first list, and the point in the order of what is kept",
        &[(EQ, 1, 1, 0, TOP), (LE, 0, 0, 1, 0)],
        [-HALF, -HALF, -3],
        &[2, 0],
        &[(EQ, 0, 0, 1, 3), (EQ, 1, 0, 0, 1 << 62)],
    ),
    (
        "a coefficient after a rule",
        &[(EQ, 1, -HALF, 0, 0), (LE, 0, 1, -2, 0)],
        [0, 0, 0],
        &[0, 2],
        &[(EQ, 1, 0, 0, 0), (EQ, 0, 0, 1, 0)],
    ),
    (
        "a constant after a rule",
        &[(EQ, 1, -HALF, 0, 0), (LE, 0, 1, 0, -2)],
        [0, 0, 0],
        &[0],
        &[(EQ, 1, 0, 0, 0)],
    ),
    (
        "a divisor after a rule",
        &[(EQ, 1, -HALF, 0, 0), (2, 0, 1, 0, 0)],
        [0, 0, 0],
        &[0],
        &[(EQ, 1, 0, 0, 0)],
    ),
    (
        "a divisor that doesn't divide, after a rule",
        &[(EQ, 1, -HALF, 0, 0), (-2, 0, 1, 0, 1)],
        [0, 0, 0],
        &[0],
        &[(EQ, 1, 0, 0, 0)],
    ),
    (
        "the constant of an equation that is put before the list",
        &[(LE, 1, -2, 0, TOP - 1)],
        [0, HALF, 0],
        &[0],
        &[(EQ, 1, 0, 0, 0)],
    ),
    (
        "the least multiple of two divisors, without a bound",
        &[(HALF, 0, 1, 0, 0), (3, 0, 1, 0, 0)],
        [0, 0, 0],
        &[0],
        &[(EQ, 1, 0, 0, 0)],
    ),
    (
        "the least multiple of two divisors, with a bound from below",
        &[(LE, 1, -1, 0, 0), (HALF, 0, 1, 0, 0), (3, 0, 1, 0, 0)],
        [0, 0, 0],
        &[0],
        &[(EQ, 1, 0, 0, 0)],
    ),
    (
        "the least multiple of two divisors, with a bound from above",
        &[(LE, 1, 1, 0, 0), (HALF, 0, 1, 0, 0), (3, 0, 1, 0, 0)],
        [0, 0, 0],
        &[0],
        &[(EQ, 1, 0, 0, 0)],
    ),
    (
        "a coefficient times a divisor, for a bound from below",
        &[(LE, 1, -2, 0, 0), (HALF, 0, 1, 0, 0)],
        [0, 0, 0],
        &[0],
        &[(EQ, 1, 0, 0, 0)],
    ),
    (
        "a coefficient times a divisor, for a bound from above",
        &[(LE, 1, 2, 0, 0), (HALF, 0, 1, 0, 0)],
        [0, 0, 0],
        &[0],
        &[(EQ, 1, 0, 0, 0)],
    ),
    (
        "the gap of a bound from below",
        &[(LE, 1, -1, 0, 0)],
        [-HALF, HALF, 0],
        &[0],
        &[(EQ, 1, 0, 0, 1 << 62)],
    ),
    (
        "the gap of the further bound from above",
        &[(LE, 0, 1, 0, 0), (LE, -1, 1, 0, 0)],
        [HALF, -HALF, 0],
        &[0],
        &[(EQ, 1, 0, 0, -(1 << 62))],
    ),
];

const CUBES: [Case; 12] = [
    (
        "a constant of 2^63 - 1 in the first list",
        &[(LE, 1, 0, 0, 1 - TOP)],
        [5, 0, 0],
        &[0],
        &[(LE, 1, 0, 0, 1 - TOP)],
    ),
    (
        "a constant of 2^63 in a literal without a variable",
        &[(LE, 0, 0, 0, -TOP), (LE, 1, 0, 0, -3)],
        [3, 0, 0],
        &[0],
        &[(LE, 1, 0, 0, -3)],
    ),
    (
        "a coefficient of 2^63 - 1 after a rule",
        &[(EQ, 1, -HALF, 0, 0), (LE, -2, 1, 0, 0)],
        [0, 0, 0],
        &[0],
        &[(HALF, -1, 0, 0, 0), (LE, -MOST, 0, 0, 0)],
    ),
    (
        "a constant and a divisor of 2^63 - 1 after a rule",
        &[
            (EQ, 1, -7, 0, 0),
            (LE, 0, 1, 0, -(1317624576693539401)),
            (SEVENTH, 0, 1, 0, 0),
        ],
        [0, 0, 0],
        &[0],
        &[(7, -1, 0, 0, 0), (LE, 1, 0, 0, 1 - TOP), (MOST, 1, 0, 0, 0)],
    ),
    (
        "a constant of 2^63 in a literal that loses its variables",
        &[(EQ, 1, -HALF, 0, 0), (LE, -1, HALF, 0, -2)],
        [0, 0, 0],
        &[0],
        &[(HALF, -1, 0, 0, 0)],
    ),
    (
        "the constant 2^63 - 1 of an equation that is put before the list",
        &[(LE, 1, -2, 0, TOP - 1)],
        [1, HALF, 0],
        &[0],
        &[(2, -1, 0, 0, 1 - TOP)],
    ),
    (
        "the least multiple of two divisors where an equation removes the variable",
        &[(EQ, 1, -1, 0, 0), (HALF, 0, 1, 0, 0), (3, 0, 1, 0, 0)],
        [0, 0, 0],
        &[0],
        &[(HALF, 1, 0, 0, 0), (3, 1, 0, 0, 0)],
    ),
    (
        "the least multiple 2^63 - 1 of two divisors",
        &[(7, 0, 1, 0, 0), (MOST, 1, 1, 0, 0)],
        [0, 0, 0],
        &[0],
        &[(MOST, 1, 0, 0, 0)],
    ),
    (
        "a coefficient times a divisor that is 2^63 - 1",
        &[(LE, 1, -7, 0, 0), (SEVENTH, 0, 1, 0, 0)],
        [0, 0, 0],
        &[0],
        &[(7, -1, 0, 0, 0), (MOST, 1, 0, 0, 0)],
    ),
    (
        "the gap 2^63 - 1 of a bound from below",
        &[(LE, 1, -1, 0, 0)],
        [1 - HALF, HALF, 0],
        &[0],
        &[],
    ),
    (
        "the gap 2^63 - 1 of a bound from above",
        &[(LE, -1, 1, 0, 0)],
        [HALF - 1, -HALF, 0],
        &[0],
        &[],
    ),
    (
        "the gap 2^63 of a bound from above beside one from below",
        &[(LE, 1, -1, 0, 0), (LE, 0, 1, 0, -(1 << 62))],
        [-HALF - 1, -HALF, 0],
        &[0],
        &[(LE, 1, 0, 0, -(1 << 62))],
    ),
];

#[test]
fn a_number_of_2_to_the_63_gives_the_point(rt: HostRuntime) {
    for case in POINTS {
        check(&rt, is_right(&rt, rt.alloc(), case), case.0);
    }
}

#[test]
fn no_other_number_gives_the_point(rt: HostRuntime) {
    for case in CUBES {
        check(&rt, is_right(&rt, rt.alloc(), case), case.0);
    }
}
