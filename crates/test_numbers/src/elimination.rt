//! Each rule of the elimination, with its cube worked out by hand. The variables are x, y and z,
//! with the numbers 0, 1 and 2.

use crate::made::check;
use crate::projected::{Case, EQ, LE, are_equal, is_right, literals, projected};
use std::mem;

const CASES: [Case; 26] = [
    (
        "a variable that occurs nowhere",
        &[(LE, 1, 0, 0, -3)],
        [3, 9, 9],
        &[0],
        &[(LE, 1, 0, 0, -3)],
    ),
    (
        "literals without a variable are left out",
        &[(LE, 0, 0, 0, -5), (LE, 1, 0, 0, -3), (2, 0, 0, 0, 4)],
        [3, 0, 0],
        &[0],
        &[(LE, 1, 0, 0, -3)],
    ),
    (
        "x = 2y leaves in its place that 2 divides it, and multiplies the others by 2",
        &[(LE, 0, 3, 0, -10), (EQ, 1, -2, 0, 0), (7, 0, 1, 0, 5)],
        [4, 2, 0],
        &[0],
        &[(LE, 3, 0, 0, -20), (2, -1, 0, 0, 0), (14, 1, 0, 0, 10)],
    ),
    (
        "x = 2y, and 3 doesn't divide y + 1",
        &[(EQ, 1, -2, 0, 0), (-3, 0, 1, 0, 1)],
        [2, 1, 0],
        &[0],
        &[(2, -1, 0, 0, 0), (-6, 1, 0, 0, 2)],
    ),
    (
        "an equation with the coefficient 1 goes",
        &[(EQ, 1, 1, 0, -6), (LE, 1, -1, 0, 0)],
        [2, 4, 0],
        &[0],
        &[(LE, 2, 0, 0, -6)],
    ),
    (
        "the first of two equations",
        &[(EQ, -1, 2, 0, 0), (EQ, -1, 3, 0, -2)],
        [4, 2, 0],
        &[0],
        &[(2, -1, 0, 0, 0), (EQ, 1, 0, 0, -4)],
    ),
    (
        "the same two the other way round",
        &[(EQ, -1, 3, 0, -2), (EQ, -1, 2, 0, 0)],
        [4, 2, 0],
        &[0],
        &[(3, -1, 0, 0, -2), (EQ, -1, 0, 0, 4)],
    ),
    (
        "an equation before a bound that is nearer",
        &[(LE, 1, -1, 0, 0), (EQ, 0, 1, 0, -5)],
        [5, 5, 0],
        &[0],
        &[(LE, 1, 0, 0, -5)],
    ),
    (
        "x <= 2y with the gap 7, of which 1 is left modulo 2",
        &[(LE, 1, -2, 0, 0), (LE, 0, 1, 0, -7)],
        [3, 5, 0],
        &[0],
        &[(2, -1, 0, 0, -1), (LE, 1, 0, 0, -13)],
    ),
    (
        "the nearer of two bounds from below",
        &[(LE, 0, -1, 0, 0), (LE, 1, -1, 0, 0)],
        [2, 5, 0],
        &[0],
        &[(LE, -1, 0, 0, 0)],
    ),
    (
        "the first of two that are as near",
        &[(LE, 1, -1, 0, 0), (LE, 0, -1, 0, 2)],
        [2, 5, 0],
        &[0],
        &[(LE, -1, 0, 0, 2)],
    ),
    (
        "the same two the other way round",
        &[(LE, 0, -1, 0, 2), (LE, 1, -1, 0, 0)],
        [2, 5, 0],
        &[0],
        &[(LE, 1, 0, 0, -2)],
    ),
    (
        "the gap 6 over 2 is less than the gap 4 over 1",
        &[(LE, 0, -1, 0, -1), (LE, 1, -2, 0, 0)],
        [0, 3, 0],
        &[0],
        &[(2, -1, 0, 0, 0), (LE, -1, 0, 0, -2)],
    ),
    (
        "the gap 5 is 2 modulo the divisor 3",
        &[(LE, 1, -1, 0, 0), (3, 0, 1, 0, 0)],
        [1, 6, 0],
        &[0],
        &[(3, 1, 0, 0, 2)],
    ),
    (
        "the gap 19 is 7 modulo 12, the least multiple of 4 and 6",
        &[(LE, 1, -1, 0, 0), (4, 0, 1, 0, 0), (-6, 0, 1, 0, -1)],
        [1, 20, 0],
        &[0],
        &[(4, 1, 0, 0, 7), (-6, 1, 0, 0, 6)],
    ),
    (
        "a divisor of a literal without the variable counts for nothing",
        &[(LE, 1, -1, 0, 0), (3, 0, 1, 0, 0), (5, 1, 0, 0, -1)],
        [1, 6, 0],
        &[0],
        &[(3, 1, 0, 0, 2), (5, 1, 0, 0, -1)],
    ),
    (
        "the gap 17 is 5 modulo 6, the coefficient 2 times the divisor 3",
        &[(LE, 1, -2, 0, 0), (3, 0, 1, 0, 0)],
        [1, 9, 0],
        &[0],
        &[(2, -1, 0, 0, -5), (6, 1, 0, 0, 5)],
    ),
    (
        "a bound from below before one from above that is nearer",
        &[(LE, 0, 1, 0, -7), (LE, 1, -1, 0, 0)],
        [3, 7, 0],
        &[0],
        &[(LE, 1, 0, 0, -7)],
    ),
    (
        "y <= x alone, with the gap 2 modulo the divisor 3",
        &[(LE, -1, 1, 0, 0), (3, 0, 1, 0, 0)],
        [5, 3, 0],
        &[0],
        &[(3, 1, 0, 0, -2)],
    ),
    (
        "the nearer of two bounds from above",
        &[(LE, 0, 1, 0, -9), (LE, -1, 2, 0, 0)],
        [6, 2, 0],
        &[0],
        &[(2, -1, 0, 0, 0), (LE, 1, 0, 0, -18)],
    ),
    (
        "divisors alone: y is 7 modulo 12",
        &[(4, 1, 1, 0, 0), (6, 0, 1, 0, -1)],
        [1, 7, 0],
        &[0],
        &[(4, 1, 0, 0, 7)],
    ),
    (
        "the same at y = -5, which is 7 modulo 12",
        &[(4, 1, 1, 0, 0), (6, 0, 1, 0, -1)],
        [1, -5, 0],
        &[0],
        &[(4, 1, 0, 0, 7)],
    ),
    (
        "z before y, by bounds",
        &[(LE, 1, -1, 0, 0), (LE, 0, 1, -1, 0), (LE, 0, 0, 1, -9)],
        [1, 4, 8],
        &[0],
        &[(LE, 1, 0, 0, -9)],
    ),
    (
        "z before y, by an equation and then by the divisor that it leaves",
        &[(EQ, 1, 2, -3, 0)],
        [1, 1, 1],
        &[0],
        &[(3, -1, 0, 0, -2)],
    ),
    (
        "the variable in the middle alone",
        &[(LE, 1, -1, 0, 0), (LE, 0, 1, -1, 0)],
        [1, 2, 3],
        &[2, 0],
        &[(LE, 1, 0, -1, 0)],
    ),
    (
        "no variable is kept",
        &[(LE, 1, -1, 0, 0), (LE, 0, 1, -1, 0)],
        [1, 2, 3],
        &[],
        &[],
    ),
];

#[test]
fn each_rule_gives_the_cube_worked_out_by_hand(rt: HostRuntime) {
    for case in CASES {
        check(&rt, is_right(&rt, rt.alloc(), case), case.0);
    }
}

#[test]
fn a_projection_keeps_what_it_was_given(rt: HostRuntime) {
    let alloc = rt.alloc();
    let lits = literals(&rt, alloc, &[(LE, 1, -2, 0, 0), (LE, 0, 1, 0, -7)]);
    let first = projected(&rt, alloc, lits.as_slice(), &[3, 5], &[0]);
    let made = first.copy(alloc).expect(&rt, "memory");
    assert!(rt; are_equal(made.lits(), lits.as_slice()));
    assert!(rt; made.model() == [3, 5].as_slice());
    assert!(rt; made.keep() == [0].as_slice());
    assert!(rt; made.cube().len() == 2);
    mem::forget(lits);
    mem::forget(first);
    mem::forget(made);
}
