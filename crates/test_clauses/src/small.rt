//! More small clauses against the values of their terms: nested names, nested units, denied relations,
//! and each form of a clause.

use crate::values::check_all;

/// What a case shows, and an assertion over two variables with two auxiliary ones at most, whose values are from -12 to 12.
const CASES: &str = "\
    a let under a let under a quantifier§\
        (forall ((x Int) (y Int)) (let ((a (+ x 1))) (let ((b (- a y))) (=> (p a) (< b 3) (p b)))))¶\
    a let between two quantifiers§\
        (forall ((x Int)) (let ((a (* 2 x))) (forall ((y Int)) (=> (< a y) (p y)))))¶\
    a name that is used on several lines§\
        (forall ((x Int) (y Int)) (let ((c (< x y))) (=> c (or c (= x 0)) (not (and c (= y 0))) q)))¶\
    a name of a name§\
        (forall ((b Bool) (y Int)) (let ((c b)) (let ((d c)) (=> d (< y 0) q))))¶\
    names that change places§\
        (forall ((x Int) (y Int)) (=> (let ((x y) (y x)) (< x (* 2 y))) q))¶\
    an exclusive or of three§\
        (forall ((b Bool) (y Int)) (=> (xor b (< y 0) true) q))¶\
    an exclusive or of an exclusive or§\
        (forall ((b Bool) (y Int)) (=> (not (xor b (xor b (< y 1)))) q))¶\
    a denied chain of truth values§\
        (forall ((b Bool) (c Bool)) (=> (not (= b c (not b))) q))¶\
    three truth values that are not distinct§\
        (forall ((b Bool) (c Bool)) (=> (not (distinct b c true)) b q))¶\
    denied chains of integers§\
        (forall ((x Int) (y Int)) (=> (not (= x y 0)) (not (<= x y 2)) q))¶\
    three integers that are not distinct§\
        (forall ((x Int) (y Int)) (=> (not (distinct x y 1)) (not ((_ divisible 3) (- x y))) q))¶\
    an implication of three as a body§\
        (forall ((x Int) (y Int)) (=> (=> (< x 0) (< y 0) (= x y)) (not (=> (< x y) (> x 2))) q))¶\
    choices between truth values in a choice§\
        (forall ((x Int) (y Int)) (=> (ite (< x 0) (ite (< y 0) true (= x (- 1))) (> y 2)) q))¶\
    a denied choice§\
        (forall ((x Int) (y Int)) (=> (not (ite (= x y) (< x 0) (> y 1))) q))¶\
    a choice in a choice of integers§\
        (forall ((b Bool) (y Int)) (=> (< (ite b (ite b y 3) (- y)) 1) q))¶\
    a magnitude of a magnitude§\
        (forall ((x Int) (y Int)) (=> (= (abs (- (abs x) 3)) y) q))¶\
    a quotient of a sum by a negative number§\
        (forall ((x Int) (y Int)) (=> (< (div (- (+ x y) 1) (- 2)) x) q))¶\
    remainders in an atom and in a guard§\
        (forall ((x Int) (y Int)) (=> (p (mod x 4)) (= (mod y (- 3)) 1) q))¶\
    a product of a quotient and constants§\
        (forall ((x Int) (y Int)) (=> (= (* 3 (div x 2) (- 1)) y) q))¶\
    a magnitude that is a constant factor§\
        (forall ((x Int) (y Int)) (=> (< (* (abs (- 3)) x) y) q))¶\
    arguments of a head that are no variables§\
        (forall ((x Int) (y Int)) (=> (< x y) (r (< x 0) (+ x y))))¶\
    true as an argument§\
        (forall ((x Int) (y Int)) (=> (r true x) (>= (- x y 3) 0 (- 5)) (p y)))¶\
    a disjunction with a negated body, a guard and a head§\
        (forall ((x Int) (y Int)) (or (not (and (p x) (< x 2))) (= y 3) (p y)))¶\
    a denied existential body§\
        (not (exists ((b Bool) (y Int)) (and (r b y) (or b (< 0 y)))))";

#[test]
fn points_of_more_guards_are_instances(rt: HostRuntime) {
    assert!(rt; check_all(&rt, rt.alloc(), CASES) == 24);
}
