//! Which clauses assertions give.

use crate::texts::check_table;

/// What a case shows, its assertions, and for each clause how many variables of its own and in all and how many body atoms it has, and its end.
const CLAUSES: &str = "\
    a guard alone§\
        (assert (< 1 2))§\
        0 0 0 false;¶\
    a head alone§\
        (assert q)§\
        0 0 0 head;¶\
    variables in the order of the text§\
        (assert (forall ((x Int)) (forall ((b Bool) (y Int)) (=> (p x) (r b y)))))§\
        3 3 1 head;¶\
    a let around a clause§\
        (assert (let ((a 1)) (=> (p a) q)))§\
        0 1 1 head;¶\
    bodies before a clause§\
        (assert (forall ((x Int)) (=> (p x) (and q (< x 1)) (=> q (p x)))))§\
        1 1 3 head;¶\
    a disjunction of a negated body, a guard and a head§\
        (assert (forall ((x Int)) (or (not (and (p x) q)) (< x 1) (p x))))§\
        1 1 2 head;¶\
    a disjunction without a head§\
        (assert (or (not q) (< 1 2)))§\
        0 0 1 false;¶\
    a negated body§\
        (assert (not (and q (let ((a 1)) (p a)))))§\
        0 1 2 false;¶\
    a negated existential body§\
        (assert (not (exists ((x Int)) (and (p x) (< x 1)))))§\
        1 1 1 false;¶\
    two assertions§\
        (assert q)(assert (not q))§\
        0 0 0 head;0 0 1 false;¶\
    a guard with a predicate name bound as a number§\
        (assert (forall ((p Int)) (< p 1)))§\
        1 1 0 false;¶\
    neighbours alone of an equation§\
        (assert (forall ((x Int)) (=> (= (* 9223372036854775807 x) 0 (- x)) q)))§\
        1 1 0 head;¶\
    a sum that passes 2^63 before its last term§\
        (assert (forall ((x Int)) (p (+ (* 4611686018427387904 x) (* 4611686018427387904 x) (- (* 4611686018427387904 x))))))§\
        1 2 0 head;¶\
    one place that is met on several lines§\
        (assert (forall ((x Int)) (r (let ((a (< x 1))) a) (abs x))))§\
        1 4 0 head;";

#[test]
fn clauses_have_their_variables_and_atoms(rt: HostRuntime) {
    assert!(rt; check_table(&rt, rt.alloc(), CLAUSES) == 14);
}
