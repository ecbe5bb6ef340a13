//! Verdicts on definitions, as tables.

use crate::told::{check, told};
use base::Memory;
use std::alloc::Global;
use std::process::Abort;
use std::test::Fail;

/// The verdict on this definition of the one predicate `p` of an integer.
fn check_term(rt: &impl Abort, alloc: Global, text: &str, term: &str, awaited: &str) {
    let answer = defining(alloc, term).expect(rt, "memory");
    check(rt, alloc, text, answer.as_str(), 2000, awaited);
}

fn defining(alloc: Global, term: &str) -> Result<String, Memory> {
    Ok(format!(in alloc; "sat ((define-fun p ((x0 Int)) Bool {term}))")?)
}

/// A number that counts up to 10, and stops there.
const BOUNDED: &str =
    "(set-logic HORN)(declare-fun p (Int) Bool)(assert (p 0))(assert (forall ((x Int)) (=> (and (p x) (< x 10)) (p (+ x 1)))))(assert (forall ((x Int)) (=> (and (p x) (> x 10)) false)))(check-sat)";

#[test]
fn a_bound_has_to_hold_to_be_kept_and_to_be_enough(rt: HostRuntime) -> Result<(), Fail> {
    let a = rt.alloc();
    let table = [
        ("(<= x0 10)", "valid"),
        ("(<= x0 9)", "assertion 2 is false at 9"),
        ("(<= x0 11)", "assertion 3 is false at 11"),
        ("false", "assertion 1 is false at"),
        ("(and (<= x0 10) (<= 0 x0))", "valid"),
        ("(not (<= 11 x0))", "valid"),
    ];
    for (term, awaited) in table {
        check_term(&rt, a, BOUNDED, term, awaited);
    }
    Ok(())
}

/// Sums of even numbers.
const EVEN: &str =
    "(set-logic HORN)(declare-fun p (Int) Bool)(assert (p 2))(assert (forall ((x Int) (y Int)) (=> (and (p x) (p y)) (p (+ x y)))))(assert (forall ((x Int)) (=> (and (p x) (= (mod x 2) 1)) false)))(check-sat)";

#[test]
fn truth_is_that_of_all_integers(rt: HostRuntime) -> Result<(), Fail> {
    let a = rt.alloc();
    let table = [
        ("((_ divisible 2) x0)", "valid"),
        ("(= (mod x0 2) 0)", "valid"),
        ("(<= x0 1000000)", "assertion 2 is false"),
    ];
    for (term, awaited) in table {
        let answer = defining(a, term)?;
        let told = told(a, EVEN, answer.as_str(), 2000)?;
        assert!(rt; told.as_str().starts_with(awaited), "{term}");
    }
    Ok(())
}

#[test]
fn a_number_without_room_is_wrong_where_its_term_starts(rt: HostRuntime) -> Result<(), Fail> {
    let a = rt.alloc();
    let text =
        "(set-logic HORN)(declare-fun p (Int Int) Bool)(assert (forall ((x Int)) (=> (p x x) false)))(check-sat)";
    let answer =
        "sat ((define-fun p ((a Int) (b Int)) Bool (< (+ (* 4611686018427387904 a) (* 4611686018427387904 b)) 0)))";
    check(&rt, a, text, answer, 2000, "wrong at byte 45");
    Ok(())
}

/// With a = 2^62 + 1 every pivot makes the entry a*a - 1, which has no room.
const LARGE: &str =
    "(set-logic HORN)(assert (forall ((x Int) (y Int)) (=> (and (= (+ (* 4611686018427387905 x) y) 3) (= (+ x (* 4611686018427387905 y)) 5)) false)))(check-sat)";

#[test]
fn what_is_given_up_is_not_shown(rt: HostRuntime) -> Result<(), Fail> {
    let a = rt.alloc();
    check(&rt, a, LARGE, "sat ()", 2000, "assertion 1 isn't shown");
    Ok(())
}

/// One case distinction shows it, and nothing less.
const APART: &str =
    "(set-logic HORN)(assert (forall ((x Int) (y Int)) (=> (and (distinct x y) (= x y)) false)))(check-sat)";

#[test]
fn an_inner_node_is_needed_where_cases_are(rt: HostRuntime) -> Result<(), Fail> {
    let a = rt.alloc();
    check(&rt, a, APART, "sat ()", 1, "assertion 1 isn't shown");
    check(&rt, a, APART, "sat ()", 2, "valid");
    Ok(())
}

/// A flag stands in an instance as 1 or 0.
const FLAGS: &str =
    "(set-logic HORN)(declare-fun q (Bool Int) Bool)(assert (forall ((b Bool) (x Int)) (=> (= x 7) (q b x))))(check-sat)";

#[test]
fn truth_values_are_told_as_numbers(rt: HostRuntime) -> Result<(), Fail> {
    let a = rt.alloc();
    check(
        &rt,
        a,
        FLAGS,
        "sat ((define-fun q ((a Bool) (b Int)) Bool (and a (= b 7))))",
        2000,
        "assertion 1 is false at 0 7",
    );
    Ok(())
}
