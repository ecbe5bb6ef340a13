//! Verdicts on derivations, as tables.

use crate::told::check;
use base::Memory;
use std::alloc::Global;
use std::process::Abort;
use std::test::Fail;

/// The verdict on the derivation of these steps.
fn check_steps(rt: &impl Abort, alloc: Global, text: &str, steps: &str, awaited: &str) {
    let answer = spelled(alloc, steps).expect(rt, "memory");
    check(rt, alloc, text, answer.as_str(), 1, awaited);
}

fn spelled(alloc: Global, steps: &str) -> Result<String, Memory> {
    Ok(format!(in alloc; "unsat (derivation {steps})")?)
}

/// Numbers up from 0, and 3 is none.
const COUNTING: &str =
    "(set-logic HORN)(declare-fun p (Int) Bool)(assert (p 0))(assert (forall ((x Int)) (=> (p x) (p (+ x 1)))))(assert (not (p 3)))(check-sat)";

#[test]
fn each_step_rests_on_those_before_it(rt: HostRuntime) -> Result<(), Fail> {
    let a = rt.alloc();
    let table = [
        (
            "(step 1 1 () () (p 0)) (step 2 2 (0) (1) (p 1)) (step 3 2 (1) (2) (p 2)) (step 4 2 (2) (3) (p 3)) (step 5 3 () (4) false)",
            "valid",
        ),
        (
            "(step 1 1 () () (p 0)) (step 2 2 (0) (1) (p 1)) (step 3 2 (1) (2) (p 2)) (step 4 2 (2) (2) (p 3)) (step 5 3 () (4) false)",
            "wrong at step 4",
        ),
        (
            "(step 1 1 () () (p 0)) (step 2 2 (0) (2) (p 1)) (step 3 3 () (2) false)",
            "wrong at step 2",
        ),
        (
            "(step 1 1 () () (p 0)) (step 2 2 (0) (0) (p 1)) (step 3 3 () (2) false)",
            "wrong at step 2",
        ),
        (
            "(step 1 1 () () (p 0)) (step 2 2 (0) () (p 1)) (step 3 3 () (2) false)",
            "wrong at step 2",
        ),
        (
            "(step 1 1 () () (p 0)) (step 2 2 (0) (1 1) (p 1)) (step 3 3 () (2) false)",
            "wrong at step 2",
        ),
        (
            "(step 1 1 () () (p 0)) (step 2 2 (0) (1) (p 2)) (step 3 3 () (1) false)",
            "wrong at step 2",
        ),
        (
            "(step 1 1 () () (p 0)) (step 2 3 () (1) false)",
            "wrong at step 2",
        ),
    ];
    for (steps, awaited) in table {
        check_steps(&rt, a, COUNTING, steps, awaited);
    }
    Ok(())
}

#[test]
fn steps_and_assertions_are_numbered_from_1_and_false_is_last(rt: HostRuntime) -> Result<(), Fail> {
    let a = rt.alloc();
    let table = [
        ("", "wrong at step 0"),
        ("(step 1 1 () () (p 0))", "wrong at step 1"),
        (
            "(step 1 1 () () (p 0)) (step 2 2 (0) (1) (p 1))",
            "wrong at step 2",
        ),
        ("(step 0 1 () () (p 0))", "wrong at step 1"),
        (
            "(step 1 1 () () (p 0)) (step 3 2 (0) (1) (p 1))",
            "wrong at step 2",
        ),
        ("(step 1 0 () () (p 0))", "wrong at step 1"),
        ("(step 1 4 () () (p 0))", "wrong at step 1"),
        ("(step 1 3 () () false)", "wrong at step 1"),
    ];
    for (steps, awaited) in table {
        check_steps(&rt, a, COUNTING, steps, awaited);
    }
    Ok(())
}

/// A flag and a number, and a guard over both.
const FLAG: &str =
    "(set-logic HORN)(declare-fun q () Bool)(declare-fun r (Bool Int) Bool)(assert q)(assert (=> q (r true (- 2))))(assert (forall ((b Bool) (x Int)) (=> (and (r b x) b (< x 0)) false)))(assert (forall ((x Int)) (or (not q) (< x 5) (r false x))))(check-sat)";

#[test]
fn values_are_of_the_sorts_and_guards_are_true(rt: HostRuntime) -> Result<(), Fail> {
    let a = rt.alloc();
    let table = [
        (
            "(step 1 1 () () q) (step 2 2 () (1) (r true (- 2))) (step 3 3 (true (- 2)) (2) false)",
            "valid",
        ),
        (
            "(step 1 1 () () q) (step 2 2 () (1) (r true (- 2))) (step 3 3 ((- 2) true) (2) false)",
            "wrong at step 3",
        ),
        (
            "(step 1 1 () () q) (step 2 2 () (1) (r true (- 2))) (step 3 3 (true) (2) false)",
            "wrong at step 3",
        ),
        (
            "(step 1 1 () () q) (step 2 2 () (1) (r 1 (- 2))) (step 3 3 (true (- 2)) (2) false)",
            "wrong at step 2",
        ),
        (
            "(step 1 1 () () q) (step 2 4 (5) (1) (r false 5)) (step 3 3 (false 5) (2) false)",
            "wrong at step 3",
        ),
        (
            "(step 1 1 () () q) (step 2 4 (4) (1) (r false 4))",
            "wrong at step 2",
        ),
        (
            "(step 1 1 () () q) (step 2 4 (5) (1) (r false 5))",
            "wrong at step 2",
        ),
        ("(step 1 1 () () (r true 0))", "wrong at step 1"),
    ];
    for (steps, awaited) in table {
        check_steps(&rt, a, FLAG, steps, awaited);
    }
    Ok(())
}

/// A sum of three products.
const LARGE: &str =
    "(set-logic HORN)(declare-fun p (Int) Bool)(assert (forall ((x Int) (y Int) (z Int)) (=> (< 0 (+ (* 9223372036854775807 x) (* 9223372036854775807 y) (* 9223372036854775807 z))) (p x))))(assert (not (p 9223372036854775807)))(check-sat)";

#[test]
fn values_are_exact_up_to_128_bits(rt: HostRuntime) -> Result<(), Fail> {
    let a = rt.alloc();
    let most = "9223372036854775807";
    let least = "(- 9223372036854775807)";
    let table = [
        (most, "0", "valid"),
        (most, least, "valid"),
        (least, least, "wrong at step 1"),
        (most, most, "step 1 isn't shown"),
    ];
    for (y, z, awaited) in table {
        let steps = format!(in a;
            "(step 1 1 ({most} {y} {z}) () (p {most})) (step 2 2 () (1) false)"
        )?;
        let steps = steps.as_str();
        check_steps(&rt, a, LARGE, steps, awaited);
    }
    Ok(())
}
