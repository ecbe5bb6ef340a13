//! Verdicts on definitions that add up truth values as numbers: each is a choice of two cases, and there
//! are many.

use crate::told::{check, told};
use base::Memory;
use std::alloc::Global;
use std::test::Fail;

/// A switch is turned and counted, and the switches change places. So as many of them are on as turns
/// were made, up to an even number; with all of them off again their number can't be 1.
const SWITCHES: &str =
    "(set-logic HORN)(declare-fun p (Bool Bool Bool Bool Bool Bool Bool Bool Bool Bool Int) Bool)(assert (p false false false false false false false false false false 0))(assert (forall ((a Bool) (b Bool) (c Bool) (d Bool) (e Bool) (f Bool) (g Bool) (h Bool) (i Bool) (j Bool) (x Int)) (=> (p a b c d e f g h i j x) (p (not a) b c d e f g h i j (+ x 1)))))(assert (forall ((a Bool) (b Bool) (c Bool) (d Bool) (e Bool) (f Bool) (g Bool) (h Bool) (i Bool) (j Bool) (x Int)) (=> (p a b c d e f g h i j x) (p b c d e f g h i j a x))))(assert (forall ((x Int)) (=> (p false false false false false false false false false false x) (= x 1) false)))(check-sat)";

/// The definition of the predicate by this term.
fn defining(alloc: Global, term: &str) -> Result<String, Memory> {
    Ok(format!(in alloc;
        "sat ((define-fun p ((a Bool) (b Bool) (c Bool) (d Bool) (e Bool) (f Bool) (g Bool) (h Bool) (i Bool) (j Bool) (x Int)) Bool {term}))"
    )?)
}

#[test]
fn truth_values_that_are_added_up_are_no_cases(rt: HostRuntime) -> Result<(), Fail> {
    let a = rt.alloc();
    let table = [
        "((_ divisible 2) (+ x (ite a 1 0) (ite b 1 0) (ite c 1 0) (ite d 1 0) (ite e 1 0) (ite f 1 0) (ite g 1 0) (ite h 1 0) (ite i 1 0) (ite j 1 0)))",
        "((_ divisible 2) (+ x (ite a 0 1) (ite b 0 1) (ite c 0 1) (ite d 0 1) (ite e 0 1) (ite f 0 1) (ite g 0 1) (ite h 0 1) (ite i 0 1) (ite j 0 1)))",
        "((_ divisible 2) (+ x (ite a 0 1) (ite b 1 0) (ite c 0 1) (ite d 1 0) (ite e 0 1) (ite f 1 0) (ite g 0 1) (ite h 1 0) (ite i 1 0) (ite j 1 0)))",
    ];
    for term in table {
        let answer = defining(a, term)?;
        check(&rt, a, SWITCHES, answer.as_str(), 50, "valid");
    }
    Ok(())
}

#[test]
fn a_value_that_is_left_out_or_turned_is_seen(rt: HostRuntime) -> Result<(), Fail> {
    let a = rt.alloc();
    let table = [
        (
            "((_ divisible 2) (+ x (ite a 1 0) (ite b 1 0) (ite c 1 0) (ite d 1 0) (ite e 1 0) (ite f 1 0) (ite g 1 0) (ite h 1 0) (ite i 1 0)))",
            "assertion 3 is false at",
        ),
        (
            "((_ divisible 2) (+ x (ite b 1 0) (ite c 1 0) (ite d 1 0) (ite e 1 0) (ite f 1 0) (ite g 1 0) (ite h 1 0) (ite i 1 0) (ite j 1 0)))",
            "assertion 2 is false at",
        ),
        (
            "((_ divisible 2) (+ x (ite a 0 1) (ite b 1 0) (ite c 1 0) (ite d 1 0) (ite e 1 0) (ite f 1 0) (ite g 1 0) (ite h 1 0) (ite i 1 0) (ite j 1 0)))",
            "assertion 1 is false at",
        ),
    ];
    for (term, awaited) in table {
        let answer = defining(a, term)?;
        let told = told(a, SWITCHES, answer.as_str(), 50)?;
        assert!(rt; told.as_str().starts_with(awaited), "{term}");
    }
    Ok(())
}
