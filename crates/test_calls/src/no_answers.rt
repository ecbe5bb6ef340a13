//! Verdicts on texts that are no answers.

use crate::told::check;
use std::test::Fail;

/// Two predicates.
const TWO: &str =
    "(set-logic HORN)(declare-fun p (Int) Bool)(declare-fun q () Bool)(assert (p 0))(check-sat)";

#[test]
fn a_text_that_spells_no_answer_is_wrong_at_its_first_fault(rt: HostRuntime) -> Result<(), Fail> {
    let a = rt.alloc();
    let table = [
        (" unknown", "wrong at byte 1"),
        ("", "wrong at byte 0"),
        ("sat ", "wrong at byte 4"),
        (
            "sat ((define-fun p ((x0 Int)) Bool true))",
            "wrong at byte 4",
        ),
        (
            "sat ((define-fun q () Bool true) (define-fun q () Bool true))",
            "wrong at byte 33",
        ),
        (
            "sat ((define-fun q () Bool true) (define-fun p ((x0 Int)) Bool (q)))",
            "wrong at byte 64",
        ),
        (
            "sat ((define-fun q () Bool true) (define-fun p ((x0 Int)) Bool (< x0 y)))",
            "wrong at byte 69",
        ),
        ("unsat (derivation (step 1 1 () (p 0)))", "wrong at byte 18"),
        ("unsat (derivation", "wrong at byte 6"),
    ];
    for (answer, awaited) in table {
        check(&rt, a, TWO, answer, 1, awaited);
    }
    Ok(())
}
