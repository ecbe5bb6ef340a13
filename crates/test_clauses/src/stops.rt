//! Which stop comes, and where.

use crate::defined_texts::formula_under;
use crate::made::check;
use clause_normal::NormalStop;
use std::alloc::Global;
use std::mem;
use std::process::Abort;

/// How many variables the formula of the assertion has, over p with two arguments, under the definition
/// by the term, or why there is none. What stands before the assertion has 46 bytes.
fn told(rt: &impl Abort, alloc: Global, assertion: &str, term: &str) -> String {
    let text = format!(in alloc;
        "(set-logic HORN)(declare-fun p (Int Int) Bool){assertion}(check-sat)"
    ).expect(rt, "memory");
    let (text, term) = (text.as_bytes(), term.as_bytes());
    assert!(rt; text.len() <= 1 << 20 && term.len() <= 1 << 20);
    let found = formula_under(rt, alloc, text, term);
    let (what, number) = match &found {
        Ok((_, count)) => ("", u64::from(*count)),
        Err(NormalStop::TooWide { offset }) => ("wide at ", *offset),
        Err(NormalStop::Count { offset }) => ("many at ", *offset),
        Err(NormalStop::Memory) => panic!(rt; "memory"),
    };
    mem::forget(found);
    format!(in alloc; "{what}{number}").expect(rt, "memory")
}

#[test]
fn coefficients_of_an_argument_that_stands_twice_add_up(rt: HostRuntime) {
    let a = rt.alloc();
    let term = "(< (+ (* 4611686018427387904 a) (* 4611686018427387904 b)) 0)";
    let table = [
        ("(p x y)", "2"),
        ("(p x x)", "wide at 3"),
        ("(p (+ x 1) (+ x 1))", "4"),
    ];
    for (atom, awaited) in table {
        let text = format!(in a; "(assert (forall ((x Int) (y Int)) (not {atom})))").expect(
            &rt, "memory",
        );
        check(
            &rt,
            told(&rt, a, text.as_str(), term).as_str() == awaited,
            atom,
        );
    }
}

/// A conjunction with `count` magnitudes and a last part.
fn magnitudes(rt: &impl Abort, alloc: Global, count: usize, last: &str) -> String {
    let mut term = String::from_str(alloc, "(and").expect(rt, "memory");
    for _ in 0..count {
        term.push_str(" (< (abs a) 9)").expect(rt, "memory");
    }
    term.push_str(last).expect(rt, "memory");
    term.push_str(")").expect(rt, "memory");
    term
}

#[test]
fn there_are_2048_variables_in_all_and_widths_come_first(rt: HostRuntime) {
    let a = rt.alloc();
    let text = "(assert (forall ((x Int) (y Int)) (not (p x y))))";
    let wide = " (< (+ (* 9223372036854775807 b) b) 0)";
    let table = [
        (2046, "", "2048"),
        (2047, "", "many at 46"),
        (2047, wide, "wide at 28666"),
    ];
    for (count, last, awaited) in table {
        let term = magnitudes(&rt, a, count, last);
        check(
            &rt,
            told(&rt, a, text, term.as_str()).as_str() == awaited,
            awaited,
        );
    }
}
