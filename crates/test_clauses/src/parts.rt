//! Guards of many parts, and many names: nothing is expanded.

use crate::guards::clause_of_text;
use crate::made;
use crate::texts::check;
use lin_atoms::Form;
use std::alloc::Global;
use std::mem;
use std::process::Abort;

/// Appends `count` copies of the part to the text.
fn repeat(rt: &impl Abort, text: &mut String, part: &str, count: u32) {
    for _ in 0..count {
        text.push_str(part).expect(rt, "memory");
    }
}

/// The number of parts of a conjunction.
fn parts_of(form: &Form) -> usize {
    match form {
        Form::And(parts) => parts.len(),
        _ => 1,
    }
}

/// Asserts that the guard of a text has 60,000 parts.
fn check_parts(rt: &impl Abort, alloc: Global, begins: &str, ends: &str) {
    let mut text = String::from_str(alloc, begins).expect(rt, "memory");
    repeat(rt, &mut text, " (<= x 7)", 60_000);
    text.push_str(ends).expect(rt, "memory");
    let clause = clause_of_text(rt, alloc, text.as_str());
    let parts = parts_of(&clause.guard);
    mem::forget(clause);
    made::check(rt, parts == 60_000, begins);
}

#[test]
fn a_guard_has_60000_parts(rt: HostRuntime) {
    for (begins, ends) in [
        ("(assert (forall ((x Int)) (=> (and", ") (p x))))"),
        ("(assert (forall ((x Int)) (=>", " (p x))))"),
        ("(assert (forall ((x Int)) (=> (and (p x)", ") q)))"),
    ] {
        check_parts(&rt, rt.alloc(), begins, ends);
    }
}

/// One `let` of a chain: it binds the next name to the operation on this one, twice.
fn link(rt: &impl Abort, alloc: Global, op: &str, number: u32) -> String {
    let next = number.saturating_add(1);
    format!(in alloc; "(let ((a{next} ({op} a{number} a{number}))) ").expect(rt, "memory")
}

/// `count + 1` nested `let`. The first binds a name to this term, and each further one the next
/// name to the operation on the name before it, twice; the last name is the body.
fn chain(rt: &impl Abort, alloc: Global, first: &str, op: &str, count: u32) -> String {
    let mut text = format!(in alloc; "(let ((a0 {first})) ").expect(rt, "memory");
    for number in 0..count {
        let one = link(rt, alloc, op, number);
        text.push_str(one.as_str()).expect(rt, "memory");
    }
    let last = format!(in alloc; "a{count})").expect(rt, "memory");
    text.push_str(last.as_str()).expect(rt, "memory");
    repeat(rt, &mut text, ")", count);
    text
}

/// A chain as a body, or as the argument of a head; then the operation and the term that it begins with.
type Chain<'a> = (&'a str, &'a str, &'a str, &'a str);

fn check_chain(rt: &impl Abort, alloc: Global, row: Chain<'_>, awaited: &str) {
    let (begins, first, op, ends) = row;
    let chain = chain(rt, alloc, first, op, 1900);
    let text = format!(in alloc; "(assert (forall ((x Int)) {begins}{chain}{ends}))");
    check(rt, alloc, op, text.expect(rt, "memory").as_str(), awaited);
}

/// Each last name stands for 2^1900 terms, and a truth value costs one variable.
#[test]
fn a_chain_of_1900_names_is_not_expanded(rt: HostRuntime) {
    for (row, awaited) in [
        (("(=> ", "(< x 1)", "and", " (p x))"), "1 1902 0 head;"),
        (("(=> ", "(< x 1)", "=>", " (p x))"), "1 1902 0 head;"),
        (("(p ", "(+ x 1)", "-", ")"), "1 2 0 head;"),
    ] {
        check_chain(&rt, rt.alloc(), row, awaited);
    }
}
