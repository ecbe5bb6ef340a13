//! Clauses at the limits, and one past each.

use crate::texts::check;
use std::alloc::Global;
use std::process::Abort;

const COUNT: &str = "kind 17 at byte 96 after 4 commands";

fn add(rt: &impl Abort, text: &mut String, part: &str) {
    text.push_str(part).expect(rt, "memory");
}

fn add_variable(rt: &impl Abort, alloc: Global, text: &mut String, number: usize) {
    let part = format!(in alloc; "(x{number} Int)").expect(rt, "memory");
    add(rt, text, part.as_str());
}

/// An assertion over the given number of variables.
fn quantified(rt: &impl Abort, alloc: Global, variables: usize, body: &str) -> String {
    let mut text = String::from_str(alloc, "(assert (forall (").expect(rt, "memory");
    for number in 0..variables {
        add_variable(rt, alloc, &mut text, number);
    }
    add(rt, &mut text, ") ");
    add(rt, &mut text, body);
    add(rt, &mut text, "))");
    text
}

#[test]
fn a_clause_has_1024_variables_of_its_own(rt: HostRuntime) {
    for (count, body, awaited) in [
        (1024, "q", "1024 1024 0 head;"),
        (1025, "q", COUNT),
        (1025, "(not q)", COUNT),
    ] {
        let text = quantified(&rt, rt.alloc(), count, body);
        check(&rt, rt.alloc(), "variables", text.as_str(), awaited);
    }
}

/// An implication whose premise has `count` copies of this part, and a last one.
fn implied(rt: &impl Abort, alloc: Global, count: usize, part: &str, last: &str) -> String {
    let front = "(assert (forall ((x Int)) (=> (and true";
    let mut text = String::from_str(alloc, front).expect(rt, "memory");
    for _ in 0..count {
        add(rt, &mut text, part);
    }
    add(rt, &mut text, last);
    add(rt, &mut text, ") (p x))))");
    text
}

#[test]
fn a_clause_has_64_body_atoms(rt: HostRuntime) {
    for (count, awaited) in [(64, "1 1 64 head;"), (65, COUNT)] {
        let text = implied(&rt, rt.alloc(), count, " (p x)", "");
        check(&rt, rt.alloc(), "body atoms", text.as_str(), awaited);
    }
}

const AUXILIARY: &str = " (< (abs x) 9)";

#[test]
fn a_clause_has_2048_variables_in_all(rt: HostRuntime) {
    for (count, awaited) in [(2047, "1 2048 0 head;"), (2048, COUNT)] {
        let text = implied(&rt, rt.alloc(), count, AUXILIARY, "");
        check(
            &rt,
            rt.alloc(),
            "auxiliary variables",
            text.as_str(),
            awaited,
        );
    }
}

/// The beginning has 96 bytes, the assertion 39 before its parts, each auxiliary one of which has 14.
#[test]
fn a_width_comes_before_a_number_past_a_limit(rt: HostRuntime) {
    let wide = " (<= (* 9223372036854775807 x) (- x))";
    for (count, part, awaited) in [
        (2047, AUXILIARY, "kind 15 at byte 28794 after 4 commands"),
        (2048, AUXILIARY, "kind 15 at byte 28808 after 4 commands"),
        (65, " (p x)", "kind 15 at byte 526 after 4 commands"),
    ] {
        let text = implied(&rt, rt.alloc(), count, part, wide);
        check(&rt, rt.alloc(), "a width", text.as_str(), awaited);
    }
}
