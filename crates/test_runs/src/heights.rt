//! A derivation that is far higher than the levels that its search closes.

use crate::cases::add;
use crate::runs::{Ends, check_start, run};
use std::alloc::Global;
use std::process::Abort;

/// Adds that d and p of each of these numbers give the predicate.
fn add_rule(rt: &impl Abort, alloc: Global, text: &mut String, head: &str, from: u32, to: u32) {
    add(rt, text, "(assert (=> (and d");
    for number in from..to {
        let part = format!(in alloc; " (p {number})").expect(rt, "memory");
        add(rt, text, part.as_str());
    }
    add(rt, text, ") ");
    add(rt, text, head);
    add(rt, text, "))");
}

const BEGINS: &str =
    "(set-logic HORN)(declare-fun e () Bool)(declare-fun d () Bool)(declare-fun a () Bool)(declare-fun b () Bool)(declare-fun c () Bool)(declare-fun p (Int) Bool)(assert e)(assert (=> e d))(assert (p 0))(assert (forall ((x Int)) (=> (p x) (p (+ x 1)))))";

/// e gives d; p of 0 gives p of 1, and so on; d and p of 0 to 49 give a, of 50 to 99 b, and of 100 to
/// 147 c; and these three give false.
fn script(rt: &impl Abort, alloc: Global) -> String {
    let mut text = String::from_str(alloc, BEGINS).expect(rt, "memory");
    add_rule(rt, alloc, &mut text, "a", 0, 50);
    add_rule(rt, alloc, &mut text, "b", 50, 100);
    add_rule(rt, alloc, &mut text, "c", 100, 148);
    add(rt, &mut text, "(assert (not (and a b c)))(check-sat)");
    text
}

fn lines(text: &[u8]) -> usize {
    text.iter().filter(|byte| **byte == b'\n').count()
}

const FIRST: &[u8] =
    b"unsat\n(derivation\n(step 1 1 () () e)\n(step 2 2 () (1) d)\n(step 3 3 () () (p 0))\n(step 4 4 (0) (3) (p 1))\n";

#[test]
fn a_derivation_of_height_150_is_printed(rt: HostRuntime) {
    let ends = Ends {
        source_step: 4_096,
        source_fails: None,
        sink_step: 4_096,
        sink_fails: None,
    };
    let text = script(&rt, rt.alloc());
    let ran = run(&rt, rt.alloc(), &["solve"], text.as_bytes(), &ends);
    let held = ran.held.as_slice();
    check_start(&rt, "a derivation of height 150", &ran, 0, FIRST);
    assert!(rt; lines(held) == 157, "the number of lines");
    assert!(rt;
        held.ends_with(b"\n(step 154 8 () (53 104 153) false)\n)\n"),
        "the last lines"
    );
}
