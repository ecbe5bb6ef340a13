//! A script that is cut short behind each of its bytes: what a front end leaves that dies while it writes.

use crate::cases::error_line;
use crate::runs::{SMALL, check_ran, check_start, run};
use std::alloc::Global;
use std::process::Abort;

/// A counter that stops at 10 and never passes it.
const SCRIPT: &[u8] =
    b"(set-logic HORN)\n(declare-fun p (Int) Bool)\n(assert (p 0))\n(assert (forall ((x Int)) (=> (and (p x) (< x 10)) (p (+ x 1)))))\n(assert (forall ((x Int)) (=> (and (p x) (> x 10)) false)))\n(check-sat)\n";

/// The bytes at which its commands begin, and those behind their ends.
const COMMANDS: [(usize, usize); 6] = [
    (0, 16),
    (17, 43),
    (44, 58),
    (59, 124),
    (125, 184),
    (185, 196),
];

/// What its first bytes are refused for: they end inside a command, or behind one that isn't the question.
fn told(rt: &impl Abort, alloc: Global, bytes: usize) -> String {
    let mut whole: usize = 0;
    for (begin, end) in COMMANDS {
        if begin < bytes && bytes < end {
            let told = format!(in alloc; "kind 3 Unclosed at byte {begin} after {whole} commands");
            return told.expect(rt, "memory");
        }
        if end <= bytes {
            whole = whole.saturating_add(1);
        }
    }
    let told = format!(in alloc; "kind 18 NoCheckSat at byte {bytes} after {whole} commands");
    told.expect(rt, "memory")
}

#[test]
fn a_script_is_refused_wherever_it_is_cut_before_its_question(rt: HostRuntime) {
    assert!(rt; SCRIPT.len() == 197, "the script's length");
    for bytes in 0..196 {
        let told = told(&rt, rt.alloc(), bytes);
        let line = error_line(&rt, rt.alloc(), told.as_str());
        let ran = run(&rt, rt.alloc(), &["solve"], &SCRIPT[..bytes], &SMALL);
        check_ran(&rt, told.as_str(), &ran, 1, line.as_bytes());
    }
    let ran = run(&rt, rt.alloc(), &["solve"], &SCRIPT[..196], &SMALL);
    check_start(&rt, "all but the last line feed", &ran, 0, b"sat\n");
}
