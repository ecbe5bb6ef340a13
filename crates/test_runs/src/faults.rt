//! Sources and sinks that fail at each of their calls in turn: the status, and what was read and written.

use crate::cases::joined;
use crate::runs::{Ends, check_ran, run};
use std::alloc::Global;
use std::process::Abort;
use std::sync::Wait;
use std::thread::Threads;

/// A counter from 0, and 3 gives false.
const COUNTER: &str =
    "(set-logic HORN)\n(declare-fun p (Int) Bool)\n(assert (p 0))\n(assert (forall ((x Int)) (=> (p x) (p (+ x 1)))))\n(assert (not (p 3)))\n(check-sat)\n";

/// The counter's only derivation of false.
const DERIVED: &str =
    "unsat\n(derivation\n(step 1 1 () () (p 0))\n(step 2 2 (0) (1) (p 1))\n(step 3 2 (1) (2) (p 2))\n(step 4 2 (2) (3) (p 3))\n(step 5 3 () (4) false)\n)\n";

const NO_QUESTION: &str = "(error \"kind 18 NoCheckSat at byte 0 after 0 commands\")\n";

const USAGE: &str =
    "usage: chc solve [--workers N] [--units N] [--nodes N] | check [--nodes N] | gen --depth N --seed N\n";

/// How many bytes a sink takes in a turn.
const TAKEN: usize = 5;

/// Ends of which these turns fail.
fn failing(source_fails: Option<u64>, sink_fails: Option<u64>) -> Ends {
    Ends {
        source_step: 16,
        source_fails,
        sink_step: TAKEN,
        sink_fails,
    }
}

/// The script, the marker and the derivation.
fn checked(rt: &impl Abort, alloc: Global) -> String {
    let script = joined(rt, alloc, COUNTER, ";;answer\n");
    joined(rt, alloc, script.as_str(), DERIVED)
}

/// Asserts what comes of a source whose turn of that number fails, where it has so many turns: of one
/// behind the last the run knows nothing.
fn check_source<W: Threads + Wait + Abort + Sync>(
    rt: &W,
    alloc: Global,
    command: &str,
    input: &str,
    turns: u64,
    turn: u64,
) {
    let ends = failing(Some(turn), None);
    let ran = run(rt, alloc, &[command], input.as_bytes(), &ends);
    if turn <= turns {
        check_ran(rt, command, &ran, 3, b"");
        assert!(rt; ran.read.is_empty(), "no byte counts as read");
        assert!(rt; ran.entries.is_none(), "no book is opened");
    } else {
        assert!(rt; ran.status == 0, "{turns} turns are all");
    }
}

#[test]
fn a_source_that_fails_at_any_turn_is_status_3_and_nothing_is_written(rt: HostRuntime) {
    let checked = checked(&rt, rt.alloc());
    for (command, input, turns) in [("solve", COUNTER, 10u64), ("check", checked.as_str(), 20)] {
        for before in 0..turns.saturating_add(1) {
            let turn = before.saturating_add(1);
            check_source(&rt, rt.alloc(), command, input, turns, turn);
        }
    }
}

/// A run, and what comes of it where nothing fails.
#[derive(Drop)]
struct Call<'a> {
    words: &'a [&'a str],
    input: &'a str,
    status: u8,
    output: &'a str,
    has_book: bool,
}

/// Asserts what comes of a sink that holds so many bytes and then fails: where that is all that is to be
/// written, it isn't asked again.
fn check_sink<W: Threads + Wait + Abort + Sync>(
    rt: &W,
    alloc: Global,
    call: &Call<'_>,
    held: usize,
) {
    let turn = (held / TAKEN) as u64;
    let ends = failing(None, Some(turn.saturating_add(1)));
    let ran = run(rt, alloc, call.words, call.input.as_bytes(), &ends);
    let output = call.output.as_bytes();
    if held < output.len() {
        check_ran(rt, call.output, &ran, 4, &output[..held]);
        assert!(rt; !ran.is_refused, "a refusal is told under status 1");
    } else {
        check_ran(rt, call.output, &ran, call.status, output);
    }
    assert!(rt;
        ran.read.as_slice() == call.input.as_bytes(),
        "all was read"
    );
    assert!(rt; ran.entries.is_some() == call.has_book, "the book");
}

/// Runs the words over the input with a sink that fails at each turn in turn.
fn check_sinks<W: Threads + Wait + Abort + Sync>(rt: &W, alloc: Global, call: &Call<'_>) {
    for turn in 0..call.output.len() / TAKEN + 2 {
        check_sink(rt, alloc, call, turn.saturating_mul(TAKEN));
    }
}

#[test]
fn a_sink_that_fails_at_any_turn_is_status_4_and_holds_what_it_took_before(rt: HostRuntime) {
    let checked = checked(&rt, rt.alloc());
    for (words, input, status, output, has_book) in [
        (["solve"].as_slice(), COUNTER, 0, DERIVED, true),
        (&["check"], checked.as_str(), 0, "valid\n", false),
        (
            &["gen", "--depth", "0", "--seed", "7"],
            "",
            0,
            "unsat steps 2 height 2\n",
            true,
        ),
        (&["solve"], "", 1, NO_QUESTION, false),
        (&["gen"], "", 2, USAGE, false),
    ] {
        let call = Call {
            words,
            input,
            status,
            output,
            has_book,
        };
        check_sinks(&rt, rt.alloc(), &call);
    }
}
