//! Texts at the limits of what is read, and one past each.

use crate::cases::{add, error_line, joined, repeated};
use crate::runs::{Ends, check_start, run};
use std::alloc::Global;
use std::process::Abort;
use std::sync::Wait;
use std::thread::Threads;

/// Ends that move many bytes in a turn.
const LARGE: Ends = Ends {
    source_step: 65_536,
    source_fails: None,
    sink_step: 4_096,
    sink_fails: None,
};

/// Runs a text, and asserts its status, and how its output begins.
fn check<W: Threads + Wait + Abort + Sync>(
    rt: &W,
    alloc: Global,
    shows: &str,
    text: &[u8],
    status: u8,
    start: &str,
) {
    let ran = run(rt, alloc, &["solve"], text, &LARGE);
    check_start(rt, shows, &ran, status, start.as_bytes());
}

/// A script that declares a name with `integers` integers, and more, as arguments, and with that result.
fn declaration(
    rt: &impl Abort,
    alloc: Global,
    name: &str,
    integers: usize,
    more: &str,
    ends: &str,
) -> String {
    let mut front = joined(rt, alloc, "(set-logic HORN)(declare-fun ", name);
    add(rt, &mut front, " (");
    let mut end = joined(rt, alloc, more, ") ");
    add(rt, &mut end, ends);
    add(rt, &mut end, ")(check-sat)");
    repeated(rt, alloc, front.as_str(), "Int ", integers, end.as_str())
}

const COUNT: &str = "kind 17 Count at byte 16 after 1 commands";

#[test]
fn only_256_sorts_of_a_declaration_are_looked_at(rt: HostRuntime) {
    let most = declaration(&rt, rt.alloc(), "p", 255, "Bool", "Bool");
    let shows = "256 arguments";
    check(&rt, rt.alloc(), shows, most.as_bytes(), 0, "sat\n");
    for (shows, name, integers, more, ends, told) in [
        ("257 arguments", "p", 257, "", "Bool", COUNT),
        ("the number before the result", "p", 257, "", "Int", COUNT),
        ("a late unknown sort", "p", 299, "Real", "Bool", COUNT),
        (
            "the name before the number",
            "true",
            257,
            "",
            "Bool",
            "kind 9 Redeclared at byte 29 after 1 commands",
        ),
        (
            "an early unknown sort",
            "p",
            255,
            "Real Int",
            "Bool",
            "kind 8 UnknownSort at byte 1052 after 1 commands",
        ),
    ] {
        let text = declaration(&rt, rt.alloc(), name, integers, more, ends);
        let line = error_line(&rt, rt.alloc(), told);
        check(&rt, rt.alloc(), shows, text.as_bytes(), 1, line.as_str());
    }
}

/// The text with this behind it and the question.
fn whole(rt: &impl Abort, alloc: Global, text: &str, more: &str) -> String {
    let mut whole = joined(rt, alloc, text, more);
    add(rt, &mut whole, "(check-sat)");
    whole
}

/// The line that tells a refusal `behind` bytes behind the text's end.
fn line_behind(
    rt: &impl Abort,
    alloc: Global,
    text: &str,
    kind: &str,
    behind: usize,
    commands: usize,
) -> String {
    let at = text.len().saturating_add(behind);
    let line = format!(in alloc;
        "(error \"kind {kind} at byte {at} after {commands} commands\")\n"
    );
    line.expect(rt, "memory")
}

/// The declaration of a constant of that number.
fn constant(rt: &impl Abort, alloc: Global, number: usize) -> String {
    format!(in alloc; "(declare-const p{number} Bool)").expect(rt, "memory")
}

/// A script with `count` predicates, up to its question.
fn constants(rt: &impl Abort, alloc: Global, count: usize) -> String {
    let mut text = String::from_str(alloc, "(set-logic HORN)").expect(rt, "memory");
    for number in 0..count {
        let line = constant(rt, alloc, number);
        add(rt, &mut text, line.as_str());
    }
    text
}

#[test]
fn a_script_has_at_most_4096_predicates(rt: HostRuntime) {
    let text = constants(&rt, rt.alloc(), 4096);
    let full = whole(&rt, rt.alloc(), text.as_str(), "");
    let (shows, start) = ("4,096 predicates", "sat\n(\n(define-fun p0 () Bool true)\n");
    check(&rt, rt.alloc(), shows, full.as_bytes(), 0, start);
    for (shows, more, kind, behind) in [
        ("4,097 predicates", "(declare-const q Bool)", "17 Count", 0),
        (
            "the result before the number",
            "(declare-const q Int)",
            "12 SortMismatch",
            17,
        ),
    ] {
        let line = line_behind(&rt, rt.alloc(), text.as_str(), kind, behind, 4097);
        let whole = whole(&rt, rt.alloc(), text.as_str(), more);
        check(&rt, rt.alloc(), shows, whole.as_bytes(), 1, line.as_str());
    }
}

#[test]
fn a_script_has_at_most_65536_assertions(rt: HostRuntime) {
    let front = "(set-logic HORN)(declare-const q Bool)";
    let text = repeated(&rt, rt.alloc(), front, "(assert q)", 65_536, "");
    let full = whole(&rt, rt.alloc(), text.as_str(), "");
    let shows = "65,536 assertions";
    check(&rt, rt.alloc(), shows, full.as_bytes(), 0, "sat\n");
    for (shows, more, kind) in [
        ("the number before the term", "(assert zz)", "17 Count"),
        (
            "the form before the number",
            "(assert q q)",
            "5 CommandForm",
        ),
    ] {
        let line = line_behind(&rt, rt.alloc(), text.as_str(), kind, 0, 65538);
        let whole = whole(&rt, rt.alloc(), text.as_str(), more);
        check(&rt, rt.alloc(), shows, whole.as_bytes(), 1, line.as_str());
    }
}

#[test]
fn distinct_has_at_most_64_terms(rt: HostRuntime) {
    let front = "(set-logic HORN)(declare-const q Bool)(assert (=> (distinct";
    let text = repeated(&rt, rt.alloc(), front, " 1", 64, ") q))(check-sat)");
    let shows = "64 terms of distinct";
    check(&rt, rt.alloc(), shows, text.as_bytes(), 0, "sat\n");
}

#[test]
fn a_term_may_fill_five_megabytes(rt: HostRuntime) {
    let front = "(set-logic HORN)(declare-const q Bool)(assert (=> ";
    let text = repeated(&rt, rt.alloc(), front, "true ", 1_100_000, "q))(check-sat)");
    check(&rt, rt.alloc(), "a long term", text.as_bytes(), 0, "sat\n");
}

/// A script of the given length in bytes, filled up with spaces behind its exit.
fn filled(rt: &impl Abort, alloc: Global, bytes: usize) -> Vec<u8> {
    let front = b"(set-logic HORN)(check-sat)(exit)";
    let mut text = Vec::from_slice(alloc, front).expect(rt, "memory");
    text.resize(bytes, b' ').expect(rt, "memory");
    text
}

#[test]
fn a_text_has_at_most_2_to_the_24_bytes(rt: HostRuntime) {
    let mut text = filled(&rt, rt.alloc(), 1 << 24);
    check(&rt, rt.alloc(), "2^24 bytes", text.as_slice(), 0, "sat\n");
    text.push(b' ').expect(&rt, "memory");
    let told = "kind 1 TooLong at byte 16777216 after 0 commands";
    let line = error_line(&rt, rt.alloc(), told);
    let shows = "one byte more, behind an exit";
    check(&rt, rt.alloc(), shows, text.as_slice(), 1, line.as_str());
}
