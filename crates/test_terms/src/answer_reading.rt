//! Texts that are read as answers, and where texts are refused. No answer is let go, since that costs a proof.

ghost use Rattle.std.specs.Prelude.{◌<◌, ◌^◌, length, IsTrue};

use crate::answer_printing::{NAMED, script};
use answer_text::{AnswerStop, read_answer, write_answer};
use std::alloc::Global;
use std::mem;
use std::process::Abort;
use term_tree::{Script, Sort};

fn is_short(script: &Script, text: &[u8]) -> bool
    ensures { IsTrue result → (length script.now.preds < 2 ^ 32) × (length text.now < 2 ^ 32) }
{
    script.preds.len() < 1 << 32 && text.len() < 1 << 32
}

/// Where the text is no answer, if it is none.
fn refused_at(rt: &impl Abort, alloc: Global, script: &Script, text: &[u8]) -> Option<u64> {
    assert!(rt; is_short(script, text));
    match read_answer(alloc, script, text) {
        Ok(answer) => {
            mem::forget(answer);
            None
        }
        Err(AnswerStop::BadAnswer { offset }) => Some(offset),
        Err(AnswerStop::Memory) => panic!(rt; "memory"),
    }
}

/// The text of the answer that was read, or nothing.
fn printed_again(rt: &impl Abort, alloc: Global, script: &Script, text: &[u8]) -> Vec<u8> {
    assert!(rt; is_short(script, text));
    match read_answer(alloc, script, text) {
        Ok(answer) => {
            let printed = write_answer(alloc, script, &answer).expect(rt, "memory");
            mem::forget(answer);
            printed
        }
        Err(AnswerStop::BadAnswer { .. }) => Vec::new(alloc),
        Err(AnswerStop::Memory) => panic!(rt; "memory"),
    }
}

/// The two parts of a case.
fn pair(case: &str) -> Option<(&str, &str)> {
    let mut parts = case.split('§');
    match (parts.next(), parts.next()) {
        (Some(first), Some(second)) => Some((first, second)),
        _ => None,
    }
}

/// Whether the text of both parts is refused where the second begins.
fn is_refused(rt: &impl Abort, alloc: Global, script: &Script, before: &str, behind: &str) -> bool {
    let mut text = Vec::from_slice(alloc, before.as_bytes()).expect(rt, "memory");
    text.extend_from_slice(behind.as_bytes())
        .expect(rt, "memory");
    refused_at(rt, alloc, script, text.as_slice()) == Some(before.len() as u64)
}

/// Asserts that each case's text is refused where its second part begins, and that there are so many. The
/// script isn't let go, since that costs a proof.
fn expect_refused(
    rt: &impl Abort,
    alloc: Global,
    preds: &[(&[u8], &[Sort])],
    cases: &str,
    count: usize,
) {
    let script = script(rt, alloc, preds);
    let mut tried: usize = 0;
    for case in cases.split('¶') {
        if let Some((before, behind)) = pair(case) {
            assert!(rt; is_refused(rt, alloc, &script, before, behind), "{before}");
            tried = tried.saturating_add(1);
        }
    }
    mem::forget(script);
    assert!(rt; tried == count);
}

/// Whether the text is read as the answer that is printed so.
fn is_read(rt: &impl Abort, alloc: Global, script: &Script, text: &str, printed: &str) -> bool {
    printed_again(rt, alloc, script, text.as_bytes()).as_slice() == printed.as_bytes()
}

/// Asserts that each case's first text is read as the answer that is printed as the second.
fn expect_read(rt: &impl Abort, alloc: Global, preds: &[(&[u8], &[Sort])], cases: &[(&str, &str)]) {
    let script = script(rt, alloc, preds);
    for (text, printed) in cases {
        assert!(rt; is_read(rt, alloc, &script, text, printed), "{text}");
    }
    mem::forget(script);
}

const CLAIMS: &str = "\
    §\
        ¶\
    sat\n§\
        (\n¶\
    §\
        unknown\n; level 0 units 0\n¶\
    §\
        (error \"out of memory\")\n¶\
    ; a note\n §\
        unknown¶\
    sat ; a note§\
        ¶\
    sat §\
        p¶\
    unsat §\
        (step)¶\
    sat ((define-fun p ((x Int)) Bool true)) §\
        sat¶\
    sat ((define-fun p ((x Int)) Bool true)) §\
        )¶\
    unsat (derivation) ; a note\n§\
        \"open¶\
    ";

#[test]
fn a_text_that_claims_nothing_or_lacks_its_evidence_is_refused(rt: HostRuntime) {
    let preds: [(&[u8], &[Sort]); 1] = [(b"p", &[Sort::Int])];
    expect_refused(&rt, rt.alloc(), &preds, CLAIMS, 11);
}

const DEFINITIONS: &str = "\
    sat §\
        ()¶\
    sat (§\
        (define-fun-rec p ((x Int) (y Int)) Bool true))¶\
    sat (§\
        (|define-fun| p ((x Int) (y Int)) Bool true))¶\
    sat (§\
        (define-fun p ((x Int) (y Int)) Bool))¶\
    sat ((define-fun §\
        q () Bool true))¶\
    sat ((define-fun p ((x Int) (y Int)) Bool true) §\
        (define-fun p () Bool true))¶\
    sat ((define-fun p §\
        ((x Int)) Bool true))¶\
    sat ((define-fun p ((x Int) §\
        (y)) Bool true))¶\
    sat ((define-fun p ((x Int) (§\
        let Int)) Bool true))¶\
    sat ((define-fun p ((x Int) (§\
        x Int)) Bool true))¶\
    sat ((define-fun p ((x Int) (y §\
        Bool)) Bool true))¶\
    sat ((define-fun p ((x Int) (y Int)) §\
        Int x))¶\
    sat ((define-fun p ((x Int) (y Int)) Bool §\
        x))¶\
    sat ((define-fun p ((x Int) (y Int)) Bool (< x §\
        z)))¶\
    sat ((define-fun p ((x Int) (y Int)) Bool (§\
        p x y)))¶\
    sat ((define-fun p ((x Int) (y Int)) Bool §\
        (exists ((z Int)) (= x z))))¶\
    ";

#[test]
fn each_predicate_is_defined_once_by_a_formula(rt: HostRuntime) {
    let preds: [(&[u8], &[Sort]); 1] = [(b"p", &[Sort::Int, Sort::Int])];
    expect_refused(&rt, rt.alloc(), &preds, DEFINITIONS, 16);
}

const STEPS: &str = "\
    unsat §\
        ()¶\
    unsat (derivation §\
        (step 1 1 () ()))¶\
    unsat (derivation §\
        (stop 1 1 () () q))¶\
    unsat (derivation (step §\
        1.0 1 () () q))¶\
    unsat (derivation (step 1 §\
        9223372036854775808 () () q))¶\
    unsat (derivation (step 1 1 §\
        1 () q))¶\
    unsat (derivation (step 1 1 (§\
        (- 0)) () q))¶\
    unsat (derivation (step 1 1 (§\
        (- 9223372036854775808)) () q))¶\
    unsat (derivation (step 1 1 (§\
        1.5) () q))¶\
    unsat (derivation (step 1 1 () (1 §\
        (- 1)) q))¶\
    unsat (derivation (step 1 1 () () §\
        (q)))¶\
    unsat (derivation (step 1 1 () () §\
        r))¶\
    unsat (derivation (step 1 1 () () §\
        (r 1)))¶\
    unsat (derivation (step 1 1 () () (r 1 §\
        x)))¶\
    unsat (derivation (step 1 1 () () (§\
        s 1)))¶\
    ";

#[test]
fn each_step_has_its_form(rt: HostRuntime) {
    let preds: [(&[u8], &[Sort]); 2] = [(b"q", &[]), (b"r", &[Sort::Int, Sort::Bool])];
    expect_refused(&rt, rt.alloc(), &preds, STEPS, 15);
}

const NAMES: &str = "\
    unsat (derivation §\
        (step 1 1 () () a b))¶\
    unsat (derivation (step 1 1 () () §\
        7up))¶\
    unsat (derivation §\
        (step 1 1 () () ))¶\
    unsat (derivation (step 1 1 () () §\
        let))¶\
    sat (§\
        (define-fun a b () Bool true))¶\
    sat (§\
        (define-fun () Bool true))¶\
    sat ((define-fun §\
        let () Bool true))¶\
    sat ((define-fun §\
        |a  b| () Bool true))¶\
    ";

#[test]
fn a_name_that_is_no_simple_symbol_needs_bars(rt: HostRuntime) {
    let preds: [(&[u8], &[Sort]); 4] = [(b"a b", &[]), (b"7up", &[]), (b"", &[]), (b"let", &[])];
    expect_refused(&rt, rt.alloc(), &preds, NAMES, 8);
}

const MODEL: &str =
    "sat\n(\n(define-fun main@entry ((x0 Int) (x1 Bool)) Bool (not (and (<= (+ (* (- 2) x0) (ite x1 1 0)) 5) ((_ divisible 3) x0))))\n(define-fun |a b| () Bool false)\n(define-fun |7up| () Bool true)\n(define-fun || () Bool false)\n(define-fun |let| () Bool true)\n)\n";

const DERIVATION: &str =
    "unsat\n(derivation\n(step 1 1 () () ||)\n(step 2 2 (0 (- 9223372036854775807)) (1 1) |a b|)\n(step 3 1 () () (main@entry (- 5) true))\n(step 4 3 () (3 2) |let|)\n(step 5 4 () (4) |7up|)\n(step 6 5 (false) (5) false)\n)\n";

#[test]
fn what_was_printed_is_read_back(rt: HostRuntime) {
    let cases = [(MODEL, MODEL), (DERIVATION, DERIVATION)];
    expect_read(&rt, rt.alloc(), &NAMED, &cases);
}

const FREE_MODEL: &str =
    "; a model\r\n|sat|(\t(define-fun |a b|()Bool true)\n\n(define-fun |p| ((y |Int|)) Bool (< y (- 5))))";

const PRINTED_MODEL: &str =
    "sat\n(\n(define-fun p ((x0 Int)) Bool (< x0 (- 5)))\n(define-fun |a b| () Bool true)\n)\n";

const FREE_DERIVATION: &str =
    "unsat(derivation(step 7 1()()|a b|)(step 8 2(|true|)(7)|false|));done";

const PRINTED_DERIVATION: &str =
    "unsat\n(derivation\n(step 7 1 () () |a b|)\n(step 8 2 (true) (7) false)\n)\n";

#[test]
fn layout_and_order_are_free(rt: HostRuntime) {
    let preds: [(&[u8], &[Sort]); 2] = [(b"p", &[Sort::Int]), (b"a b", &[])];
    let cases = [
        (FREE_MODEL, PRINTED_MODEL),
        (FREE_DERIVATION, PRINTED_DERIVATION),
    ];
    expect_read(&rt, rt.alloc(), &preds, &cases);
}
