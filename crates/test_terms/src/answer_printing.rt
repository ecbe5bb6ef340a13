//! Answers made by hand, with the texts that the rules give for them.

use crate::arenas::{apply, number, put};
use answer_text::{Answer, Line, UnknownCause, error_line, level_line, write_answer};
use base::Items;
use std::alloc::Global;
use std::mem;
use std::process::Abort;
use term_tree::{
    Definition, Kind, Name, Node, OpKind, Pred, Refusal, Script, Sort, TermId, Terms, Value,
};

/// A step by hand; its number is its place.
#[derive(Clone, Copy)]
struct Step<'a> {
    assertion: u64,
    values: &'a [Value],
    premises: &'a [u64],
    head: Option<(u32, &'a [Value])>,
}

fn pred(rt: &impl Abort, alloc: Global, name: &[u8], sorts: &[Sort]) -> Pred {
    let bytes = Items::from_slice(alloc, name).expect(rt, "memory");
    let args = Items::from_slice(alloc, sorts).expect(rt, "memory");
    Pred {
        name: Name { bytes },
        args,
    }
}

pub(crate) fn script(rt: &impl Abort, alloc: Global, preds: &[(&[u8], &[Sort])]) -> Script {
    let mut declared = Vec::new(alloc);
    for (name, sorts) in preds {
        declared
            .push(pred(rt, alloc, name, sorts))
            .expect(rt, "memory");
    }
    Script {
        preds: Items::from_vec(declared),
        asserts: Items::new(alloc),
        terms: Terms::new(alloc),
    }
}

fn conclusion(
    rt: &impl Abort,
    alloc: Global,
    head: Option<(u32, &[Value])>,
) -> Option<(u32, Items<Value>)> {
    match head {
        None => None,
        Some((pred, values)) => Some((pred, Items::from_slice(alloc, values).expect(rt, "memory"))),
    }
}

fn line(rt: &impl Abort, alloc: Global, number: u64, step: Step) -> Line {
    let values = Items::from_slice(alloc, step.values).expect(rt, "memory");
    let premises = Items::from_slice(alloc, step.premises).expect(rt, "memory");
    let head = conclusion(rt, alloc, step.head);
    Line {
        number,
        assertion: step.assertion,
        values,
        premises,
        head,
    }
}

fn derivation(rt: &impl Abort, alloc: Global, steps: &[Step]) -> Answer {
    let mut lines = Vec::new(alloc);
    for (i, step) in steps.iter().enumerate() {
        lines
            .push(line(rt, alloc, i as u64 + 1, *step))
            .expect(rt, "memory");
    }
    Answer::Unsat(Items::from_vec(lines))
}

fn argument(rt: &impl Abort, terms: &mut Terms, binder: u32, sort: Sort) -> TermId {
    put(rt, terms, Node::Var { binder, sort }, 0)
}

fn truth(rt: &impl Abort, terms: &mut Terms, truth: bool) -> TermId {
    let node = if truth { Node::True } else { Node::False };
    put(rt, terms, node, 0)
}

/// One definition for each predicate, true and false in turn.
fn constants(rt: &impl Abort, alloc: Global, count: u32) -> Answer {
    let mut definitions = Vec::new(alloc);
    for pred in 0..count {
        let mut terms = Terms::new(alloc);
        let body = truth(rt, &mut terms, pred % 2 == 0);
        let params = Items::new(alloc);
        definitions
            .push(Definition {
                pred,
                params,
                terms,
                body,
            })
            .expect(rt, "memory");
    }
    Answer::Sat(Items::from_vec(definitions))
}

/// The one definition of predicate 0, of this term.
fn model(rt: &impl Abort, alloc: Global, terms: Terms, body: TermId) -> Answer {
    let definition = Definition {
        pred: 0,
        params: Items::new(alloc),
        terms,
        body,
    };
    let definitions = Vec::from_array(alloc, [definition]).expect(rt, "memory");
    Answer::Sat(Items::from_vec(definitions))
}

/// Nothing holds of the one predicate.
fn nothing(rt: &impl Abort, alloc: Global) -> Answer {
    let mut terms = Terms::new(alloc);
    let body = truth(rt, &mut terms, false);
    model(rt, alloc, terms, body)
}

/// The Bool argument less twice the Int argument is at most 5.
fn bound(rt: &impl Abort, alloc: Global, terms: &mut Terms) -> TermId {
    let x0 = argument(rt, terms, 0, Sort::Int);
    let two = number(rt, terms, 2);
    let minus_two = apply(rt, alloc, terms, OpKind::Sub, &[two]);
    let first = apply(rt, alloc, terms, OpKind::Mul, &[minus_two, x0]);
    let second = bit(rt, alloc, terms);
    let sum = apply(rt, alloc, terms, OpKind::Add, &[first, second]);
    let five = number(rt, terms, 5);
    apply(rt, alloc, terms, OpKind::Le, &[sum, five])
}

/// The Bool argument as a number.
fn bit(rt: &impl Abort, alloc: Global, terms: &mut Terms) -> TermId {
    let x1 = argument(rt, terms, 1, Sort::Bool);
    let one = number(rt, terms, 1);
    let zero = number(rt, terms, 0);
    apply(rt, alloc, terms, OpKind::Ite, &[x1, one, zero])
}

fn lemma(rt: &impl Abort, alloc: Global) -> Answer {
    let mut terms = Terms::new(alloc);
    let at_most = bound(rt, alloc, &mut terms);
    let x0 = argument(rt, &mut terms, 0, Sort::Int);
    let divisible = put(rt, &mut terms, Node::Divisible { by: 3, arg: x0 }, 0);
    let cube = apply(rt, alloc, &mut terms, OpKind::And, &[at_most, divisible]);
    let body = apply(rt, alloc, &mut terms, OpKind::Not, &[cube]);
    model(rt, alloc, terms, body)
}

/// Asserts how an answer is printed. What it is made of isn't let go, since that costs a proof.
fn expect(rt: &impl Abort, alloc: Global, preds: &[(&[u8], &[Sort])], answer: Answer, text: &str) {
    let script = script(rt, alloc, preds);
    let printed = write_answer(alloc, &script, &answer).expect(rt, "memory");
    mem::forget(answer);
    mem::forget(script);
    assert!(rt; printed.as_slice() == text.as_bytes());
}

const COUNTING: [Step; 5] = [
    Step {
        assertion: 1,
        values: &[],
        premises: &[],
        head: Some((0, &[Value::Int(0)])),
    },
    Step {
        assertion: 2,
        values: &[Value::Int(0)],
        premises: &[1],
        head: Some((0, &[Value::Int(1)])),
    },
    Step {
        assertion: 2,
        values: &[Value::Int(1)],
        premises: &[2],
        head: Some((0, &[Value::Int(2)])),
    },
    Step {
        assertion: 2,
        values: &[Value::Int(2)],
        premises: &[3],
        head: Some((0, &[Value::Int(3)])),
    },
    Step {
        assertion: 3,
        values: &[],
        premises: &[4],
        head: None,
    },
];

const COUNTED: &str =
    "unsat\n(derivation\n(step 1 1 () () (p 0))\n(step 2 2 (0) (1) (p 1))\n(step 3 2 (1) (2) (p 2))\n(step 4 2 (2) (3) (p 3))\n(step 5 3 () (4) false)\n)\n";

#[test]
fn a_derivation_by_counting_up_is_printed_step_by_step(rt: HostRuntime) {
    let answer = derivation(&rt, rt.alloc(), &COUNTING);
    expect(&rt, rt.alloc(), &[(b"p", &[Sort::Int])], answer, COUNTED);
}

const FALSE: [Step; 1] = [Step {
    assertion: 1,
    values: &[],
    premises: &[],
    head: None,
}];

const REFUTED: &str = "unsat\n(derivation\n(step 1 1 () () false)\n)\n";

#[test]
fn a_false_assertion_is_refuted_in_one_step(rt: HostRuntime) {
    let answer = derivation(&rt, rt.alloc(), &FALSE);
    expect(&rt, rt.alloc(), &[], answer, REFUTED);
}

const MIXED: [Step; 3] = [
    Step {
        assertion: 1,
        values: &[],
        premises: &[],
        head: Some((0, &[])),
    },
    Step {
        assertion: 2,
        values: &[],
        premises: &[1],
        head: Some((1, &[Value::Bool(true), Value::Int(-2)])),
    },
    Step {
        assertion: 3,
        values: &[Value::Bool(true), Value::Int(-2)],
        premises: &[2],
        head: None,
    },
];

const MIXED_TEXT: &str =
    "unsat\n(derivation\n(step 1 1 () () q)\n(step 2 2 () (1) (r true (- 2)))\n(step 3 3 (true (- 2)) (2) false)\n)\n";

#[test]
fn truth_values_and_negative_numbers_stand_in_steps(rt: HostRuntime) {
    let answer = derivation(&rt, rt.alloc(), &MIXED);
    let preds: [(&[u8], &[Sort]); 2] = [(b"q", &[]), (b"r", &[Sort::Bool, Sort::Int])];
    expect(&rt, rt.alloc(), &preds, answer, MIXED_TEXT);
}

/// Predicates whose names but the first aren't simple symbols.
pub(crate) const NAMED: [(&'static [u8], &'static [Sort]); 5] = [
    (b"main@entry", &[Sort::Int, Sort::Bool]),
    (b"a b", &[]),
    (b"7up", &[]),
    (b"", &[]),
    (b"let", &[]),
];

const NAMES: &str =
    "sat\n(\n(define-fun main@entry ((x0 Int) (x1 Bool)) Bool true)\n(define-fun |a b| () Bool false)\n(define-fun |7up| () Bool true)\n(define-fun || () Bool false)\n(define-fun |let| () Bool true)\n)\n";

#[test]
fn names_stand_between_bars_where_they_are_no_simple_symbols(rt: HostRuntime) {
    let answer = constants(&rt, rt.alloc(), 5);
    expect(&rt, rt.alloc(), &NAMED, answer, NAMES);
}

const LEMMA: &str =
    "sat\n(\n(define-fun p ((x0 Int) (x1 Bool)) Bool (not (and (<= (+ (* (- 2) x0) (ite x1 1 0)) 5) ((_ divisible 3) x0))))\n)\n";

#[test]
fn a_lemma_is_the_negation_of_a_cube_of_literals(rt: HostRuntime) {
    let answer = lemma(&rt, rt.alloc());
    let preds: [(&[u8], &[Sort]); 1] = [(b"p", &[Sort::Int, Sort::Bool])];
    expect(&rt, rt.alloc(), &preds, answer, LEMMA);
}

const NOTHING: &str = "sat\n(\n(define-fun p ((x0 Int)) Bool false)\n)\n";

#[test]
fn a_predicate_without_clauses_is_false(rt: HostRuntime) {
    let answer = nothing(&rt, rt.alloc());
    expect(&rt, rt.alloc(), &[(b"p", &[Sort::Int])], answer, NOTHING);
}

const UNKNOWNS: [(u32, UnknownCause, &'static str); 4] = [
    (0, UnknownCause::Units(0), "unknown\n; level 0 units 0\n"),
    (1, UnknownCause::Units(1), "unknown\n; level 1 units 1\n"),
    (0, UnknownCause::Stalled, "unknown\n; level 0 stalled\n"),
    (7, UnknownCause::NoMemory, "unknown\n; level 7 memory\n"),
];

#[test]
fn an_unknown_answer_has_its_level_and_cause(rt: HostRuntime) {
    for (level, cause, text) in UNKNOWNS {
        let answer = Answer::Unknown { level, cause };
        expect(&rt, rt.alloc(), &[], answer, text);
    }
}

#[test]
fn the_longest_lines_fit(rt: HostRuntime) {
    let mut line = [0; 64];
    let length = level_line(u32::MAX, UnknownCause::Units(u32::MAX), &mut line);
    assert!(rt; &line[..length] == b"; level 4294967295 units 4294967295\n".as_slice());
    let refusal = Refusal {
        kind: Kind::UnknownSymbol,
        offset: u64::MAX,
        command: u32::MAX,
    };
    let mut line = [0; 128];
    let length = error_line(&refusal, &mut line);
    let text =
        b"(error \"kind 10 UnknownSymbol at byte 18446744073709551615 after 4294967295 commands\")\n";
    assert!(rt; &line[..length] == text.as_slice());
}
