//! Variables, atoms and heads in the order of the text.

use crate::guards::clause_of_text;
use crate::made::{check, parts};
use clause_form::{Atom, Clause};
use std::alloc::Global;
use std::mem;
use std::process::Abort;
use term_tree::Sort;

/// What a case shows, its assertion, and the clause: the sorts of its variables, I or B for each, and its atoms and head at the numbers of variables.
const CLAUSES: &str = "\
    variables of two quantifiers§\
        (assert (forall ((x Int) (b Bool)) (forall ((c Bool) (y Int)) (=> (r c x) q (r b y) (p y)))))§\
        IBBI: r 2 0, q, r 1 3 -> p 3¶\
    a body under a denied existential term§\
        (assert (not (exists ((b Bool) (x Int)) (and (p x) (and q (r b x)) q))))§\
        BI: p 1, q, r 0 1, q -> false¶\
    bodies of disjuncts around a head§\
        (assert (forall ((x Int)) (or (not (and (p x) q)) (p (+ x 1)) (not (r (< x 0) x)))))§\
        IIB: p 0, q, r 2 0 -> p 1¶\
    a bound term before the body, and each use as an argument§\
        (assert (forall ((x Int)) (let ((a (abs x)) (c (< x 0))) (=> (r c a) (p a)))))§\
        IIBBII: r 3 4 -> p 5¶\
    a term before its parts§\
        (assert (forall ((x Int)) (r (let ((a (< x 1))) a) (abs (+ x 1)))))§\
        IBBI: -> r 1 3¶\
    bodies of an implication in an implication§\
        (assert (forall ((x Int)) (=> (p x) q (=> (and (p 1) q) (p x)))))§\
        II: p 0, q, p 1, q -> p 0¶\
    a quantifier under an implication§\
        (assert (=> q (forall ((b Bool)) (let ((a b)) (=> (r b 5) (forall ((x Int)) (r a x)))))))§\
        BIIB: q, r 0 2 -> r 3 1";

fn name(pred: u32) -> &'static str {
    match pred {
        0 => "p",
        1 => "q",
        2 => "r",
        _ => "?",
    }
}

fn letter(sort: Sort) -> &'static str {
    match sort {
        Sort::Int => "I",
        Sort::Bool => "B",
    }
}

fn sorts_told(rt: &impl Abort, alloc: Global, sorts: &[Sort]) -> String {
    let mut text = String::new(alloc);
    for sort in sorts {
        text.push_str(letter(*sort)).expect(rt, "memory");
    }
    text.push_str(":").expect(rt, "memory");
    text
}

fn atom_told(rt: &impl Abort, alloc: Global, atom: &Atom) -> String {
    let mut text = String::from_str(alloc, name(atom.pred)).expect(rt, "memory");
    for variable in atom.args.as_slice() {
        let one = format!(in alloc; " {variable}").expect(rt, "memory");
        text.push_str(one.as_str()).expect(rt, "memory");
    }
    text
}

/// The atoms behind the sorts, with commas between them.
fn body_told(rt: &impl Abort, alloc: Global, clause: &Clause) -> String {
    let mut text = sorts_told(rt, alloc, clause.sorts.as_slice());
    let mut between = " ";
    for atom in clause.atoms.as_slice() {
        let one = atom_told(rt, alloc, atom);
        text.push_str(between).expect(rt, "memory");
        text.push_str(one.as_str()).expect(rt, "memory");
        between = ", ";
    }
    text
}

fn head_told(rt: &impl Abort, alloc: Global, head: &Option<Atom>) -> String {
    match head {
        None => String::from_str(alloc, "false").expect(rt, "memory"),
        Some(atom) => atom_told(rt, alloc, atom),
    }
}

fn clause_told(rt: &impl Abort, alloc: Global, clause: &Clause) -> String {
    let body = body_told(rt, alloc, clause);
    let head = head_told(rt, alloc, &clause.head);
    format!(in alloc; "{body} -> {head}").expect(rt, "memory")
}

/// Whether the text's first clause is told so.
fn is_told(rt: &impl Abort, alloc: Global, text: &str, awaited: &str) -> bool {
    let made = clause_of_text(rt, alloc, text);
    let told = clause_told(rt, alloc, &made);
    mem::forget(made);
    told.as_str() == awaited
}

/// Checks each case of the table, and answers how many there are.
fn check_all(rt: &impl Abort, alloc: Global) -> usize {
    let mut tried: usize = 0;
    for case in CLAUSES.split('¶') {
        if let Some((shows, asserts, awaited)) = parts(case) {
            check(rt, is_told(rt, alloc, asserts, awaited), shows);
            tried = tried.saturating_add(1);
        }
    }
    tried
}

#[test]
fn variables_and_atoms_stand_in_the_order_of_the_text(rt: HostRuntime) {
    assert!(rt; check_all(&rt, rt.alloc()) == 7);
}
