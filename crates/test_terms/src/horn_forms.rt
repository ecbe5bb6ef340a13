//! What each form of a clause gives. The offsets are counted in the text beside each case. No clause is let
//! go, since that costs a proof.

use crate::horn_terms::{Row, Shape, clause, clause_of_last, put_term};
use base::Items;
use horn_shape::{AtomUse, HornClause, Part, has_assertion};
use std::alloc::Global;
use std::mem;
use std::process::Abort;
use term_tree::{Assertion, OpKind, Script, TermId, Terms};

/// A guard: where its term starts, how many `let` terms are around it, and whether it is negated.
type Guard = (u32, usize, bool);

/// A head: its predicate, how many `let` terms are around its first argument, the outermost of them,
/// and that argument; 99 for no head, and for no `let` term.
type Head = (u32, usize, u32, u32);

/// The rows of a term, and of its clause how many variables there are, the predicates of the body atoms,
/// the guards, and the head.
#[derive(Clone, Copy)]
struct Case {
    rows: &'static [Row],
    vars: usize,
    atoms: &'static [u32],
    guards: &'static [Guard],
    head: Head,
}

fn are_guards(rows: &[Row], parts: &[Part], guards: &[Guard]) -> bool {
    for (part, guard) in parts.iter().zip(guards) {
        let offset = match rows.get(part.term.0 as usize) {
            None => 999,
            Some(row) => row.2,
        };
        if (offset, part.lets.len(), part.negated) != *guard {
            return false;
        }
    }
    parts.len() == guards.len()
}

fn are_atoms(atoms: &[AtomUse], preds: &[u32]) -> bool {
    for (atom, pred) in atoms.iter().zip(preds) {
        if atom.pred != *pred {
            return false;
        }
    }
    atoms.len() == preds.len()
}

fn head(c: &HornClause) -> Head {
    match &c.head {
        None => (99, 0, 0, 0),
        Some(h) => match h.args.get(0) {
            None => (h.pred, 0, 0, 0),
            Some(a) => (
                h.pred,
                a.lets.len(),
                a.lets.get(0).copied().unwrap_or(TermId(99)).0,
                a.term.0,
            ),
        },
    }
}

/// Whether the clause has these parts.
fn has_parts(c: &HornClause, case: Case) -> bool {
    c.vars.len() == case.vars
        && are_atoms(c.atoms.as_slice(), case.atoms)
        && are_guards(case.rows, c.guards.as_slice(), case.guards)
        && head(c) == case.head
}

fn gives(rt: &impl Abort, alloc: Global, case: Case) -> bool {
    match clause(rt, alloc, case.rows) {
        Err(_) => false,
        Ok(c) => {
            let has = has_parts(&c, case);
            mem::forget(c);
            has
        }
    }
}

const CASES: [Case; 24] = [
    // an atom or a guard alone
    // r
    Case {
        rows: &[(Shape::Pred(2), &[], 0)],
        vars: 0,
        atoms: &[],
        guards: &[],
        head: (2, 0, 0, 0),
    },
    // true
    Case {
        rows: &[(Shape::True, &[], 0)],
        vars: 0,
        atoms: &[],
        guards: &[(0, 0, true)],
        head: (99, 0, 0, 0),
    },
    // (forall ((x Int)) (forall ((y Int)) true))
    Case {
        rows: &[
            (Shape::True, &[], 36),
            (Shape::ForAll, &[0], 18),
            (Shape::ForAll, &[1], 0),
        ],
        vars: 2,
        atoms: &[],
        guards: &[(36, 0, true)],
        head: (99, 0, 0, 0),
    },
    // (forall ((x Int)) (q x))
    Case {
        rows: &[
            (Shape::Var, &[], 21),
            (Shape::Pred(1), &[0], 18),
            (Shape::ForAll, &[1], 0),
        ],
        vars: 1,
        atoms: &[],
        guards: &[],
        head: (1, 0, 99, 0),
    },
    // implications end in a clause
    // (=> r true s)
    Case {
        rows: &[
            (Shape::Pred(2), &[], 4),
            (Shape::True, &[], 6),
            (Shape::Pred(3), &[], 11),
            (Shape::Op(OpKind::Implies), &[0, 1, 2], 0),
        ],
        vars: 0,
        atoms: &[2],
        guards: &[(6, 0, false)],
        head: (3, 0, 0, 0),
    },
    // (=> r (=> s (or r)))
    Case {
        rows: &[
            (Shape::Pred(2), &[], 4),
            (Shape::Pred(3), &[], 10),
            (Shape::Pred(2), &[], 16),
            (Shape::Op(OpKind::Or), &[2], 12),
            (Shape::Op(OpKind::Implies), &[1, 3], 6),
            (Shape::Op(OpKind::Implies), &[0, 4], 0),
        ],
        vars: 0,
        atoms: &[2, 3],
        guards: &[],
        head: (2, 0, 0, 0),
    },
    // (=> r (not s))
    Case {
        rows: &[
            (Shape::Pred(2), &[], 4),
            (Shape::Pred(3), &[], 11),
            (Shape::Op(OpKind::Not), &[1], 6),
            (Shape::Op(OpKind::Implies), &[0, 2], 0),
        ],
        vars: 0,
        atoms: &[2, 3],
        guards: &[],
        head: (99, 0, 0, 0),
    },
    // (=> s (forall ((x Int)) (=> true (q x))))
    Case {
        rows: &[
            (Shape::Pred(3), &[], 4),
            (Shape::True, &[], 28),
            (Shape::Var, &[], 36),
            (Shape::Pred(1), &[2], 33),
            (Shape::Op(OpKind::Implies), &[1, 3], 24),
            (Shape::ForAll, &[4], 6),
            (Shape::Op(OpKind::Implies), &[0, 5], 0),
        ],
        vars: 1,
        atoms: &[3],
        guards: &[(28, 0, false)],
        head: (1, 0, 99, 2),
    },
    // disjuncts give their parts
    // (or true (not r) s)
    Case {
        rows: &[
            (Shape::True, &[], 4),
            (Shape::Pred(2), &[], 14),
            (Shape::Op(OpKind::Not), &[1], 9),
            (Shape::Pred(3), &[], 17),
            (Shape::Op(OpKind::Or), &[0, 2, 3], 0),
        ],
        vars: 0,
        atoms: &[2],
        guards: &[(4, 0, true)],
        head: (3, 0, 0, 0),
    },
    // (or (not (and r true)))
    Case {
        rows: &[
            (Shape::Pred(2), &[], 14),
            (Shape::True, &[], 16),
            (Shape::Op(OpKind::And), &[0, 1], 9),
            (Shape::Op(OpKind::Not), &[2], 4),
            (Shape::Op(OpKind::Or), &[3], 0),
        ],
        vars: 0,
        atoms: &[2],
        guards: &[(16, 0, false)],
        head: (99, 0, 0, 0),
    },
    // (or (let ((a true)) a) r)
    Case {
        rows: &[
            (Shape::True, &[], 13),
            (Shape::Name, &[0], 20),
            (Shape::Let, &[0, 1], 4),
            (Shape::Pred(2), &[], 23),
            (Shape::Op(OpKind::Or), &[2, 3], 0),
        ],
        vars: 0,
        atoms: &[],
        guards: &[(4, 0, true)],
        head: (2, 0, 0, 0),
    },
    // denials have no head
    // (not r)
    Case {
        rows: &[(Shape::Pred(2), &[], 5), (Shape::Op(OpKind::Not), &[0], 0)],
        vars: 0,
        atoms: &[2],
        guards: &[],
        head: (99, 0, 0, 0),
    },
    // (not (let ((a true)) (and r a)))
    Case {
        rows: &[
            (Shape::True, &[], 14),
            (Shape::Pred(2), &[], 26),
            (Shape::Name, &[0], 28),
            (Shape::Op(OpKind::And), &[1, 2], 21),
            (Shape::Let, &[0, 3], 5),
            (Shape::Op(OpKind::Not), &[4], 0),
        ],
        vars: 0,
        atoms: &[2],
        guards: &[(28, 1, false)],
        head: (99, 0, 0, 0),
    },
    // (not (exists ((x Int)) (and (q x) true (p x))))
    Case {
        rows: &[
            (Shape::Var, &[], 31),
            (Shape::Pred(1), &[0], 28),
            (Shape::True, &[], 34),
            (Shape::Var, &[], 42),
            (Shape::Pred(0), &[3], 39),
            (Shape::Op(OpKind::And), &[1, 2, 4], 23),
            (Shape::Exists, &[5], 5),
            (Shape::Op(OpKind::Not), &[6], 0),
        ],
        vars: 1,
        atoms: &[1, 0],
        guards: &[(34, 0, false)],
        head: (99, 0, 0, 0),
    },
    // what is plain is one guard
    // (not (and true false))
    Case {
        rows: &[
            (Shape::True, &[], 10),
            (Shape::False, &[], 15),
            (Shape::Op(OpKind::And), &[0, 1], 5),
            (Shape::Op(OpKind::Not), &[2], 0),
        ],
        vars: 0,
        atoms: &[],
        guards: &[(0, 0, true)],
        head: (99, 0, 0, 0),
    },
    // (or true false)
    Case {
        rows: &[
            (Shape::True, &[], 4),
            (Shape::False, &[], 9),
            (Shape::Op(OpKind::Or), &[0, 1], 0),
        ],
        vars: 0,
        atoms: &[],
        guards: &[(0, 0, true)],
        head: (99, 0, 0, 0),
    },
    // (=> true false)
    Case {
        rows: &[
            (Shape::True, &[], 4),
            (Shape::False, &[], 9),
            (Shape::Op(OpKind::Implies), &[0, 1], 0),
        ],
        vars: 0,
        atoms: &[],
        guards: &[(0, 0, true)],
        head: (99, 0, 0, 0),
    },
    // (let ((a true)) a)
    Case {
        rows: &[
            (Shape::True, &[], 9),
            (Shape::Name, &[0], 16),
            (Shape::Let, &[0, 1], 0),
        ],
        vars: 0,
        atoms: &[],
        guards: &[(0, 0, true)],
        head: (99, 0, 0, 0),
    },
    // (=> (or true false) r)
    Case {
        rows: &[
            (Shape::True, &[], 8),
            (Shape::False, &[], 13),
            (Shape::Op(OpKind::Or), &[0, 1], 4),
            (Shape::Pred(2), &[], 20),
            (Shape::Op(OpKind::Implies), &[2, 3], 0),
        ],
        vars: 0,
        atoms: &[],
        guards: &[(4, 0, false)],
        head: (2, 0, 0, 0),
    },
    // an implication has a body and a head
    // (forall ((x Int)) (=> (and (q x) (< x 10)) (p x)))
    Case {
        rows: &[
            (Shape::Var, &[], 30),
            (Shape::Pred(1), &[0], 27),
            (Shape::Num(10), &[], 38),
            (Shape::Op(OpKind::Lt), &[0, 2], 33),
            (Shape::Op(OpKind::And), &[1, 3], 22),
            (Shape::Pred(0), &[0], 43),
            (Shape::Op(OpKind::Implies), &[4, 5], 18),
            (Shape::ForAll, &[6], 0),
        ],
        vars: 1,
        atoms: &[1],
        guards: &[(33, 0, false)],
        head: (0, 0, 99, 0),
    },
    // a disjunct is negated, and a negated body is not
    // (or (< 1 2) (not (and (q 1) (< 1 2))) (p 1))
    Case {
        rows: &[
            (Shape::Num(1), &[], 7),
            (Shape::Num(2), &[], 9),
            (Shape::Op(OpKind::Lt), &[0, 1], 4),
            (Shape::Pred(1), &[0], 22),
            (Shape::Op(OpKind::Lt), &[0, 1], 28),
            (Shape::Op(OpKind::And), &[3, 4], 17),
            (Shape::Op(OpKind::Not), &[5], 12),
            (Shape::Pred(0), &[0], 38),
            (Shape::Op(OpKind::Or), &[2, 6, 7], 0),
        ],
        vars: 0,
        atoms: &[1],
        guards: &[(4, 0, true), (28, 0, false)],
        head: (0, 0, 99, 0),
    },
    // parts stand under their bindings
    // (let ((a 5)) (let ((b a)) (=> (< b 6) (p b))))
    Case {
        rows: &[
            (Shape::Num(5), &[], 9),
            (Shape::Name, &[0], 22),
            (Shape::Name, &[1], 33),
            (Shape::Num(6), &[], 35),
            (Shape::Op(OpKind::Lt), &[2, 3], 30),
            (Shape::Pred(0), &[2], 38),
            (Shape::Op(OpKind::Implies), &[4, 5], 26),
            (Shape::Let, &[1, 6], 13),
            (Shape::Let, &[0, 7], 0),
        ],
        vars: 0,
        atoms: &[],
        guards: &[(30, 2, false)],
        head: (0, 2, 8, 2),
    },
    // a denied exists has its variables and no head
    // (not (exists ((x Int)) (and (q x) (and true true))))
    Case {
        rows: &[
            (Shape::Var, &[], 31),
            (Shape::Pred(1), &[0], 28),
            (Shape::True, &[], 39),
            (Shape::Op(OpKind::And), &[2, 2], 34),
            (Shape::Op(OpKind::And), &[1, 3], 23),
            (Shape::Exists, &[4], 5),
            (Shape::Op(OpKind::Not), &[5], 0),
        ],
        vars: 1,
        atoms: &[1],
        guards: &[(34, 0, false)],
        head: (99, 0, 0, 0),
    },
    // what has no predicate is a guard first
    // (not (or true false))
    Case {
        rows: &[
            (Shape::True, &[], 9),
            (Shape::False, &[], 14),
            (Shape::Op(OpKind::Or), &[0, 1], 5),
            (Shape::Op(OpKind::Not), &[2], 0),
        ],
        vars: 0,
        atoms: &[],
        guards: &[(0, 0, true)],
        head: (99, 0, 0, 0),
    },
];

#[test]
fn each_form_gives_its_parts(rt: HostRuntime) {
    for (i, case) in CASES.iter().enumerate() {
        assert!(rt; gives(&rt, rt.alloc(), *case), "case {i}");
    }
}

/// The head under 1,990 bindings of 5, where there is nothing but it: (let ((a 5)) (let ((a 5)) .. (p 5))).
fn deep_head(rt: &impl Abort, alloc: Global) -> Head {
    let mut terms = Terms::new(alloc);
    put_term(rt, alloc, &mut terms, Shape::Num(5), &[], 0);
    put_term(rt, alloc, &mut terms, Shape::Pred(0), &[0], 0);
    for body in 1..1991 {
        put_term(rt, alloc, &mut terms, Shape::Let, &[0, body], 0);
    }
    let found = clause_of_last(rt, alloc, terms);
    match found {
        Err(_) => (9, 9, 9, 9),
        Ok(c) => {
            assert!(rt; c.vars.len() == 0 && c.atoms.len() == 0 && c.guards.len() == 0);
            let head = head(&c);
            mem::forget(c);
            head
        }
    }
}

/// As deep as a text may be nested.
#[test]
fn a_part_under_a_thousand_bindings(rt: HostRuntime) {
    assert!(rt; deep_head(&rt, rt.alloc()) == (0, 1990, 1991, 0));
}

/// A script of so many assertions of true.
fn script_of(rt: &impl Abort, alloc: Global, count: usize) -> Script {
    let mut terms = Terms::new(alloc);
    put_term(rt, alloc, &mut terms, Shape::True, &[], 0);
    let mut asserts = Items::new(alloc);
    for _ in 0..count {
        let assertion = Assertion {
            term: TermId(0),
            offset: 0,
            command: 0,
        };
        asserts.push(assertion).expect(rt, "memory");
    }
    Script {
        preds: Items::new(alloc),
        asserts,
        terms,
    }
}

#[test]
fn no_assertion_stands_past_the_limit(rt: HostRuntime) {
    let script = script_of(&rt, rt.alloc(), 65537);
    assert!(rt; has_assertion(&script, 65535));
    assert!(rt; !has_assertion(&script, 65536));
    assert!(rt; !has_assertion(&script, 65537));
    mem::forget(script);
}
