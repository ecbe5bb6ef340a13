//! Small clauses against the values of their terms: over all values of two variables from -4 to 4 the
//! guard has one extension where the guards of the assertion are true, and else none, and arguments
//! have the values of their terms.

use crate::made::check;
use crate::texts::script_of;
use clause_form::{Atom, Clause, System};
use clause_normal::read_clauses;
use horn_shape::{AtomUse, HornClause, HornStop, clause_of, has_assertion};
use lin_atoms::{Form, holds};
use std::alloc::Global;
use std::mem;
use std::process::Abort;
use term_tree::{Checked, Script, Sort, TermId, Value, ValueStop, value};

/// What a case shows, and an assertion over two variables with two auxiliary ones at most.
const CASES: &str = "\
    quotients by a positive number§\
        (forall ((x Int) (y Int)) (=> (= (div x 3) y) q))¶\
    quotients by a negative number§\
        (forall ((x Int) (y Int)) (=> (= (div x (- 3)) y) q))¶\
    remainders§\
        (forall ((x Int) (y Int)) (=> (< (mod (+ x y) (- 2)) 1) q))¶\
    magnitudes§\
        (forall ((x Int) (y Int)) (=> (<= (abs (- x y)) 2) q))¶\
    a choice by a comparison§\
        (forall ((x Int) (y Int)) (=> (> (ite (< x y) x (- y)) 0) q))¶\
    an argument§\
        (forall ((x Int) (y Int)) (=> (p (- (* 2 x) y)) (< x 3) q))¶\
    a remainder as a head's argument§\
        (forall ((x Int) (y Int)) (=> (distinct x y 1) (p (mod x 3))))¶\
    a quotient of a remainder§\
        (forall ((x Int) (y Int)) (=> (= (div (mod x 4) 2) y) q))¶\
    multiples§\
        (forall ((x Int) (y Int)) (=> ((_ divisible 3) (+ x (* 2 y))) (not (= x y)) q))¶\
    chains of relations§\
        (forall ((x Int) (y Int)) (=> (<= (- 3) x y 2) (>= y x 0) q))¶\
    an exclusive or of comparisons§\
        (forall ((x Int) (y Int)) (=> (xor (< x 0) (= y 1)) q))¶\
    equal truth values§\
        (forall ((b Bool) (y Int)) (=> (= b (< y 2)) q))¶\
    distinct truth values§\
        (forall ((b Bool) (y Int)) (=> (distinct b (not b)) (< y 0) q))¶\
    a name for a truth value§\
        (forall ((b Bool) (y Int)) (=> (let ((c (or b (< y 0)))) (=> c b)) (r b y)))¶\
    a choice between truth values§\
        (forall ((b Bool) (y Int)) (=> (ite b (< y 0) (> y 0)) q))¶\
    a negated guard§\
        (forall ((b Bool) (y Int)) (or (not b) (and b (< y 1)) q))";

/// The values of two variables and of two more.
type Point = [i64; 4];

/// Whether the guard is true at the point, whose auxiliary variables past the first `auxiliary` are 0.
fn is_extension(guard: &Form, point: Point, auxiliary: usize) -> bool {
    let unused = (auxiliary < 1 && point[2] != 0) || (auxiliary < 2 && point[3] != 0);
    !unused && holds(guard, point.as_slice())
}

/// The number of extensions that make the guard true, by values from -12 to 12 of the first `auxiliary`
/// auxiliary variables, and the last of them.
fn extensions(guard: &Form, x: i64, y: i64, auxiliary: usize) -> (u32, Point) {
    let mut count: u32 = 0;
    let mut last: Point = [x, y, 0, 0];
    for a in -12..13 {
        for b in -12..13 {
            let point: Point = [x, y, a, b];
            if is_extension(guard, point, auxiliary) {
                count = count.saturating_add(1);
                last = point;
            }
        }
    }
    (count, last)
}

/// An integer as the value of a variable of that sort; `None` where it is none.
fn value_of(sort: Sort, number: i64) -> Option<Value> {
    match sort {
        Sort::Int => Some(Value::Int(i128::from(number))),
        Sort::Bool => match number {
            0 => Some(Value::Bool(false)),
            1 => Some(Value::Bool(true)),
            _ => None,
        },
    }
}

/// The values of the two variables, where both are values of their sorts.
fn environment(sorts: &[Sort], x: i64, y: i64) -> Option<[Value; 2]> {
    match sorts {
        [first, second] => match (value_of(*first, x), value_of(*second, y)) {
            (Some(x), Some(y)) => Some([x, y]),
            _ => None,
        },
        _ => None,
    }
}

/// The value of a term, a truth value as 0 or 1; `None` where there is none here.
fn number_at(
    rt: &impl Abort,
    alloc: Global,
    script: &Script,
    id: TermId,
    env: &[Value],
) -> Option<i128> {
    if id.0 as usize >= script.terms.len() {
        return None;
    }
    match value(alloc, &script.terms, id, env) {
        Ok(Value::Int(n)) => Some(n),
        Ok(Value::Bool(b)) => Some(i128::from(b)),
        Err(ValueStop::ValueWide { .. }) => None,
        Err(ValueStop::Memory) => rt.panic("memory"),
    }
}

/// Whether all guards are as the clause says.
fn are_met(
    rt: &impl Abort,
    alloc: Global,
    script: &Script,
    clause: &HornClause,
    env: &[Value],
) -> bool {
    for guard in clause.guards.as_slice() {
        let awaited = if guard.negated { 0 } else { 1 };
        if number_at(rt, alloc, script, guard.term, env) != Some(awaited) {
            return false;
        }
    }
    true
}

/// Whether the argument of that number has the value of its term at the point.
fn is_argument(
    rt: &impl Abort,
    alloc: Global,
    script: &Script,
    given: &AtomUse,
    made: &Atom,
    number: usize,
    env: &[Value],
    point: &Point,
) -> bool {
    let (Some(part), Some(variable)) = (given.args.get(number), made.args.get(number)) else {
        return false;
    };
    let Some(held) = point.get(*variable as usize) else {
        return false;
    };
    number_at(rt, alloc, script, part.term, env) == Some(i128::from(*held))
}

/// Whether all arguments have the values of their terms at the point.
fn are_arguments(
    rt: &impl Abort,
    alloc: Global,
    script: &Script,
    given: &AtomUse,
    made: &Atom,
    env: &[Value],
    point: &Point,
) -> bool {
    for number in 0..given.args.len() {
        if !is_argument(rt, alloc, script, given, made, number, env, point) {
            return false;
        }
    }
    given.args.len() == made.args.len()
}

/// Whether all arguments of the head have the values of their terms at the point; so too where neither
/// clause has a head.
fn is_head(
    rt: &impl Abort,
    alloc: Global,
    script: &Script,
    given: &HornClause,
    made: &Clause,
    env: &[Value],
    point: &Point,
) -> bool {
    match (&given.head, &made.head) {
        (None, None) => true,
        (Some(atom), Some(other)) => are_arguments(rt, alloc, script, atom, other, env, point),
        _ => false,
    }
}

/// Whether all arguments of the body atoms and of the head have the values of their terms at the point.
fn are_tuples(
    rt: &impl Abort,
    alloc: Global,
    script: &Script,
    given: &HornClause,
    made: &Clause,
    env: &[Value],
    point: &Point,
) -> bool {
    for (atom, other) in given.atoms.as_slice().iter().zip(made.atoms.as_slice()) {
        if !are_arguments(rt, alloc, script, atom, other, env, point) {
            return false;
        }
    }
    is_head(rt, alloc, script, given, made, env, point)
}

/// Whether clause and assertion agree at these values of the variables.
fn agrees_at(
    rt: &impl Abort,
    alloc: Global,
    script: &Script,
    given: &HornClause,
    made: &Clause,
    x: i64,
    y: i64,
) -> bool {
    let auxiliary = made.sorts.len().saturating_sub(2);
    let (count, point) = extensions(&made.guard, x, y, auxiliary);
    let Some(env) = environment(given.vars.as_slice(), x, y) else {
        return count == 0;
    };
    if !are_met(rt, alloc, script, given, env.as_slice()) {
        return count == 0;
    }
    count == 1
        && auxiliary <= 2
        && are_tuples(rt, alloc, script, given, made, env.as_slice(), &point)
}

fn agrees(
    rt: &impl Abort,
    alloc: Global,
    script: &Script,
    given: &HornClause,
    made: &Clause,
) -> bool {
    for x in -4..5 {
        for y in -4..5 {
            if !agrees_at(rt, alloc, script, given, made, x, y) {
                return false;
            }
        }
    }
    true
}

/// Whether the clause of a script's first assertion agrees with it.
fn first_agrees(rt: &impl Abort, alloc: Global, script: &Script, made: &Clause) -> bool {
    if !has_assertion(script, 0) {
        return false;
    }
    let found = clause_of(alloc, script, 0);
    let agrees = match &found {
        Ok(given) => agrees(rt, alloc, script, given, made),
        Err(HornStop::NotHorn { .. }) => false,
        Err(HornStop::Memory) => rt.panic("memory"),
    };
    mem::forget(found);
    agrees
}

/// Whether the system's one clause agrees with the script's first assertion; not where the system has
/// another number of clauses.
fn script_agrees(rt: &impl Abort, alloc: Global, checked: &Checked, system: &System) -> bool {
    match system.clauses() {
        [made] => first_agrees(rt, alloc, &checked.script, made),
        _ => false,
    }
}

/// Whether the clause of an assertion of this term agrees with it.
fn text_agrees(rt: &impl Abort, alloc: Global, term: &str) -> bool {
    let text = format!(in alloc; "(assert {term})").expect(rt, "memory");
    let checked = script_of(rt, alloc, text.as_str());
    let system = read_clauses(alloc, &checked).expect(rt, "clauses");
    let agrees = script_agrees(rt, alloc, &checked, &system);
    mem::forget(checked);
    mem::forget(system);
    agrees
}

/// The parts of a case.
fn parts(case: &str) -> Option<(&str, &str)> {
    let mut parts = case.split('§');
    match (parts.next(), parts.next()) {
        (Some(shows), Some(term)) => Some((shows, term)),
        _ => None,
    }
}

/// Checks each case of a table, and answers how many there are.
pub fn check_all(rt: &impl Abort, alloc: Global, table: &str) -> usize {
    let mut tried: usize = 0;
    for case in table.split('¶') {
        if let Some((shows, term)) = parts(case) {
            check(rt, text_agrees(rt, alloc, term), shows);
            tried = tried.saturating_add(1);
        }
    }
    tried
}

#[test]
fn points_of_guards_are_instances(rt: HostRuntime) {
    assert!(rt; check_all(&rt, rt.alloc(), CASES) == 16);
}

/// The quotient and the remainder of -7 by 2, as the only points.
#[test]
fn minus_7_by_2_is_minus_4_and_leaves_1(rt: HostRuntime) {
    let text = "(forall ((x Int) (y Int)) (=> (= x (div (- 7) 2)) (= y (mod (- 7) 2)) q))";
    assert!(rt; text_agrees(&rt, rt.alloc(), text));
}
