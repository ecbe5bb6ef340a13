//! What a search reads of clauses again and again. Forms and systems aren't let go, since that costs a proof.

ghost use Rattle.std.specs.Prelude.{◌<◌};

use base::{Items, Same};
use clause_form::{Atom, Clause, System};
use clause_index::{FlatGuard, IndexedSystem};
use lin_atoms::{Form, Lin, Lit};
use std::alloc::Global;
use std::mem;
use std::process::Abort;
use term_tree::Sort;

/// The literal that the first variable is at most the number.
fn at_most(rt: &impl Abort, alloc: Global, number: i128) -> Lit {
    let terms = Vec::from_slice(alloc, &[(0, 1)]).expect(rt, "memory");
    let constant = number.checked_neg().expect(rt, "a small number");
    Lit::Le(Lin::new(terms, constant).expect(rt, "a form"))
}

fn lit(rt: &impl Abort, alloc: Global, number: i128) -> Form {
    Form::Lit(at_most(rt, alloc, number))
}

fn pair(rt: &impl Abort, alloc: Global, first: Form, second: Form) -> Items<Form> {
    Items::from_vec(Vec::from_array(alloc, [first, second]).expect(rt, "memory"))
}

/// At most 1, and at most 2 or at most 3, and `rest`.
fn guard(rt: &impl Abort, alloc: Global, rest: Form) -> Form {
    let either = Form::Or(pair(rt, alloc, lit(rt, alloc, 2), lit(rt, alloc, 3)));
    let parts = [lit(rt, alloc, 1), either, rest, Form::True];
    Form::And(Items::from_vec(Vec::from_array(alloc, parts).expect(rt, "memory")))
}

/// At most 5, or at most 6.
fn either(rt: &impl Abort, alloc: Global) -> Form {
    Form::Or(pair(rt, alloc, lit(rt, alloc, 5), lit(rt, alloc, 6)))
}

/// At most 4, and false, and either at most 5 and at most 6, or at most 7.
fn inner(rt: &impl Abort, alloc: Global) -> Form {
    let both = Form::And(pair(rt, alloc, lit(rt, alloc, 5), lit(rt, alloc, 6)));
    let either = Form::Or(pair(rt, alloc, both, lit(rt, alloc, 7)));
    let parts = [lit(rt, alloc, 4), Form::False, either];
    Form::And(Items::from_vec(Vec::from_array(alloc, parts).expect(rt, "memory")))
}

/// At most 1, and then, each time as the second part of the conjunction before, at most 2, at most 3,
/// and either at most 5 and at most 6, or at most 7, among what `inner` has, and at last true.
fn nested(rt: &impl Abort, alloc: Global) -> Form {
    let third = Form::And(pair(rt, alloc, lit(rt, alloc, 3), inner(rt, alloc)));
    let second = Form::And(pair(rt, alloc, lit(rt, alloc, 2), third));
    let parts = [lit(rt, alloc, 1), second, Form::True];
    Form::And(Items::from_vec(Vec::from_array(alloc, parts).expect(rt, "memory")))
}

fn clause(rt: &impl Abort, alloc: Global, guard: Form, head: Option<u32>) -> Clause {
    let head = match head {
        Some(pred) => Some(Atom {
            pred,
            args: Items::from_slice(alloc, &[0]).expect(rt, "memory"),
        }),
        None => None,
    };
    Clause {
        assertion: 0,
        user: 1,
        sorts: Items::from_slice(alloc, &[Sort::Int]).expect(rt, "memory"),
        atoms: Items::new(alloc),
        guard,
        head,
    }
}

/// Two predicates over an integer, of which the first is the head of the first and the fourth clause, and
/// the second that of the third and the sixth; two clauses have none.
fn system(rt: &impl Abort, alloc: Global) -> System {
    let clauses = [
        clause(rt, alloc, guard(rt, alloc, inner(rt, alloc)), Some(0)),
        clause(rt, alloc, Form::True, None),
        clause(rt, alloc, lit(rt, alloc, 8), Some(1)),
        clause(rt, alloc, Form::False, Some(0)),
        clause(rt, alloc, either(rt, alloc), None),
        clause(rt, alloc, nested(rt, alloc), Some(1)),
    ];
    let clauses = Items::from_vec(Vec::from_array(alloc, clauses).expect(rt, "memory"));
    let int = Items::from_slice(alloc, &[Sort::Int]).expect(rt, "memory");
    let same = Items::from_slice(alloc, &[Sort::Int]).expect(rt, "memory");
    let preds = Vec::from_array(alloc, [int, same]).expect(rt, "memory");
    System::new(clauses, Items::from_vec(preds)).expect(rt, "a system")
}

fn indexed(rt: &impl Abort, alloc: Global) -> IndexedSystem {
    let system = system(rt, alloc);
    assert!(rt; system.clauses().len() < 1 << 32, "few clauses");
    IndexedSystem::new(alloc, system).expect(rt, "memory")
}

fn guard_at<'a>(rt: &impl Abort, indexed: &'a IndexedSystem, number: usize) -> FlatGuard<'a> {
    assert!(rt; number < indexed.clauses().len(), "the clause is there");
    indexed.guard(number)
}

/// The literal of a guard of that number is this one.
fn is_lit_at(rt: &impl Abort, guard: &FlatGuard, number: usize, lit: &Lit) -> bool {
    assert!(rt; number < guard.lits_len(), "as many");
    guard.lit(number).equals(lit)
}

/// Asserts that the literals of a guard are these.
fn check_lits(rt: &impl Abort, shows: &str, guard: &FlatGuard, lits: &[Lit]) {
    assert!(rt; guard.lits_len() == lits.len(), "the number of {shows}");
    let mut number: usize = 0;
    for lit in lits {
        assert!(rt; is_lit_at(rt, guard, number, lit), "{shows}");
        number = number.wrapping_add(1);
    }
}

/// Asserts that a guard's literals say so: at most each number, in order, and last that false holds, as 1 <= 0.
fn check_bounds(
    rt: &impl Abort,
    alloc: Global,
    shows: &str,
    guard: &FlatGuard,
    numbers: &[i128],
    is_false: bool,
) {
    let mut lits = Vec::new(alloc);
    for number in numbers {
        lits.push(at_most(rt, alloc, *number)).expect(rt, "memory");
    }
    if is_false {
        let lit = Lit::Le(Lin::of_constant(alloc, 1));
        lits.push(lit).expect(rt, "memory");
    }
    check_lits(rt, shows, guard, lits.as_slice());
    mem::forget(lits);
}

/// Asserts that a part is that form.
fn check_part(rt: &impl Abort, shows: &str, part: &Form, form: Form) {
    assert!(rt; part.equals(&form), "{shows}");
    mem::forget(form);
}

/// The parts of a disjunction of that number.
fn case_at<'a>(rt: &impl Abort, guard: &FlatGuard<'a>, number: usize) -> &'a [Form] {
    assert!(rt; number < guard.cases_len(), "the disjunction is there");
    guard.case(number)
}

#[test]
fn a_guard_gives_its_literals_and_its_open_disjunctions(rt: HostRuntime) {
    let alloc = rt.alloc();
    let rt = &rt;
    let indexed = indexed(rt, alloc);
    let guard = guard_at(rt, &indexed, 0);
    let shows = "its own, then the inner one, and false as 1 <= 0";
    check_bounds(rt, alloc, shows, &guard, &[1, 4], true);
    assert!(rt; guard.cases_len() == 2, "two disjunctions");
    let [two, three] = case_at(rt, &guard, 0) else {
        panic!(rt; "two parts of its own one")
    };
    check_part(rt, "in order", two, lit(rt, alloc, 2));
    check_part(rt, "and no more", three, lit(rt, alloc, 3));
    let [both, seven] = case_at(rt, &guard, 1) else {
        panic!(rt; "two parts of the inner one")
    };
    let five_and_six = pair(rt, alloc, lit(rt, alloc, 5), lit(rt, alloc, 6));
    check_part(rt, "a part stays closed", both, Form::And(five_and_six));
    check_part(rt, "the other part", seven, lit(rt, alloc, 7));
    mem::forget(indexed);
}

#[test]
fn a_guard_that_is_no_conjunction_gives_itself(rt: HostRuntime) {
    let alloc = rt.alloc();
    let rt = &rt;
    let indexed = indexed(rt, alloc);
    for (shows, number, lits, is_false, cases) in [
        ("one literal", 2, [8].as_slice(), false, 0),
        ("true gives nothing", 1, &[], false, 0),
        ("false is 1 <= 0", 3, &[], true, 0),
        ("a disjunction stays open", 4, &[], false, 1),
    ] {
        let guard = guard_at(rt, &indexed, number);
        check_bounds(rt, alloc, shows, &guard, lits, is_false);
        assert!(rt; guard.cases_len() == cases, "what is open");
    }
    let either = guard_at(rt, &indexed, 4);
    assert!(rt; case_at(rt, &either, 0).len() == 2, "as its two parts");
    mem::forget(indexed);
}

#[test]
fn a_conjunction_in_a_conjunction_is_opened_however_deep_it_stands(rt: HostRuntime) {
    let alloc = rt.alloc();
    let rt = &rt;
    let indexed = indexed(rt, alloc);
    let guard = guard_at(rt, &indexed, 5);
    check_bounds(
        rt,
        alloc,
        "from outside inwards",
        &guard,
        &[1, 2, 3, 4],
        true,
    );
    assert!(rt; guard.cases_len() == 1, "the disjunction of the innermost");
    let [_, seven] = case_at(rt, &guard, 0) else {
        panic!(rt; "two parts")
    };
    check_part(rt, "its second part", seven, lit(rt, alloc, 7));
    mem::forget(indexed);
}

#[test]
fn clauses_are_listed_by_their_heads_in_order(rt: HostRuntime) {
    let indexed = indexed(&rt, rt.alloc());
    for (shows, head, numbers) in [
        ("the first predicate", Some(0), [0, 3].as_slice()),
        ("the second", Some(1), &[2, 5]),
        ("without a head", None, &[1, 4]),
        ("no such predicate", Some(2), &[]),
    ] {
        assert!(&rt; indexed.with_head(head) == numbers, "{shows}");
    }
    mem::forget(indexed);
}
