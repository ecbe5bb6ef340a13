//! Terms with their nodes or first faults, written by hand from the rules. Nodes are shown in order:
//! numbers, `t` and `f`, variables by sort and number, names of `let` by the node that they stand
//! for, and the others with the numbers of their parts. Trees and terms aren't let go, since that costs a
//! proof.

ghost use Rattle.std.specs.Prelude.{◌+◌, ◌<◌, ◌^◌, length};
ghost use Rattle.term_check.specs.Weight.{weight};

use crate::reading::{add, parts};
use crate::spellings::TERMS;
use base::{Items, Memory};
use keyed_hash::KeyedState;
use sexp_read::{Tree, read_commands};
use std::alloc::Global;
use std::mem;
use std::process::Abort;
use term_check::{
    Fault, FormulaStop, Signature, TermStop, check_formula, check_term, trees_are_light,
};
use term_tree::{Name, Node, OpKind, Pred, Sort, TermId, Terms};

fn add_number(rt: &impl Abort, alloc: Global, shown: &mut String, number: u32) {
    let part = format!(in alloc; ",{number}").expect(rt, "memory");
    add(rt, shown, part.as_str());
}

fn shown_ids(rt: &impl Abort, alloc: Global, ids: &[TermId]) -> String {
    let mut shown = String::new(alloc);
    for id in ids {
        add_number(rt, alloc, &mut shown, id.0);
    }
    shown
}

/// A word, and the numbers of parts behind it.
fn with_parts(rt: &impl Abort, alloc: Global, word: &str, ids: &[TermId]) -> String {
    let ids = shown_ids(rt, alloc, ids);
    format!(in alloc; "{word}{ids}").expect(rt, "memory")
}

fn shown_pred(rt: &impl Abort, alloc: Global, pred: u32, args: &[TermId]) -> String {
    let word = format!(in alloc; "p{pred}").expect(rt, "memory");
    with_parts(rt, alloc, word.as_str(), args)
}

fn shown_op(rt: &impl Abort, alloc: Global, op: OpKind, args: &[TermId]) -> String {
    let word = format!(in alloc; "{op:?}").expect(rt, "memory");
    with_parts(rt, alloc, word.as_str(), args)
}

fn shown_let(rt: &impl Abort, alloc: Global, bound: &[TermId], body: TermId) -> String {
    let (ids, number) = (with_parts(rt, alloc, "let", bound), body.0);
    format!(in alloc; "{ids}:{number}").expect(rt, "memory")
}

fn shown_binder(
    rt: &impl Abort,
    alloc: Global,
    word: &str,
    first: u32,
    count: usize,
    body: TermId,
) -> String {
    let number = body.0;
    format!(in alloc; "{word}{first}+{count}:{number}").expect(rt, "memory")
}

fn shown_var(rt: &impl Abort, alloc: Global, binder: u32, sort: Sort) -> String {
    let shown = match sort {
        Sort::Int => format!(in alloc; "x{binder}"),
        Sort::Bool => format!(in alloc; "b{binder}"),
    };
    shown.expect(rt, "memory")
}

fn shown_divisible(rt: &impl Abort, alloc: Global, by: i64, arg: TermId) -> String {
    let number = arg.0;
    format!(in alloc; "{by}|{number}").expect(rt, "memory")
}

fn shown_name(rt: &impl Abort, alloc: Global, bound: TermId) -> String {
    let number = bound.0;
    format!(in alloc; "={number}").expect(rt, "memory")
}

fn shown_node(rt: &impl Abort, alloc: Global, node: &Node) -> String {
    match node {
        Node::Num(value) => format!(in alloc; "{value}").expect(rt, "memory"),
        Node::True => String::from_str(alloc, "t").expect(rt, "memory"),
        Node::False => String::from_str(alloc, "f").expect(rt, "memory"),
        Node::Var { binder, sort } => shown_var(rt, alloc, *binder, *sort),
        Node::LetVar { bound } => shown_name(rt, alloc, *bound),
        Node::Pred { pred, args } => shown_pred(rt, alloc, *pred, args.as_slice()),
        Node::Op { op, args } => shown_op(rt, alloc, *op, args.as_slice()),
        Node::Divisible { by, arg } => shown_divisible(rt, alloc, *by, *arg),
        Node::Let { bound, body } => shown_let(rt, alloc, bound.as_slice(), *body),
        Node::Forall { first, sorts, body } => {
            shown_binder(rt, alloc, "all", *first, sorts.len(), *body)
        }
        Node::Exists { first, sorts, body } => {
            shown_binder(rt, alloc, "any", *first, sorts.len(), *body)
        }
    }
}

/// Adds the node of that number, where there is one.
fn add_node(rt: &impl Abort, alloc: Global, shown: &mut String, terms: &Terms, id: u32) {
    if (id as usize) < terms.len() {
        let node = shown_node(rt, alloc, terms.node(TermId(id)));
        add(rt, shown, node.as_str());
        add(rt, shown, " ");
    }
}

fn shown_nodes(rt: &impl Abort, alloc: Global, terms: &Terms) -> String {
    let mut shown = String::new(alloc);
    for id in 0..1000u32 {
        add_node(rt, alloc, &mut shown, terms, id);
    }
    shown
}

fn shown_fault(rt: &impl Abort, alloc: Global, fault: Fault) -> String {
    let (kind, offset) = (fault.kind, fault.offset);
    format!(in alloc; "{kind:?} {offset} ").expect(rt, "memory")
}

fn name(rt: &impl Abort, alloc: Global, text: &[u8]) -> Name {
    Name {
        bytes: Items::from_slice(alloc, text).expect(rt, "memory"),
    }
}

fn declare(rt: &impl Abort, alloc: Global, signature: &mut Signature, text: &[u8], sorts: &[Sort]) {
    let pred = Pred {
        name: name(rt, alloc, text),
        args: Items::from_slice(alloc, sorts).expect(rt, "memory"),
    };
    assert!(rt; signature.len() < 100);
    assert!(rt; signature.number_of(pred.name.bytes.as_slice()).is_none());
    signature.declare(pred).expect(rt, "memory");
}

/// The predicates p of an Int, q of a Bool and an Int, r without arguments, and let, between bars, of
/// an Int.
fn declared(rt: &impl Abort, alloc: Global) -> Signature {
    let mut signature = Signature::new(alloc, KeyedState::of_text(b"declared"));
    declare(rt, alloc, &mut signature, b"p", &[Sort::Int]);
    declare(rt, alloc, &mut signature, b"q", &[Sort::Bool, Sort::Int]);
    declare(rt, alloc, &mut signature, b"r", &[]);
    declare(rt, alloc, &mut signature, b"let", &[Sort::Int]);
    signature
}

/// The term that a tree gives, or its fault.
fn spelled(
    rt: &impl Abort,
    alloc: Global,
    text: &[u8],
    signature: &Signature,
    tree: &Tree,
) -> Result<String, Memory>
    requires { weight tree.now < 2 ^ 32 }
{
    let mut terms = Terms::new(alloc);
    let shown = match check_term(alloc, text, signature, tree, &mut terms) {
        Ok(_) => Ok(shown_nodes(rt, alloc, &terms)),
        Err(TermStop::Fault(fault)) => Ok(shown_fault(rt, alloc, fault)),
        Err(TermStop::Memory) => Err(Memory),
    };
    mem::forget(terms);
    shown
}

/// The term that the first tree of the text gives, or its fault.
fn read(
    rt: &impl Abort,
    alloc: Global,
    text: &[u8],
    signature: &Signature,
) -> Result<String, Memory>
    requires { length text.now < 2 ^ 32 }
{
    // A law, which runs nothing.
    trees_are_light();
    let read = read_commands(alloc, text)?;
    let shown = match read.trees.as_slice().get(0) {
        Some(tree) => spelled(rt, alloc, text, signature, tree),
        None => Ok(String::new(alloc)),
    };
    mem::forget(read);
    shown
}

/// Whether a text begins so, or is that text.
fn is_as_told(found: &str, expected: &str, whole: bool) -> bool {
    found.starts_with(expected) && (!whole || found.len() == expected.len())
}

/// Asserts how what the first tree of the text gives begins, or all of it.
fn check(
    rt: &impl Abort,
    alloc: Global,
    signature: &Signature,
    shows: &str,
    text: &[u8],
    expected: &str,
    whole: bool,
) {
    assert!(rt; text.len() < 100000, "{shows}");
    let found = read(rt, alloc, text, signature).expect(rt, "memory");
    assert!(rt; is_as_told(found.as_str(), expected, whole), "{shows}");
}

#[test]
fn each_term_is_what_the_rules_say(rt: HostRuntime) {
    let signature = declared(&rt, rt.alloc());
    let mut tried: usize = 0;
    for case in TERMS.split('¶') {
        if let Some((shows, text, expected)) = parts(case) {
            check(
                &rt,
                rt.alloc(),
                &signature,
                shows,
                text.as_bytes(),
                expected,
                true,
            );
            tried = tried.saturating_add(1);
        }
    }
    assert!(rt; tried == 64);
    mem::forget(signature);
}

fn add_all(rt: &impl Abort, text: &mut String, part: &str, count: usize) {
    for _ in 0..count {
        add(rt, text, part);
    }
}

/// A text with `count` copies of one part before its middle, and as many of another one behind it.
fn around(
    rt: &impl Abort,
    alloc: Global,
    front: &str,
    part: &str,
    count: usize,
    middle: &str,
    other: &str,
) -> String {
    let mut text = String::from_str(alloc, front).expect(rt, "memory");
    add_all(rt, &mut text, part, count);
    add(rt, &mut text, middle);
    add_all(rt, &mut text, other, count);
    text
}

fn check_text(
    rt: &impl Abort,
    alloc: Global,
    shows: &str,
    text: String,
    expected: &str,
    whole: bool,
) {
    let signature = declared(rt, alloc);
    check(
        rt,
        alloc,
        &signature,
        shows,
        text.as_bytes(),
        expected,
        whole,
    );
    mem::forget(signature);
}

fn check_distinct(rt: &impl Abort, alloc: Global, count: usize, expected: &str, whole: bool) {
    let text = around(rt, alloc, "(distinct", " 1", count, ")", "");
    check_text(rt, alloc, "distinct terms", text, expected, whole);
}

#[test]
fn distinct_has_64_terms_at_most(rt: HostRuntime) {
    for (count, expected, whole) in [
        (1, "Arity 0 ", true),
        (64, "1 1 ", false),
        (65, "Count 0 ", true),
        (200, "Count 0 ", true),
    ] {
        check_distinct(&rt, rt.alloc(), count, expected, whole);
    }
}

#[test]
fn terms_may_be_deep(rt: HostRuntime) {
    let text = around(&rt, rt.alloc(), "", "(not ", 1900, "true", ")");
    check_text(&rt, rt.alloc(), "a deep term", text, "t Not,0 ", false);
}

#[test]
fn binders_may_be_deep(rt: HostRuntime) {
    let text = around(
        &rt,
        rt.alloc(),
        "",
        "(let ((x true)) (and ",
        950,
        "zz",
        "))",
    );
    check_text(
        &rt,
        rt.alloc(),
        "deep binders",
        text,
        "UnknownSymbol 19950 ",
        true,
    );
}

/// The formula of a tree over an integer x and a truth value y, or where its fault stands.
fn formula_of(rt: &impl Abort, alloc: Global, text: &[u8], tree: &Tree) -> Result<String, Memory>
    requires { 2 + weight tree.now < 2 ^ 32 }
{
    let (x, y) = (name(rt, alloc, b"x"), name(rt, alloc, b"y"));
    let params = [(x, Sort::Int), (y, Sort::Bool)];
    let found = check_formula(alloc, KeyedState::of_text(text), text, tree, &params);
    mem::forget(params);
    match found {
        Ok((terms, _)) => {
            let shown = shown_nodes(rt, alloc, &terms);
            mem::forget(terms);
            Ok(shown)
        }
        Err(FormulaStop::Bad { offset }) => {
            Ok(format!(in alloc; "{offset}").expect(rt, "memory"))
        }
        Err(FormulaStop::Memory) => Err(Memory),
    }
}

fn formula(rt: &impl Abort, alloc: Global, text: &[u8]) -> Result<String, Memory>
    requires { length text.now < 2 ^ 31 }
{
    // A law, which runs nothing.
    trees_are_light();
    let read = read_commands(alloc, text)?;
    let shown = match read.trees.as_slice().get(0) {
        Some(tree) => formula_of(rt, alloc, text, tree),
        None => Ok(String::new(alloc)),
    };
    mem::forget(read);
    shown
}

fn check_parameters(rt: &impl Abort, alloc: Global, shows: &str, text: &[u8], expected: &str) {
    assert!(rt; text.len() < 1000, "{shows}");
    let found = formula(rt, alloc, text).expect(rt, "memory");
    assert!(rt; found.as_str() == expected, "{shows}");
}

#[test]
fn formulas_have_parameters_alone(rt: HostRuntime) {
    for (shows, text, expected) in [
        (
            "parameters by number",
            "(or y (< x 3))",
            "b1 x0 3 Lt,1,2 Or,0,3 ",
        ),
        ("no truth", "x", "0"),
        ("a predicate", "(not (p 1))", "6"),
        ("a quantifier", "(and y (forall ((z zz)) true))", "7"),
        ("a symbol", "(or y zz)", "6"),
        ("a name of let", "(let ((x true)) x)", "t =0 let,0:1 "),
    ] {
        check_parameters(&rt, rt.alloc(), shows, text.as_bytes(), expected);
    }
}
