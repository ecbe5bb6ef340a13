//! Terms, forms and rows of tables, for the tests of all modules.
//!
//! The tests hand most of what they made to `mem::forget` once they have looked at it: to let such values go
//! part by part is known to be right for every value, and would be proved anew in each function.

ghost use Rattle.std.specs.Prelude.{◌≡◌, ◌++◌, [], ◌∷◌};

use base::Items;
use lin_atoms::{Form, Lin, Lit};
use std::alloc::Global;
use std::process::Abort;
use term_tree::{Node, OpKind, TermId, Terms};

/// Puts a node behind the terms, which are few.
pub(crate) fn put(rt: &impl Abort, terms: &mut Terms, node: Node)
    ensures { terms.new.nodes ≡ terms.old.nodes ++ node ∷ [] }
{
    assert!(rt; terms.len() < 1000);
    assert!(rt; node.has_parts_below(terms.len()));
    terms.add(node, 0).expect(rt, "memory");
}

/// Puts the operation on these terms behind them.
pub(crate) fn apply(
    rt: &impl Abort,
    alloc: Global,
    terms: &mut Terms,
    op: OpKind,
    args: &[TermId],
) {
    let args = Items::from_slice(alloc, args).expect(rt, "memory");
    put(rt, terms, Node::Op { op, args });
}

/// The form with these terms.
pub(crate) fn lin(rt: &impl Abort, alloc: Global, terms: &[(u32, i64)], constant: i128) -> Lin {
    let terms = Vec::from_slice(alloc, terms).expect(rt, "memory");
    Lin::new(terms, constant).expect(rt, "a form")
}

pub(crate) fn le(rt: &impl Abort, alloc: Global, terms: &[(u32, i64)], constant: i128) -> Form {
    Form::Lit(Lit::Le(lin(rt, alloc, terms, constant)))
}

pub(crate) fn eq(rt: &impl Abort, alloc: Global, terms: &[(u32, i64)], constant: i128) -> Form {
    Form::Lit(Lit::Eq(lin(rt, alloc, terms, constant)))
}

/// A list of two forms.
pub(crate) fn two(rt: &impl Abort, alloc: Global, first: Form, second: Form) -> Items<Form> {
    let mut parts = Items::new(alloc);
    add(rt, &mut parts, first);
    add(rt, &mut parts, second);
    parts
}

pub(crate) fn add(rt: &impl Abort, parts: &mut Items<Form>, part: Form) {
    parts.push(part).expect(rt, "memory");
}

/// The parts of a case.
pub(crate) fn parts(case: &str) -> Option<(&str, &str, &str)> {
    let mut parts = case.split('§');
    match (parts.next(), parts.next(), parts.next()) {
        (Some(shows), Some(asserts), Some(awaited)) => Some((shows, asserts, awaited)),
        _ => None,
    }
}

/// Asserts that something holds, and names the case where it doesn't.
pub(crate) fn check(rt: &impl Abort, holds: bool, case: &str) {
    assert!(rt; holds, "{case}");
}

/// Asserts that something holds of a term, and names the term where it doesn't.
pub(crate) fn check_of(rt: &impl Abort, holds: bool, id: u32) {
    assert!(rt; holds, "{id}");
}
