//! Which arguments of a predicate are the same variable.

ghost use Rattle.std.specs.Prelude.{◌≡◌, ◌<◌, ◌≤◌, Some, length, map, IfOk};
ghost use Rattle.std.specs.List.{AllByRecursion};
ghost use Rattle.base.specs.Limits.{most_arguments};
ghost use Rattle.clause_defined.specs.machinery.Classes.{class_in, is_same_argument, variable_in};

use base::Memory;
use horn_shape::Part;
use std::alloc::Global;
use term_tree::{Node, Terms};

/// The number of a variable.
fn variable_in(node: &Node) -> Option<u32>
    ensures { result ≡ variable_in (Some node.now) }
{
    match node {
        Node::Var { binder, .. } => Some(*binder),
        _ => None,
    }
}

/// Whether two arguments are one variable, or have one auxiliary variable, since they are one term.
fn is_same_argument(terms: &Terms, a: &Part, b: &Part) -> bool
    requires first { a.now.term.0 < length terms.now.nodes }
    requires second { b.now.term.0 < length terms.now.nodes }
    ensures { result ≡ is_same_argument terms.now.nodes a.now b.now }
{
    let first = variable_in(terms.node(a.term));
    let second = variable_in(terms.node(b.term));
    match (first, second) {
        (Some(x), Some(y)) => x == y,
        (None, None) => a.term.0 == b.term.0,
        _ => false,
    }
}

/// The first place of an argument that is the same.
fn class_in(terms: &Terms, args: &[Part], part: &Part) -> usize
    requires all { AllByRecursion (λ part. part.term.0 < length terms.now.nodes) args.now }
    requires there { part.now.term.0 < length terms.now.nodes }
    ensures is { result ≡ class_in terms.now.nodes args.now part.now }
    ensures within { result ≤ length args.now }
{
    for (at, other) in args.iter().enumerate() {
        if is_same_argument(terms, other, part) {
            return at;
        }
    }
    0
}

/// For each argument the first place of one that is the same: small numbers that are the same where
/// the variables are.
pub(crate) fn classes_of(alloc: Global, terms: &Terms, args: &[Part]) -> Result<Vec<u32>, Memory>
    requires there { AllByRecursion (λ part. part.term.0 < length terms.now.nodes) args.now }
    requires few { length args.now ≤ most_arguments }
    ensures { IfOk result (λ classes. classes.items ≡ map (class_in terms.now.nodes args.now) args.now) }
{
    let mut classes = Vec::with_capacity(alloc, args.len())?;
    for part in args {
        classes.push(class_in(terms, args, part) as u32)?;
    }
    Ok(classes)
}
