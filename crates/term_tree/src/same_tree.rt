ghost use Rattle.std.specs.Prelude.{◌≡◌, ◌==◌, ◌&&◌, ◌∷◌, [], ℕ, Bool, length, slice_get, Some, None, true, IfOk, IfSome, IfNone, IsTrue};
ghost use Rattle.std.specs.List.{list_all};
ghost use Rattle.std.specs.BTreeSet.{keys};
ghost use Rattle.term_tree.specs.Arena.{has_parts_below};
ghost use Rattle.term_tree.specs.Same.{is_alike, is_same_tree, parts_of, same_op, same_parts, same_sorts};
ghost use Rattle.term_tree.specs.Sorts.{same_sort};

use crate::node::{Node, OpKind, TermId};
use crate::pairs::{put_pair, put_partners, take_greatest_pair};
use crate::sort::Sort;
use crate::terms::Terms;
use base::{Items, Memory, Same};
use std::alloc::Global;
use std::collections::BTreeSet;

/// Whether two terms are equal as trees, whatever their offsets and the numbers that their arenas give
/// them. Each pair of subterms is compared once, so that shared terms cost nothing twice.
pub fn same_terms(alloc: Global, a: &Terms, i: TermId, b: &Terms, j: TermId) -> Result<bool, Memory>
    ensures { IfOk result (λ same. same ≡ is_same_tree a.now.nodes i.0 b.now.nodes j.0) }
{
    let mut waiting = BTreeSet::new(alloc);
    put_pair(&mut waiting, i, j)?;
    while let Some(pair) = take_greatest_pair(&mut waiting) {
        let Some(left) = found(a, pair.0) else {
            return Ok(false);
        };
        let Some(right) = found(b, pair.1) else {
            return Ok(false);
        };
        if !put_parts(alloc, &mut waiting, left, right)? {
            return Ok(false);
        }
    }
    Ok(true)
}

fn found(terms: &Terms, id: u32) -> Option<&Node>
    ensures is { IfSome result (λ node. slice_get terms.now.nodes id ≡ Some node.now) }
    ensures below { IfSome result (λ node. IsTrue (has_parts_below id node.now)) }
    ensures none { IfNone result (slice_get terms.now.nodes id ≡ None) }
{
    if (id as usize) < terms.len() {
        Some(terms.node(TermId(id)))
    } else {
        None
    }
}

/// Puts the parts of alike nodes into the set, each with its partner.
fn put_parts(
    alloc: Global,
    pairs: &mut BTreeSet<(u32, u32)>,
    left: &Node,
    right: &Node,
) -> Result<bool, Memory>
    ensures alike { IfOk result (λ alike. alike ≡ (is_alike left.now right.now && (length (parts_of left.now) == length (parts_of right.now)))) }
    ensures put { IfOk result (λ alike. alike ≡ true → (test : ℕ × ℕ → Bool) → list_all test (keys pairs.new)
        ≡ (list_all test (keys pairs.old) && same_parts (λ i j. test (i, j)) (parts_of left.now) (parts_of right.now))) }
{
    if !is_alike(left, right) {
        return Ok(false);
    }
    let lefts = parts_of(alloc, left)?;
    let rights = parts_of(alloc, right)?;
    put_partners(pairs, lefts.as_slice(), rights.as_slice())
}

/// The parts of a node, in order.
fn parts_of(alloc: Global, node: &Node) -> Result<Vec<TermId>, Memory>
    ensures { IfOk result (λ parts. parts.items ≡ parts_of node.now) }
{
    match node {
        Node::Num(_) | Node::True | Node::False | Node::Var { .. } => Ok(Vec::new(alloc)),
        Node::LetVar { bound } => one(alloc, *bound),
        Node::Pred { args, .. } => copies(alloc, args.as_slice()),
        Node::Op { args, .. } => copies(alloc, args.as_slice()),
        Node::Divisible { arg, .. } => one(alloc, *arg),
        Node::Let { bound, body } => body_and_bound(alloc, *body, bound.as_slice()),
        Node::Forall { body, .. } => one(alloc, *body),
        Node::Exists { body, .. } => one(alloc, *body),
    }
}

fn one(alloc: Global, part: TermId) -> Result<Vec<TermId>, Memory>
    ensures { IfOk result (λ parts. parts.items ≡ part ∷ []) }
{
    Ok(Vec::from_array(alloc, [part])?)
}

fn copies(alloc: Global, parts: &[TermId]) -> Result<Vec<TermId>, Memory>
    ensures { IfOk result (λ copied. copied.items ≡ parts.now) }
{
    Ok(Vec::from_slice(alloc, parts)?)
}

fn body_and_bound(alloc: Global, body: TermId, bound: &[TermId]) -> Result<Vec<TermId>, Memory>
    ensures { IfOk result (λ parts. parts.items ≡ body ∷ bound.now) }
{
    let mut parts = one(alloc, body)?;
    parts.extend_from_slice(bound)?;
    Ok(parts)
}

/// Nodes of one kind, with the same numbers, sorts and operator.
fn is_alike(left: &Node, right: &Node) -> bool
    ensures { result ≡ is_alike left.now right.now }
{
    match (left, right) {
        (Node::Num(m), Node::Num(n)) => *m == *n,
        (Node::True, Node::True) => true,
        (Node::False, Node::False) => true,
        (
            Node::Var { binder, sort },
            Node::Var {
                binder: other,
                sort: kind,
            },
        ) => *binder == *other && is_sort(*sort, *kind),
        (Node::LetVar { .. }, Node::LetVar { .. }) => true,
        (Node::Pred { pred, .. }, Node::Pred { pred: other, .. }) => *pred == *other,
        (Node::Op { op, .. }, Node::Op { op: other, .. }) => is_op(*op, *other),
        (Node::Divisible { by, .. }, Node::Divisible { by: other, .. }) => *by == *other,
        (Node::Let { .. }, Node::Let { .. }) => true,
        (
            Node::Forall { first, sorts, .. },
            Node::Forall {
                first: other,
                sorts: kinds,
                ..
            },
        ) => *first == *other && are_sorts(sorts, kinds),
        (
            Node::Exists { first, sorts, .. },
            Node::Exists {
                first: other,
                sorts: kinds,
                ..
            },
        ) => *first == *other && are_sorts(sorts, kinds),
        _ => false,
    }
}

fn is_op(left: OpKind, right: OpKind) -> bool
    ensures { result ≡ same_op left right }
{
    left == right
}

fn is_sort(left: Sort, right: Sort) -> bool
    ensures { result ≡ same_sort left right }
{
    left == right
}

fn are_sorts(left: &Items<Sort>, right: &Items<Sort>) -> bool
    ensures { result ≡ same_sorts left.now right.now }
{
    left.equals(right)
}
