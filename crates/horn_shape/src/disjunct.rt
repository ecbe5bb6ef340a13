//! Terms as disjuncts of a clause.

ghost use Rattle.std.specs.Prelude.{◌≡◌, ◌<◌, ◌^◌, ◌&&◌, ◌||◌, ℕ, false, length, slice_get, IsErrOf, IsTrue, OnOk, Ok, Some};
ghost use Rattle.std.specs.List.{list_all};
ghost use Rattle.term_tree.specs.Arena.{has_parts_below, is_below};
ghost use Rattle.term_tree.specs.declared.node.Node.TheVariants.{Op};
ghost use Rattle.horn_shape.specs.Shape.{disjunct_form, disjunct_reading, disjuncts};
ghost use Rattle.horn_shape.specs.Flags.{ArePlainFlags};
ghost use Rattle.horn_shape.specs.machinery.Gathering.{IsMisfit, is_negation, onto, place_of};

use crate::body::read_body;
use crate::clause::HornClause;
use crate::gather::{is_application, misfit, put_guard, put_head};
use crate::plain::PlainTerms;
use crate::stop::HornStop;
use std::alloc::Global;
use term_tree::{Node, OpKind, TermId, Terms};

/// Disjuncts, of which one at most is an application.
pub(crate) fn read_disjuncts(
    alloc: Global,
    terms: &Terms,
    plain: &PlainTerms,
    above: TermId,
    ids: &[TermId],
    lets: &[TermId],
    out: &mut HornClause,
) -> Result<(), HornStop>
    requires there { above.0 < length terms.now.nodes }
    requires below { IsTrue (list_all (is_below above.0) ids.now) }
    requires flags { ArePlainFlags terms.now.nodes plain.now }
    ensures read { OnOk result (onto out.old (disjuncts terms.now.nodes false lets.now ids.now) ≡ Ok out.new) }
    ensures misfit { (offset : ℕ) → IsErrOf result (HornStop.NotHorn offset) →
        IsMisfit terms.now.offsets (onto out.old (disjuncts terms.now.nodes false lets.now ids.now)) offset }
{
    let mut headed = false;
    for id in ids {
        let node = terms.node(*id);
        let is_head = is_application(node);
        if both(headed, is_head) {
            return Err(misfit(terms, *id));
        }
        match read_disjunct(alloc, terms, plain, *id, node, lets, out) {
            Ok(()) => {}
            Err(stop) => return Err(stop),
        }
        headed = either(headed, is_head);
    }
    Ok(())
}

/// What the term gives as a disjunct.
fn read_disjunct(
    alloc: Global,
    terms: &Terms,
    plain: &PlainTerms,
    id: TermId,
    node: &Node,
    lets: &[TermId],
    out: &mut HornClause,
) -> Result<(), HornStop>
    requires there { id.0 < length terms.now.nodes }
    requires node { slice_get terms.now.nodes id.0 ≡ Some node.now }
    requires below { IsTrue (has_parts_below id.0 node.now) }
    requires flags { ArePlainFlags terms.now.nodes plain.now }
    ensures read { OnOk result (onto out.old (disjunct_reading terms.now.nodes (Some node.now) (place_of id lets.now)) ≡ Ok out.new) }
    ensures misfit { (offset : ℕ) → IsErrOf result (HornStop.NotHorn offset) →
        IsMisfit terms.now.offsets (onto out.old (disjunct_reading terms.now.nodes (Some node.now) (place_of id lets.now))) offset }
{
    if plain.is_plain(id) {
        put_guard(alloc, id, lets, true, out)?;
        return Ok(());
    }
    read_disjunct_form(alloc, terms, plain, id, node, lets, out)
}

/// What a term with a predicate or a quantifier gives as a disjunct under these `let` terms, by its
/// node, put behind what was gathered; `NotHorn` tells where a subterm that doesn't fit starts.
fn read_disjunct_form(
    alloc: Global,
    terms: &Terms,
    plain: &PlainTerms,
    id: TermId,
    node: &Node,
    lets: &[TermId],
    out: &mut HornClause,
) -> Result<(), HornStop>
    requires there { id.0 < length terms.now.nodes }
    requires short { id.0 < 2 ^ 32 }
    requires below { IsTrue (has_parts_below id.0 node.now) }
    requires flags { ArePlainFlags terms.now.nodes plain.now }
    ensures read { OnOk result (onto out.old (disjunct_form terms.now.nodes node.now (place_of id lets.now)) ≡ Ok out.new) }
    ensures misfit { (offset : ℕ) → IsErrOf result (HornStop.NotHorn offset) →
        IsMisfit terms.now.offsets (onto out.old (disjunct_form terms.now.nodes node.now (place_of id lets.now))) offset }
{
    match node {
        Node::Pred { pred, args } => {
            if !plain.are_plain(args.as_slice()) {
                return Err(misfit(terms, id));
            }
            put_head(alloc, *pred, args.as_slice(), lets, out)?;
            Ok(())
        }
        Node::Op { op, args } => read_denied(
            alloc,
            terms,
            plain,
            id,
            *op,
            args.as_slice(),
            lets,
            out,
        ),
        Node::Num(_) => Err(misfit(terms, id)),
        Node::True => Err(misfit(terms, id)),
        Node::False => Err(misfit(terms, id)),
        Node::Var { .. } => Err(misfit(terms, id)),
        Node::LetVar { .. } => Err(misfit(terms, id)),
        Node::Divisible { .. } => Err(misfit(terms, id)),
        Node::Let { .. } => Err(misfit(terms, id)),
        Node::Forall { .. } => Err(misfit(terms, id)),
        Node::Exists { .. } => Err(misfit(terms, id)),
    }
}

/// A negated body as a disjunct.
fn read_denied(
    alloc: Global,
    terms: &Terms,
    plain: &PlainTerms,
    id: TermId,
    op: OpKind,
    args: &[TermId],
    lets: &[TermId],
    out: &mut HornClause,
) -> Result<(), HornStop>
    requires there { id.0 < length terms.now.nodes }
    requires below { IsTrue (list_all (is_below id.0) args.now) }
    requires flags { ArePlainFlags terms.now.nodes plain.now }
    ensures read { OnOk result (onto out.old (disjunct_form terms.now.nodes (Op op args.now) (place_of id lets.now)) ≡ Ok out.new) }
    ensures misfit { (offset : ℕ) → IsErrOf result (HornStop.NotHorn offset) →
        IsMisfit terms.now.offsets (onto out.old (disjunct_form terms.now.nodes (Op op args.now) (place_of id lets.now))) offset }
{
    if !is_negation(op) {
        return Err(misfit(terms, id));
    }
    match args {
        [body] => read_body(alloc, terms, plain, *body, lets, out),
        _ => Err(misfit(terms, id)),
    }
}

fn is_negation(op: OpKind) -> bool
    ensures { result ≡ is_negation op }
{
    matches!(op, OpKind::Not)
}

fn both(a: bool, b: bool) -> bool
    ensures { result ≡ (a && b) }
{
    a && b
}

fn either(a: bool, b: bool) -> bool
    ensures { result ≡ (a || b) }
{
    a || b
}
