//! Terms as bodies of clauses.

ghost use Rattle.std.specs.Prelude.{◌≡◌, ◌<◌, ◌^◌, ℕ, length, IsErrOf, IsTrue, OnOk, Ok};
ghost use Rattle.std.specs.List.{list_all};
ghost use Rattle.term_tree.specs.Arena.{has_parts_below, is_below};
ghost use Rattle.horn_shape.specs.Plain.{is_plain_term};
ghost use Rattle.horn_shape.specs.Shape.{body_form, body_reading, each};
ghost use Rattle.horn_shape.specs.Flags.{ArePlainFlags};
ghost use Rattle.horn_shape.specs.machinery.Gathering.{IsMisfit, is_conjunction, onto, place_of};

use crate::clause::HornClause;
use crate::gather::{first_mixed, misfit, put_atom, put_guard, under};
use crate::plain::PlainTerms;
use crate::stop::HornStop;
use std::alloc::Global;
use term_tree::{Node, OpKind, TermId, Terms};

/// What the term gives as a body under these `let` terms, put behind what was gathered.
#[cycle(body)]
pub(crate) fn read_body(
    alloc: Global,
    terms: &Terms,
    plain: &PlainTerms,
    id: TermId,
    lets: &[TermId],
    out: &mut HornClause,
) -> Result<(), HornStop>
    requires there { id.0 < length terms.now.nodes }
    requires flags { ArePlainFlags terms.now.nodes plain.now }
    ensures read { OnOk result (onto out.old (body_reading terms.now.nodes id.0 (place_of id lets.now)) ≡ Ok out.new) }
    ensures misfit { (offset : ℕ) → IsErrOf result (HornStop.NotHorn offset) →
        IsMisfit terms.now.offsets (onto out.old (body_reading terms.now.nodes id.0 (place_of id lets.now))) offset }
{
    let node = terms.node(id);
    if plain.is_plain(id) {
        put_guard(alloc, id, lets, false, out)?;
        return Ok(());
    }
    read_body_form(alloc, terms, plain, id, node, lets, out)
}

/// What a term with a predicate or a quantifier gives as a body under these `let` terms, by its node,
/// put behind what was gathered; `NotHorn` tells where a subterm that doesn't fit starts.
#[cycle(body)]
fn read_body_form(
    alloc: Global,
    terms: &Terms,
    plain: &PlainTerms,
    id: TermId,
    node: &Node,
    lets: &[TermId],
    out: &mut HornClause,
) -> Result<(), HornStop>
    requires there { id.0 < length terms.now.nodes }
    requires short { id.0 < 2 ^ 32 }
    requires below { IsTrue (has_parts_below id.0 node.now) }
    requires flags { ArePlainFlags terms.now.nodes plain.now }
    ensures read { OnOk result (onto out.old (body_form (is_plain_term terms.now.nodes) (body_reading terms.now.nodes) node.now (place_of id lets.now)) ≡ Ok out.new) }
    ensures misfit { (offset : ℕ) → IsErrOf result (HornStop.NotHorn offset) →
        IsMisfit terms.now.offsets (onto out.old (body_form (is_plain_term terms.now.nodes) (body_reading terms.now.nodes) node.now (place_of id lets.now))) offset }
{
    match node {
        Node::Pred { pred, args } => {
            if !plain.are_plain(args.as_slice()) {
                return Err(misfit(terms, id));
            }
            put_atom(alloc, *pred, args.as_slice(), lets, out)?;
            Ok(())
        }
        Node::Op { op, args } => {
            if !is_conjunction(*op) {
                return Err(misfit(terms, id));
            }
            read_bodies(alloc, terms, plain, id, args.as_slice(), lets, out)
        }
        Node::Let { bound, body } => {
            match first_mixed(plain, bound.as_slice()) {
                Some(mixed) => Err(misfit(terms, mixed)),
                None => {
                    let inner = under(alloc, lets, id)?;
                    read_body(alloc, terms, plain, *body, inner.as_slice(), out)
                }
            }
        }
        Node::Num(_) => Err(misfit(terms, id)),
        Node::True => Err(misfit(terms, id)),
        Node::False => Err(misfit(terms, id)),
        Node::Var { .. } => Err(misfit(terms, id)),
        Node::LetVar { .. } => Err(misfit(terms, id)),
        Node::Divisible { .. } => Err(misfit(terms, id)),
        Node::Forall { .. } => Err(misfit(terms, id)),
        Node::Exists { .. } => Err(misfit(terms, id)),
    }
}

fn is_conjunction(op: OpKind) -> bool
    ensures { result ≡ is_conjunction op }
{
    matches!(op, OpKind::And)
}

/// What some parts of a term of this number give as bodies under these `let` terms, in order, put
/// behind what was gathered; `NotHorn` tells where the first subterm that doesn't fit starts.
#[cycle(body)]
pub(crate) fn read_bodies(
    alloc: Global,
    terms: &Terms,
    plain: &PlainTerms,
    above: TermId,
    ids: &[TermId],
    lets: &[TermId],
    out: &mut HornClause,
) -> Result<(), HornStop>
    requires there { above.0 < length terms.now.nodes }
    requires below { IsTrue (list_all (is_below above.0) ids.now) }
    requires flags { ArePlainFlags terms.now.nodes plain.now }
    ensures read { OnOk result (onto out.old (each (body_reading terms.now.nodes) lets.now ids.now) ≡ Ok out.new) }
    ensures misfit { (offset : ℕ) → IsErrOf result (HornStop.NotHorn offset) →
        IsMisfit terms.now.offsets (onto out.old (each (body_reading terms.now.nodes) lets.now ids.now)) offset }
{
    for id in ids {
        match read_body(alloc, terms, plain, *id, lets, out) {
            Ok(()) => {}
            Err(stop) => return Err(stop),
        }
    }
    Ok(())
}
