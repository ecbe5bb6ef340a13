//! Terms as clauses.

ghost use Rattle.std.specs.Prelude.{◌≡◌, ◌<◌, ◌^◌, ℕ, length, IsErrOf, IsTrue, OnOk, Ok, Some};
ghost use Rattle.std.specs.List.{list_all};
ghost use Rattle.term_tree.specs.Arena.{has_parts_below, is_below};
ghost use Rattle.term_tree.specs.declared.node.Node.TheVariants.{Op};
ghost use Rattle.term_tree.specs.declared.node.OpKind.TheVariants.{Not};
ghost use Rattle.horn_shape.specs.Shape.{body_reading, clause_form, clause_reading, denial, implication};
ghost use Rattle.horn_shape.specs.Flags.{ArePlainFlags};
ghost use Rattle.horn_shape.specs.machinery.Gathering.{IsMisfit, onto, place_of};

use crate::body::{read_bodies, read_body};
use crate::clause::HornClause;
use crate::disjunct::read_disjuncts;
use crate::gather::{first_mixed, misfit, put_guard, put_head, put_vars, under};
use crate::plain::PlainTerms;
use crate::stop::HornStop;
use std::alloc::Global;
use term_tree::{Node, OpKind, TermId, Terms};

/// What the term gives as a clause under these `let` terms, put behind what was gathered.
#[cycle(clause)]
pub(crate) fn read_clause(
    alloc: Global,
    terms: &Terms,
    plain: &PlainTerms,
    id: TermId,
    lets: &[TermId],
    out: &mut HornClause,
) -> Result<(), HornStop>
    requires there { id.0 < length terms.now.nodes }
    requires flags { ArePlainFlags terms.now.nodes plain.now }
    ensures read { OnOk result (onto out.old (clause_reading terms.now.nodes id.0 (place_of id lets.now)) ≡ Ok out.new) }
    ensures misfit { (offset : ℕ) → IsErrOf result (HornStop.NotHorn offset) →
        IsMisfit terms.now.offsets (onto out.old (clause_reading terms.now.nodes id.0 (place_of id lets.now))) offset }
{
    let node = terms.node(id);
    if plain.is_plain(id) {
        put_guard(alloc, id, lets, true, out)?;
        return Ok(());
    }
    read_clause_form(alloc, terms, plain, id, node, lets, out)
}

/// What a term with a predicate or a quantifier gives as a clause under these `let` terms, by its node,
/// put behind what was gathered; `NotHorn` tells where a subterm that doesn't fit starts.
#[cycle(clause)]
fn read_clause_form(
    alloc: Global,
    terms: &Terms,
    plain: &PlainTerms,
    id: TermId,
    node: &Node,
    lets: &[TermId],
    out: &mut HornClause,
) -> Result<(), HornStop>
    requires there { id.0 < length terms.now.nodes }
    requires short { id.0 < 2 ^ 32 }
    requires below { IsTrue (has_parts_below id.0 node.now) }
    requires flags { ArePlainFlags terms.now.nodes plain.now }
    ensures read { OnOk result (onto out.old (clause_form terms.now.nodes (clause_reading terms.now.nodes) node.now (place_of id lets.now)) ≡ Ok out.new) }
    ensures misfit { (offset : ℕ) → IsErrOf result (HornStop.NotHorn offset) →
        IsMisfit terms.now.offsets (onto out.old (clause_form terms.now.nodes (clause_reading terms.now.nodes) node.now (place_of id lets.now))) offset }
{
    match node {
        Node::Pred { pred, args } => {
            if !plain.are_plain(args.as_slice()) {
                return Err(misfit(terms, id));
            }
            put_head(alloc, *pred, args.as_slice(), lets, out)?;
            Ok(())
        }
        Node::Forall { sorts, body, .. } => {
            put_vars(sorts.as_slice(), out)?;
            read_clause(alloc, terms, plain, *body, lets, out)
        }
        Node::Let { bound, body } => {
            match first_mixed(plain, bound.as_slice()) {
                Some(mixed) => Err(misfit(terms, mixed)),
                None => {
                    let inner = under(alloc, lets, id)?;
                    read_clause(alloc, terms, plain, *body, inner.as_slice(), out)
                }
            }
        }
        Node::Op { op, args } => {
            read_operation(alloc, terms, plain, id, *op, args.as_slice(), lets, out)
        }
        Node::Num(_) => Err(misfit(terms, id)),
        Node::True => Err(misfit(terms, id)),
        Node::False => Err(misfit(terms, id)),
        Node::Var { .. } => Err(misfit(terms, id)),
        Node::LetVar { .. } => Err(misfit(terms, id)),
        Node::Divisible { .. } => Err(misfit(terms, id)),
        Node::Exists { .. } => Err(misfit(terms, id)),
    }
}

/// What an operation gives as a clause under these `let` terms, put behind what was gathered: an
/// implication, a disjunction or a negation. Another operation doesn't fit.
#[cycle(clause)]
fn read_operation(
    alloc: Global,
    terms: &Terms,
    plain: &PlainTerms,
    id: TermId,
    op: OpKind,
    args: &[TermId],
    lets: &[TermId],
    out: &mut HornClause,
) -> Result<(), HornStop>
    requires there { id.0 < length terms.now.nodes }
    requires below { IsTrue (list_all (is_below id.0) args.now) }
    requires flags { ArePlainFlags terms.now.nodes plain.now }
    ensures read { OnOk result (onto out.old (clause_form terms.now.nodes (clause_reading terms.now.nodes) (Op op args.now) (place_of id lets.now)) ≡ Ok out.new) }
    ensures misfit { (offset : ℕ) → IsErrOf result (HornStop.NotHorn offset) →
        IsMisfit terms.now.offsets (onto out.old (clause_form terms.now.nodes (clause_reading terms.now.nodes) (Op op args.now) (place_of id lets.now))) offset }
{
    match op {
        OpKind::Implies => read_implication(alloc, terms, plain, id, args, lets, out),
        OpKind::Or => read_disjuncts(alloc, terms, plain, id, args, lets, out),
        OpKind::Not => read_negation(alloc, terms, plain, id, args, lets, out),
        OpKind::And => Err(misfit(terms, id)),
        OpKind::Xor => Err(misfit(terms, id)),
        OpKind::Eq => Err(misfit(terms, id)),
        OpKind::Distinct => Err(misfit(terms, id)),
        OpKind::Ite => Err(misfit(terms, id)),
        OpKind::Add => Err(misfit(terms, id)),
        OpKind::Mul => Err(misfit(terms, id)),
        OpKind::Sub => Err(misfit(terms, id)),
        OpKind::Abs => Err(misfit(terms, id)),
        OpKind::Div => Err(misfit(terms, id)),
        OpKind::Mod => Err(misfit(terms, id)),
        OpKind::Le => Err(misfit(terms, id)),
        OpKind::Lt => Err(misfit(terms, id)),
        OpKind::Ge => Err(misfit(terms, id)),
        OpKind::Gt => Err(misfit(terms, id)),
    }
}

/// Bodies, and a clause at the end.
#[cycle(clause)]
fn read_implication(
    alloc: Global,
    terms: &Terms,
    plain: &PlainTerms,
    id: TermId,
    args: &[TermId],
    lets: &[TermId],
    out: &mut HornClause,
) -> Result<(), HornStop>
    requires there { id.0 < length terms.now.nodes }
    requires below { IsTrue (list_all (is_below id.0) args.now) }
    requires flags { ArePlainFlags terms.now.nodes plain.now }
    ensures read { OnOk result (onto out.old (implication (body_reading terms.now.nodes) (clause_reading terms.now.nodes) (place_of id lets.now) args.now) ≡ Ok out.new) }
    ensures misfit { (offset : ℕ) → IsErrOf result (HornStop.NotHorn offset) →
        IsMisfit terms.now.offsets (onto out.old (implication (body_reading terms.now.nodes) (clause_reading terms.now.nodes) (place_of id lets.now) args.now)) offset }
{
    match args {
        [] => Err(misfit(terms, id)),
        [bodies @ .., last] => {
            match read_bodies(alloc, terms, plain, id, bodies, lets, out) {
                Ok(()) => {}
                Err(stop) => return Err(stop),
            }
            read_clause(alloc, terms, plain, *last, lets, out)
        }
    }
}

/// A body that is said to be false, or an `exists` over one.
fn read_negation(
    alloc: Global,
    terms: &Terms,
    plain: &PlainTerms,
    id: TermId,
    args: &[TermId],
    lets: &[TermId],
    out: &mut HornClause,
) -> Result<(), HornStop>
    requires there { id.0 < length terms.now.nodes }
    requires below { IsTrue (list_all (is_below id.0) args.now) }
    requires flags { ArePlainFlags terms.now.nodes plain.now }
    ensures read { OnOk result (onto out.old (clause_form terms.now.nodes (clause_reading terms.now.nodes) (Op Not args.now) (place_of id lets.now)) ≡ Ok out.new) }
    ensures misfit { (offset : ℕ) → IsErrOf result (HornStop.NotHorn offset) →
        IsMisfit terms.now.offsets (onto out.old (clause_form terms.now.nodes (clause_reading terms.now.nodes) (Op Not args.now) (place_of id lets.now))) offset }
{
    match args {
        [body] => {
            let node = terms.node(*body);
            read_denial(alloc, terms, plain, *body, node, lets, out)
        }
        _ => Err(misfit(terms, id)),
    }
}

/// What stands under a negation, by its node.
fn read_denial(
    alloc: Global,
    terms: &Terms,
    plain: &PlainTerms,
    id: TermId,
    node: &Node,
    lets: &[TermId],
    out: &mut HornClause,
) -> Result<(), HornStop>
    requires there { id.0 < length terms.now.nodes }
    requires below { IsTrue (has_parts_below id.0 node.now) }
    requires flags { ArePlainFlags terms.now.nodes plain.now }
    ensures read { OnOk result (onto out.old (denial terms.now.nodes (Some node.now) (place_of id lets.now)) ≡ Ok out.new) }
    ensures misfit { (offset : ℕ) → IsErrOf result (HornStop.NotHorn offset) →
        IsMisfit terms.now.offsets (onto out.old (denial terms.now.nodes (Some node.now) (place_of id lets.now))) offset }
{
    match node {
        Node::Exists { sorts, body, .. } => {
            put_vars(sorts.as_slice(), out)?;
            read_body(alloc, terms, plain, *body, lets, out)
        }
        Node::Num(_) => read_body(alloc, terms, plain, id, lets, out),
        Node::True => read_body(alloc, terms, plain, id, lets, out),
        Node::False => read_body(alloc, terms, plain, id, lets, out),
        Node::Var { .. } => read_body(alloc, terms, plain, id, lets, out),
        Node::LetVar { .. } => read_body(alloc, terms, plain, id, lets, out),
        Node::Pred { .. } => read_body(alloc, terms, plain, id, lets, out),
        Node::Op { .. } => read_body(alloc, terms, plain, id, lets, out),
        Node::Divisible { .. } => read_body(alloc, terms, plain, id, lets, out),
        Node::Let { .. } => read_body(alloc, terms, plain, id, lets, out),
        Node::Forall { .. } => read_body(alloc, terms, plain, id, lets, out),
    }
}
