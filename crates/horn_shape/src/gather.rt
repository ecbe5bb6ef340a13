//! What single terms give to a clause.

ghost use Rattle.std.specs.Prelude.{◌≡◌, ◌<◌, ◌++◌, [], ◌∷◌, ℕ, length, IfOk, IfNone, IfSome, IsTrue, OnOk, Err, slice_get, Some};
ghost use Rattle.term_tree.specs.Arena.{is_below};
ghost use Rattle.std.specs.List.{list_all};
ghost use Rattle.horn_shape.specs.Shape.{arguments, atom_of, bound_over, guard_of, head_of, is_application, part_at, Reading};
ghost use Rattle.horn_shape.specs.Flags.{flag_of};
ghost use Rattle.horn_shape.specs.machinery.Gathering.{gained, place_of, with_vars};

use crate::clause::{AtomUse, HornClause, Part};
use crate::plain::PlainTerms;
use crate::stop::HornStop;
use base::{Items, Memory};
use std::alloc::Global;
use term_tree::{Node, Sort, TermId, Terms};

/// The subterm of that number fits no form where it stands.
pub(crate) fn misfit(terms: &Terms, id: TermId) -> HornStop
    requires { id.0 < length terms.now.nodes }
    ensures { (offset : ℕ) → result ≡ HornStop.NotHorn offset → slice_get terms.now.offsets id.0 ≡ Some offset }
{
    HornStop::NotHorn {
        offset: u64::from(terms.offset(id)),
    }
}

/// Where a term stands in the body of this `let`.
pub(crate) fn under(alloc: Global, lets: &[TermId], id: TermId) -> Result<Vec<TermId>, Memory>
    ensures { IfOk result (λ inner. inner.items ≡ lets.now ++ id ∷ []) }
{
    let mut inner = Vec::with_capacity(alloc, lets.len() + 1)?;
    inner.extend_from_slice(lets)?;
    inner.push(id)?;
    Ok(inner)
}

pub(crate) fn is_application(node: &Node) -> bool
    ensures { result ≡ is_application (Some node.now) }
{
    matches!(node, Node::Pred { .. })
}

fn part(alloc: Global, id: TermId, lets: &[TermId], negated: bool) -> Result<Part, Memory>
    ensures { IfOk result (λ part. part ≡ part_at negated (place_of id lets.now)) }
{
    let lets = Items::from_slice(alloc, lets)?;
    Ok(Part {
        lets,
        term: id,
        negated,
    })
}

pub(crate) fn put_guard(
    alloc: Global,
    id: TermId,
    lets: &[TermId],
    negated: bool,
    out: &mut HornClause,
) -> Result<(), Memory>
    ensures { OnOk result (out.new ≡ gained out.old (guard_of negated (place_of id lets.now))) }
{
    let guard = part(alloc, id, lets, negated)?;
    out.guards.push(guard)?;
    Ok(())
}

pub(crate) fn put_vars(sorts: &[Sort], out: &mut HornClause) -> Result<(), Memory>
    ensures { OnOk result (out.new ≡ with_vars out.old sorts.now) }
{
    for sort in sorts {
        out.vars.push(*sort)?;
    }
    Ok(())
}

fn arguments(alloc: Global, args: &[TermId], lets: &[TermId]) -> Result<Items<Part>, Memory>
    ensures { IfOk result (λ parts. parts ≡ arguments lets.now args.now) }
{
    let mut parts = Vec::with_capacity(alloc, args.len())?;
    for arg in args {
        parts.push(part(alloc, *arg, lets, false)?)?;
    }
    Ok(Items::from_vec(parts))
}

fn atom(alloc: Global, pred: u32, args: &[TermId], lets: &[TermId]) -> Result<AtomUse, Memory>
    ensures { IfOk result (λ atom. atom ≡ record { pred = pred; args = arguments lets.now args.now }) }
{
    let args = arguments(alloc, args, lets)?;
    Ok(AtomUse { pred, args })
}

/// An application as a body atom.
pub(crate) fn put_atom(
    alloc: Global,
    pred: u32,
    args: &[TermId],
    lets: &[TermId],
    out: &mut HornClause,
) -> Result<(), Memory>
    ensures { OnOk result (out.new ≡ gained out.old (atom_of (record { pred = pred; args = arguments lets.now args.now }))) }
{
    let atom = atom(alloc, pred, args, lets)?;
    out.atoms.push(atom)?;
    Ok(())
}

/// An application as the head.
pub(crate) fn put_head(
    alloc: Global,
    pred: u32,
    args: &[TermId],
    lets: &[TermId],
    out: &mut HornClause,
) -> Result<(), Memory>
    ensures { OnOk result (out.new ≡ gained out.old (head_of (record { pred = pred; args = arguments lets.now args.now }))) }
{
    let head = atom(alloc, pred, args, lets)?;
    out.head = Some(head);
    Ok(())
}

/// The first of these terms that has a predicate or a quantifier.
pub(crate) fn first_mixed(plain: &PlainTerms, ids: &[TermId]) -> Option<TermId>
    ensures none { (reading : Reading) → IfNone result (bound_over (flag_of plain.now) ids.now reading ≡ reading) }
    ensures some { IfSome result (λ id. (reading : Reading) → bound_over (flag_of plain.now) ids.now reading ≡ Err id) }
    ensures among { IfSome result (λ id. (n : ℕ) → IsTrue (list_all (is_below n) ids.now) → id.0 < n) }
{
    for id in ids {
        if !plain.is_plain(*id) {
            return Some(*id);
        }
    }
    None
}
