ghost use Rattle.std.specs.Prelude.{◌≡◌, IfOk};
ghost use Rattle.book_rules.specs.Instances.{atom_at, body_at, head_at};
ghost use Rattle.book_rules.specs.Proofs.{is_head};

use base::Memory;
use clause_form::{Atom, Clause};
use cube_forms::Tuple;
use std::alloc::Global;

/// An atom's predicate, and its tuple at the point.
pub fn atom_at(alloc: Global, point: &[i64], atom: &Atom) -> Result<(u32, Tuple), Memory>
    ensures { IfOk result (λ pair. pair ≡ atom_at point.now atom.now) }
{
    let tuple = Tuple::at(alloc, point, atom.args.as_slice())?;
    Ok((atom.pred, tuple))
}

/// The predicate of each body atom with its tuple at the point, in order.
pub fn body_at(alloc: Global, point: &[i64], clause: &Clause) -> Result<Vec<(u32, Tuple)>, Memory>
    ensures { IfOk result (λ body. body.items ≡ body_at point.now clause.now) }
{
    let mut body = Vec::with_capacity(alloc, clause.atoms.len())?;
    for atom in clause.atoms.as_slice() {
        let pair = atom_at(alloc, point, atom)?;
        body.push(pair)?;
    }
    Ok(body)
}

/// The predicate of the head with its tuple at the point; none where the head is false.
pub fn head_at(
    alloc: Global,
    point: &[i64],
    clause: &Clause,
) -> Result<Option<(u32, Tuple)>, Memory>
    ensures { IfOk result (λ head. head ≡ head_at point.now clause.now) }
{
    match &clause.head {
        Some(atom) => Ok(Some(atom_at(alloc, point, atom)?)),
        None => Ok(None),
    }
}

/// Whether a clause's head is of the predicate, or false where there is none.
pub fn is_head(pred: Option<u32>, head: &Option<Atom>) -> bool
    ensures { result ≡ is_head pred head.now }
{
    match (pred, head) {
        (None, None) => true,
        (Some(pred), Some(atom)) => pred == atom.pred,
        _ => false,
    }
}
