//! Queries of one way through a clause, with bounds on its body atoms: of what they are made.

use crate::arms::Arm;
use crate::bound::{Bound, Use, first_of, stands};
use base::{Copied, Items, Memory};
use clause_form::{Atom, Clause};
use cube_forms::{Lemma, Tuple};
use lin_atoms::{Form, Lit, WideStop};
use std::alloc::Global;

/// How many bounds are taken in at once.
const AT_ONCE: usize = 3;

fn push_lits(alloc: Global, parts: &mut Items<Form>, lits: &[Lit]) -> Result<(), Memory> {
    for lit in lits {
        parts.push(Form::Lit(lit.copy(alloc)?))?;
    }
    Ok(())
}

/// Adds a lemma at the atom's arguments.
fn push_lemma(
    alloc: Global,
    parts: &mut Items<Form>,
    lemma: &Lemma,
    atom: &Atom,
) -> Result<(), Memory> {
    match lemma.checked_form(alloc, atom.args.as_slice()) {
        Ok(form) => {
            parts.push(form)?;
            Ok(())
        }
        Err(WideStop::Wide) => Ok(()),
        Err(WideStop::Memory) => Err(Memory),
    }
}

/// Adds the bound on the atom.
fn push_bound(
    alloc: Global,
    parts: &mut Items<Form>,
    bound: &Bound,
    atom: &Atom,
) -> Result<(), Memory> {
    match &bound.lemma {
        Some(lemma) => push_lemma(alloc, parts, lemma, atom),
        None => Ok(()),
    }
}

/// Adds the bound on its atom, if there are both.
fn push_use(
    alloc: Global,
    parts: &mut Items<Form>,
    bounds: &[Bound],
    atoms: &[Atom],
    one: &Use,
) -> Result<(), Memory> {
    match bounds.get(one.bound) {
        Some(bound) => match atoms.get(one.atom) {
            Some(atom) => push_bound(alloc, parts, bound, atom),
            None => Ok(()),
        },
        None => Ok(()),
    }
}

/// Adds the bounds on the atoms.
fn push_uses(
    alloc: Global,
    parts: &mut Items<Form>,
    bounds: &[Bound],
    atoms: &[Atom],
    uses: &[Use],
) -> Result<(), Memory> {
    for one in uses {
        push_use(alloc, parts, bounds, atoms, one)?;
    }
    Ok(())
}

/// Whether the bound is in use on the atom.
fn is_used(uses: &[Use], bound: usize, atom: usize) -> bool {
    for one in uses {
        if one.bound == bound && one.atom == atom {
            return true;
        }
    }
    false
}

/// Whether the bound excludes the tuple of an atom on which it isn't in use, and stands.
fn is_new(
    uses: &[Use],
    bounds: &[Bound],
    bound: &Bound,
    at: usize,
    number: usize,
    tuple: &[i64],
) -> bool {
    bound.excludes(tuple) && !is_used(uses, at, number) && stands(bounds, bound)
}

/// Adds the first bounds that exclude the tuple of an atom.
fn push_excluding(
    uses: &mut Vec<Use>,
    bounds: &[Bound],
    pred: u32,
    number: usize,
    tuple: &[i64],
) -> Result<(), Memory> {
    let most = uses.len().saturating_add(AT_ONCE);
    for at in first_of(bounds, pred)..bounds.len() {
        let bound = &bounds[at];
        if bound.pred != pred || uses.len() >= most {
            return Ok(());
        }
        if is_new(uses.as_slice(), bounds, bound, at, number, tuple) {
            let version = bound.version;
            uses.push(Use {
                bound: at,
                atom: number,
                version,
            })?;
        }
    }
    Ok(())
}

/// Adds bounds that exclude the atom's tuple at the point.
fn push_breaking(
    alloc: Global,
    uses: &mut Vec<Use>,
    bounds: &[Bound],
    atom: &Atom,
    number: usize,
    point: &[i64],
) -> Result<(), Memory> {
    let tuple = Tuple::at(alloc, point, atom.args.as_slice())?;
    push_excluding(uses, bounds, atom.pred, number, tuple.as_slice())
}

/// Adds bounds that the point breaks.
pub fn push_broken(
    alloc: Global,
    uses: &mut Vec<Use>,
    bounds: &[Bound],
    atoms: &[Atom],
    point: &[i64],
) -> Result<(), Memory> {
    for (number, atom) in atoms.iter().enumerate() {
        push_breaking(alloc, uses, bounds, atom, number, point)?;
    }
    Ok(())
}

/// Adds the parts of the query with these bounds: the arm's literals, the goal's, and the bounds' lemmas at the
/// arguments of their atoms, where these have room.
pub fn push_parts(
    alloc: Global,
    parts: &mut Items<Form>,
    clause: &Clause,
    arm: &Arm,
    bounds: &[Bound],
    goal: &[Lit],
    uses: &[Use],
) -> Result<(), Memory> {
    push_lits(alloc, parts, arm.lits.as_slice())?;
    push_lits(alloc, parts, goal)?;
    push_uses(alloc, parts, bounds, clause.atoms.as_slice(), uses)
}

/// All but the one at a place.
pub fn without(alloc: Global, uses: &[Use], at: usize) -> Result<Vec<Use>, Memory> {
    let mut made = Vec::from_slice(alloc, uses)?;
    if at < made.len() {
        let _left = made.remove(at);
    }
    Ok(made)
}
