//! Literals of guards over the places of one predicate.

use crate::arms::Arm;
use crate::forms::{lin_of, push_new, tidied};
use base::Memory;
use clause_form::{Atom, Clause, System};
use cube_forms::lit_at;
use lin_atoms::{Lit, WideStop};
use std::alloc::Global;

/// The place of a variable that is no argument.
const NOWHERE: u32 = 1_000_000;

/// The first place of the variable among the arguments.
fn place_of(args: &[u32], variable: usize) -> u32 {
    for (place, arg) in args.iter().enumerate() {
        if *arg as usize == variable {
            return match u32::try_from(place) {
                Ok(place) => place,
                Err(_) => NOWHERE,
            };
        }
    }
    NOWHERE
}

/// For each variable of the clause its place.
fn names_of(alloc: Global, args: &[u32], variables: usize) -> Result<Vec<u32>, Memory> {
    let mut names = Vec::new(alloc);
    for variable in 0..variables {
        names.push(place_of(args, variable))?;
    }
    Ok(names)
}

/// Whether each variable of the literal has a place.
fn is_placed(lit: &Lit, names: &[u32]) -> bool {
    for (variable, _) in lin_of(lit).terms() {
        match names.get(*variable as usize) {
            Some(place) => {
                if *place == NOWHERE {
                    return false;
                }
            }
            None => return false,
        }
    }
    true
}

/// The literal in its simplest form, if it has a variable.
fn kept(alloc: Global, lit: &Lit) -> Result<Option<Lit>, Memory> {
    if lin_of(lit).terms().len() == 0 {
        return Ok(None);
    }
    Ok(Some(tidied(alloc, lit)?))
}

/// The literal over places, if each of its variables has one, and one is left.
fn placed(alloc: Global, lit: &Lit, names: &[u32]) -> Result<Option<Lit>, Memory> {
    if !is_placed(lit, names) {
        return Ok(None);
    }
    match lit_at(alloc, lit, names) {
        Ok(made) => kept(alloc, &made),
        Err(WideStop::Wide) => Ok(None),
        Err(WideStop::Memory) => Err(Memory),
    }
}

/// Adds the literals over places, each once.
fn push_placed(
    alloc: Global,
    made: &mut Vec<Lit>,
    lits: &[Lit],
    names: &[u32],
) -> Result<(), Memory> {
    for lit in lits {
        if let Some(lit) = placed(alloc, lit, names)? {
            push_new(made, lit)?;
        }
    }
    Ok(())
}

/// Adds the literals of the arm over the places of an atom of its clause, each once.
fn push_on(
    alloc: Global,
    made: &mut Vec<Lit>,
    clause: &Clause,
    arm: &Arm,
    atom: &Atom,
) -> Result<(), Memory> {
    let names = names_of(alloc, atom.args.as_slice(), clause.sorts.len())?;
    push_placed(alloc, made, arm.lits.as_slice(), names.as_slice())
}

/// The literals of the arm over the places of an atom of its clause, each once.
fn lits_on(alloc: Global, clause: &Clause, arm: &Arm, atom: &Atom) -> Result<Vec<Lit>, Memory> {
    let mut made = Vec::new(alloc);
    push_on(alloc, &mut made, clause, arm, atom)?;
    Ok(made)
}

/// The literals of an arm on one of its atoms.
#[derive(Drop)]
pub(crate) struct Guarded {
    pub(crate) lits: Vec<Lit>,
    /// Whether the atom is the head.
    pub(crate) is_head: bool,
    /// Whether the clause is a query.
    pub(crate) is_query: bool,
    /// Whether the clause has body atoms.
    pub(crate) has_body: bool,
}

fn push_guarded(
    alloc: Global,
    made: &mut Vec<Guarded>,
    clause: &Clause,
    arm: &Arm,
    atom: &Atom,
    is_head: bool,
) -> Result<(), Memory> {
    let lits = lits_on(alloc, clause, arm, atom)?;
    made.push(Guarded {
        lits,
        is_head,
        is_query: clause.head.is_none(),
        has_body: clause.atoms.len() > 0,
    })?;
    Ok(())
}

/// Adds the literals of the arm on its body atoms of the predicate.
fn push_bodies(
    alloc: Global,
    made: &mut Vec<Guarded>,
    clause: &Clause,
    arm: &Arm,
    pred: u32,
) -> Result<(), Memory> {
    for atom in clause.atoms.as_slice() {
        if atom.pred == pred {
            push_guarded(alloc, made, clause, arm, atom, false)?;
        }
    }
    Ok(())
}

fn push_arm(
    alloc: Global,
    made: &mut Vec<Guarded>,
    clause: &Clause,
    arm: &Arm,
    pred: u32,
) -> Result<(), Memory> {
    push_bodies(alloc, made, clause, arm, pred)?;
    if let Some(head) = &clause.head {
        if head.pred == pred {
            push_guarded(alloc, made, clause, arm, head, true)?;
        }
    }
    Ok(())
}

/// The literals of all arms on atoms of the predicate.
pub(crate) fn guards_of(
    alloc: Global,
    sys: &System,
    arms: &[Arm],
    pred: u32,
) -> Result<Vec<Guarded>, Memory> {
    let mut made = Vec::new(alloc);
    for arm in arms {
        if let Some(clause) = sys.clauses().get(arm.clause) {
            push_arm(alloc, &mut made, clause, arm, pred)?;
        }
    }
    Ok(made)
}
