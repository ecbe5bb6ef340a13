//! Literals of guards over the places of a body atom.

use crate::constants::lin_of;
use base::Memory;
use clause_form::{Atom, Clause};
use cube_forms::lit_at;
use lin_atoms::{Form, Lit, WideStop};
use std::alloc::Global;

/// The place of a variable that is no argument.
const NOWHERE: u32 = 1_000_000;

/// The variable has this place.
fn set(names: &mut Vec<u32>, variable: u32, place: usize) {
    if let Ok(place) = u32::try_from(place) {
        if let Some(own) = names.as_mut_slice().get_mut(variable as usize) {
            *own = place;
        }
    }
}

/// For each variable of the clause its first place.
pub(crate) fn names_of(alloc: Global, clause: &Clause, atom: &Atom) -> Result<Vec<u32>, Memory> {
    let mut names = vec![in alloc; NOWHERE; clause.sorts.len()]?;
    for (place, arg) in atom.args.as_slice().iter().enumerate().rev() {
        set(&mut names, *arg, place);
    }
    Ok(names)
}

/// Whether the literal has variables, and each has a place.
fn is_placed(lit: &Lit, names: &[u32]) -> bool {
    for (variable, _) in lin_of(lit).terms() {
        match names.get(*variable as usize) {
            Some(place) => {
                if *place == NOWHERE {
                    return false;
                }
            }
            None => return false,
        }
    }
    lin_of(lit).terms().len() > 0
}

/// Adds the literal over places, if each of its variables has one and there is room.
fn push_lit(
    alloc: Global,
    made: &mut Vec<Lit>,
    lit: &Lit,
    names: &[u32],
    most: usize,
) -> Result<(), Memory> {
    if made.len() >= most || !is_placed(lit, names) {
        return Ok(());
    }
    match lit_at(alloc, lit, names) {
        Ok(placed) => {
            made.push(placed)?;
            Ok(())
        }
        Err(WideStop::Wide) => Ok(()),
        Err(WideStop::Memory) => Err(Memory),
    }
}

/// Adds the literals of a formula over places, so many at most: all of them, or those that have to hold.
#[cycle(push_placed)]
pub(crate) fn push_placed(
    alloc: Global,
    made: &mut Vec<Lit>,
    form: &Form,
    names: &[u32],
    most: usize,
    is_whole: bool,
) -> Result<(), Memory> {
    match form {
        Form::True => Ok(()),
        Form::False => Ok(()),
        Form::Lit(lit) => push_lit(alloc, made, lit, names, most),
        Form::And(parts) => push_each(alloc, made, parts.as_slice(), names, most, is_whole),
        Form::Or(parts) => {
            if is_whole {
                push_each(alloc, made, parts.as_slice(), names, most, is_whole)
            } else {
                Ok(())
            }
        }
    }
}

#[cycle(push_placed)]
fn push_each(
    alloc: Global,
    made: &mut Vec<Lit>,
    parts: &[Form],
    names: &[u32],
    most: usize,
    is_whole: bool,
) -> Result<(), Memory> {
    for part in parts {
        push_placed(alloc, made, part, names, most, is_whole)?;
    }
    Ok(())
}
