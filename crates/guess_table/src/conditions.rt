//! Conditions under which bounds are looked for, and thresholds of parts.

use crate::arms::{Way, push_way};
use crate::forms::{has_lit, part_of, push_new, tidied};
use crate::places::Guarded;
use base::{Copied, Memory, Same};
use lin_atoms::{Lin, Lit, WideStop, denied};
use std::alloc::Global;

/// Adds the literals in their simplest form, unless they are there.
fn push_tidied(alloc: Global, lits: &mut Vec<Lit>, others: &[Lit]) -> Result<(), Memory> {
    for one in others {
        push_new(lits, tidied(alloc, one)?)?;
    }
    Ok(())
}

/// Adds the literal, and those of its denial, where their numbers have room.
fn push_both(alloc: Global, lits: &mut Vec<Lit>, lit: &Lit) -> Result<(), Memory> {
    push_new(lits, lit.copy(alloc)?)?;
    match denied(alloc, lit) {
        Ok(others) => push_tidied(alloc, lits, others.as_slice()),
        Err(WideStop::Wide) => Ok(()),
        Err(WideStop::Memory) => Err(Memory),
    }
}

fn is_equation(lit: &Lit) -> bool {
    match lit {
        Lit::Eq(_) => true,
        _ => false,
    }
}

/// Adds what one atom's literals say.
fn push_of(alloc: Global, lits: &mut Vec<Lit>, of: &Guarded) -> Result<(), Memory> {
    for lit in of.lits.as_slice() {
        if !(of.is_head && is_equation(lit)) {
            push_both(alloc, lits, lit)?;
        }
    }
    Ok(())
}

/// Adds the literals of rules, or of queries.
fn push_all(
    alloc: Global,
    lits: &mut Vec<Lit>,
    guarded: &[Guarded],
    queries: bool,
) -> Result<(), Memory> {
    for of in guarded {
        if of.has_body && of.is_query == queries {
            push_of(alloc, lits, of)?;
        }
    }
    Ok(())
}

/// Whether the two hold the same literals in the same order.
fn are_equal(first: &[Lit], second: &[Lit]) -> bool {
    if first.len() != second.len() {
        return false;
    }
    for lit in first {
        if !has_lit(second, lit) {
            return false;
        }
    }
    true
}

fn has_way(ways: &[Way], lits: &[Lit]) -> bool {
    for way in ways {
        if are_equal(way.lits.as_slice(), lits) {
            return true;
        }
    }
    false
}

/// Whether the literals are those of a body atom, and few.
fn is_joint(of: &Guarded) -> bool {
    let count = of.lits.len();
    !of.is_head && count >= 2 && count <= 4
}

/// Adds the literals of each body atom together, where they are few.
fn push_together(
    alloc: Global,
    made: &mut Vec<Way>,
    guarded: &[Guarded],
    most: usize,
) -> Result<(), Memory> {
    for of in guarded {
        if made.len() < most && is_joint(of) && !has_way(made.as_slice(), of.lits.as_slice()) {
            push_way(alloc, made, of.lits.as_slice())?;
        }
    }
    Ok(())
}

/// Adds the first of the literals, each a condition of its own.
fn push_singles(
    alloc: Global,
    made: &mut Vec<Way>,
    lits: &[Lit],
    most: usize,
) -> Result<(), Memory> {
    for (at, _) in lits.iter().enumerate() {
        if made.len() < most {
            push_way(alloc, made, &lits[at..at + 1])?;
        }
    }
    Ok(())
}

/// Adds conditions of one literal: those of rules, then those of queries.
fn push_firsts(
    alloc: Global,
    made: &mut Vec<Way>,
    guarded: &[Guarded],
    most: usize,
) -> Result<(), Memory> {
    let mut lits = Vec::new(alloc);
    push_kinds(alloc, &mut lits, guarded)?;
    push_singles(alloc, made, lits.as_slice(), most)
}

/// Adds the literals of rules, then those of queries.
fn push_kinds(alloc: Global, lits: &mut Vec<Lit>, guarded: &[Guarded]) -> Result<(), Memory> {
    push_all(alloc, lits, guarded, false)?;
    push_all(alloc, lits, guarded, true)
}

/// Adds all conditions.
fn push_conditions(
    alloc: Global,
    made: &mut Vec<Way>,
    guarded: &[Guarded],
    most: usize,
) -> Result<(), Memory> {
    push_firsts(alloc, made, guarded, most)?;
    push_together(alloc, made, guarded, most.saturating_add(most / 2))
}

/// Conditions of a predicate: at most `most` literals of clauses with bodies and of their denials, then
/// lists of literals that stand together, up to `most + most / 2` conditions in all.
pub(crate) fn conditions(
    alloc: Global,
    guarded: &[Guarded],
    most: usize,
) -> Result<Vec<Way>, Memory> {
    let mut made = Vec::new(alloc);
    push_conditions(alloc, &mut made, guarded, most)?;
    Ok(made)
}

/// Whether the part is the negative of the other.
fn is_negative(alloc: Global, own: &Lin, part: &Lin) -> Result<bool, Memory> {
    let other = own.negated(alloc)?;
    Ok(other.equals(part))
}

/// Whether the form has this part, and whether it has its negative.
fn likeness(alloc: Global, lin: &Lin, part: &Lin) -> Result<(bool, bool), Memory> {
    match part_of(alloc, lin)? {
        Some(own) => {
            let is_other = is_negative(alloc, &own, part)?;
            Ok((own.equals(part), is_other))
        }
        None => Ok((false, false)),
    }
}

/// Adds so many numbers one after another, the first of which is so far from the middle.
fn push_around(made: &mut Vec<i64>, middle: i64, first: i64, count: u32) -> Result<(), Memory> {
    for more in 0..count {
        let away = first.saturating_add(i64::from(more));
        made.push(middle.saturating_add(away))?;
    }
    Ok(())
}

/// Adds bounds of the part near one that a form says that is at most 0.
fn push_near(alloc: Global, made: &mut Vec<i64>, lin: &Lin, part: &Lin) -> Result<(), Memory> {
    let constant = match i64::try_from(lin.constant()) {
        Ok(constant) => constant,
        Err(_) => return Ok(()),
    };
    let (is_own, is_other) = likeness(alloc, lin, part)?;
    if is_own {
        push_around(made, constant.saturating_neg(), -1, 3)?;
    }
    if is_other {
        push_around(made, constant, -2, 4)?;
    }
    Ok(())
}

fn push_thresholds(
    alloc: Global,
    made: &mut Vec<i64>,
    of: &Guarded,
    part: &Lin,
) -> Result<(), Memory> {
    for lit in of.lits.as_slice() {
        match lit {
            Lit::Le(lin) => push_near(alloc, made, lin, part)?,
            Lit::Eq(lin) => push_near(alloc, made, lin, part)?,
            _ => {}
        }
    }
    Ok(())
}

/// Adds the least numbers, and bounds of the part that guards speak of.
fn push_all_thresholds(
    alloc: Global,
    made: &mut Vec<i64>,
    guarded: &[Guarded],
    part: &Lin,
) -> Result<(), Memory> {
    push_around(made, 0, -1, 3)?;
    for of in guarded {
        push_thresholds(alloc, made, of, part)?;
    }
    Ok(())
}

/// Bounds of the part that guards speak of.
pub(crate) fn thresholds(
    alloc: Global,
    guarded: &[Guarded],
    part: &Lin,
) -> Result<Vec<i64>, Memory> {
    let mut made = Vec::new(alloc);
    push_all_thresholds(alloc, &mut made, guarded, part)?;
    Ok(made)
}
