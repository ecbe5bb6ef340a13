//! Literals in their simplest form.

use crate::reducing::residue;
use base::Memory;
use guess_table::{push_new, tightened};
use lin_atoms::Lit;
use std::alloc::Global;

/// Adds the literal in its simplest form, an equation as two bounds.
fn push_simplest(alloc: Global, lits: &mut Vec<Lit>, lit: &Lit) -> Result<(), Memory> {
    match lit {
        Lit::Le(lin) => push_new(lits, Lit::Le(tightened(alloc, lin)?)),
        Lit::Eq(lin) => {
            let below = lin.negated(alloc)?;
            push_new(lits, Lit::Le(tightened(alloc, &below)?))?;
            push_new(lits, Lit::Le(tightened(alloc, lin)?))
        }
        Lit::Div(divisor, lin) => push_new(
            lits,
            Lit::Div(*divisor, residue(alloc, *divisor, lin)?),
        ),
        Lit::NDiv(divisor, lin) => push_new(
            lits,
            Lit::NDiv(*divisor, residue(alloc, *divisor, lin)?),
        ),
    }
}

/// The literals in their simplest form, each once, the last first: bounds without a common factor, an
/// equation as two bounds, and least residues of divisibilities. They are true at the same points.
pub fn simplest(alloc: Global, lits: &[Lit]) -> Result<Vec<Lit>, Memory> {
    let mut made = Vec::new(alloc);
    for lit in lits.iter().rev() {
        push_simplest(alloc, &mut made, lit)?;
    }
    Ok(made)
}
