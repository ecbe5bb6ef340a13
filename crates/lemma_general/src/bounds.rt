//! Equations as two bounds.

ghost use Rattle.std.specs.Prelude.{◌≡◌, ◌++◌, ◌∷◌, [], false, OnOk, IfOk};
ghost use Rattle.lemma_general.specs.Generals.{bounds_of};

use base::{Copied, Memory};
use lin_atoms::Lit;
use std::alloc::Global;

/// Adds the literal; for an equation its two bounds.
fn push_bounds(alloc: Global, lits: &mut Vec<Lit>, lit: &Lit) -> Result<(), Memory>
    ensures { OnOk result (lits.new.items ≡ lits.old.items ++ bounds_of (lit.now ∷ [])) }
{
    match lit {
        Lit::Eq(lin) => {
            lits.push(Lit::Le(lin.copy(alloc)?))?;
            lits.push(Lit::Le(lin.negated(alloc)?))?;
            Ok(())
        }
        _ => {
            lits.push(lit.copy(alloc)?)?;
            Ok(())
        }
    }
}

/// The literals, each equation as two bounds.
pub(crate) fn bounds_of(alloc: Global, lits: &[Lit]) -> Result<Vec<Lit>, Memory>
    ensures { IfOk result (λ made. made.items ≡ bounds_of lits.now) }
{
    let mut made = Vec::new(alloc);
    for lit in lits {
        push_bounds(alloc, &mut made, lit)?;
    }
    Ok(made)
}

/// Whether one of them is an equation.
pub(crate) fn has_equation(lits: &[Lit]) -> bool
    ensures { result ≡ false → bounds_of lits.now ≡ lits.now }
{
    for lit in lits {
        if let Lit::Eq(_) = lit {
            return true;
        }
    }
    false
}
