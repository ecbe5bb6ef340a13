//! The two sides of a branch.

ghost use Rattle.std.specs.Prelude.{◌≡◌, ◌+ℤ◌, ◌∷◌, [], pos, nat_abs, ◌≤◌, IfOk};
ghost use Rattle.base.specs.Widths.{short_limit};
ghost use Rattle.lin_atoms.specs.declared.lit.Lit.TheVariants.{Le};
ghost use Rattle.refutation_trees.specs.Split.{at_least, at_most};

use base::Memory;
use lin_atoms::{Lin, Lit};
use std::alloc::Global;

/// A variable with a coefficient that isn't 0, and a constant, is at most 0.
fn bounded(alloc: Global, variable: u32, coefficient: i64, constant: i128) -> Result<Lit, Memory>
    requires unit { nat_abs coefficient ≡ 1 }
    requires small { nat_abs constant ≤ short_limit }
    ensures { IfOk result (λ lit. lit ≡ Le (record { terms = (variable, coefficient) ∷ []; constant = constant })) }
{
    let terms = vec![in alloc; (variable, coefficient)]?;
    match Lin::new(terms, constant) {
        Ok(lin) => Ok(Lit::Le(lin)),
        Err(_) => unreachable!(),
    }
}

/// The variable or quotient is at most the number.
pub fn at_most(alloc: Global, variable: u32, floor: i64) -> Result<Lit, Memory>
    ensures { IfOk result (λ lit. lit ≡ at_most variable floor) }
{
    let lit = bounded(alloc, variable, 1, -i128::from(floor))?;
    Ok(lit)
}

/// The variable or quotient is above the number.
pub fn above(alloc: Global, variable: u32, floor: i64) -> Result<Lit, Memory>
    ensures { IfOk result (λ lit. lit ≡ at_least variable (floor +ℤ pos 1)) }
{
    let lit = bounded(alloc, variable, -1, i128::from(floor) + 1)?;
    Ok(lit)
}
