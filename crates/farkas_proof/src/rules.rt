//! The two rules of a refutation that derive something, by themselves: a step can be tried before
//! there is a tree around it.

ghost use Rattle.std.specs.Prelude.{◌≡◌, ◌&&◌, IfOk, int_le, pos};
ghost use Rattle.lin_atoms.specs.declared.lit.Lit.TheVariants.{Le};
ghost use Rattle.refutation_trees.specs.Combination.{are_multipliers, combined, is_above_zero, is_divided_by};
ghost use Rattle.farkas_proof.specs.Derived.{Derives};
ghost use Rattle.int_rows.specs.Ready.{rounded};

use crate::narrow::Narrow;
use crate::nodes::{narrow_leaf, round};
use crate::stop::CheckStop;
use crate::sum::{Sum, combine};
use base::Memory;
use lin_atoms::Lit;
use std::alloc::Global;

/// Whether the multipliers show that the literals have no common point, as those of a
/// `Refutation::Leaf` do: each names a literal that is there, numbered from 0, and is below 2^63 in
/// magnitude; a `<=` has one that isn't negative, an `=` any, and a divisibility none; and the sum
/// of the multiples is 0 on every variable, with a constant above 0 (Farkas' lemma). Entries for
/// one literal are added up.
///
/// The sum is exact, whatever its numbers are. Only memory can run out.
pub fn is_leaf(alloc: Global, lits: &[Lit], multipliers: &[(u32, i64)]) -> Result<bool, Memory>
    ensures { IfOk result (λ holds. holds ≡ (are_multipliers lits.now multipliers.now && is_above_zero (combined lits.now multipliers.now))) }
{
    let mut narrow = Narrow::nothing(alloc);
    if narrow_leaf(&mut narrow, lits, multipliers) {
        return Ok(true);
    }
    let mut sum = Sum::nothing(alloc);
    if !combine(&mut sum, lits, multipliers)? {
        return Ok(false);
    }
    Ok(sum.is_above_zero())
}

/// The literal that a `Refutation::Round` derives, which every integer point of the literals
/// satisfies: the multipliers are as for `is_leaf`, but their sum S + c is any whose coefficients
/// the divisor d divides, where d is at least 1; derived is `S/d - floor(-c/d) <= 0` (the rounding
/// of Chvátal and Gomory).
///
/// Errors: `NoProof { node: 0 }` where the multipliers or the divisor aren't so, else
/// `SumWide { node: 0 }` where a coefficient of the derived literal is 2^63 or more in magnitude or
/// its constant 2^64 or more, and `Memory`.
pub fn derived(
    alloc: Global,
    lits: &[Lit],
    multipliers: &[(u32, i64)],
    divisor: i64,
) -> Result<Lit, CheckStop>
    ensures { Derives (are_multipliers lits.now multipliers.now
        && (int_le (pos 1) divisor && is_divided_by divisor (combined lits.now multipliers.now)))
        (Le (rounded divisor (combined lits.now multipliers.now))) 0 result }
{
    let mut sum = Sum::nothing(alloc);
    let mut narrow = Narrow::nothing(alloc);
    round(alloc, &mut sum, &mut narrow, lits, multipliers, divisor, 0)
}
