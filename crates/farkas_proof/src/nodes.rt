//! What one node derives.

ghost use Rattle.std.specs.Prelude.{◌≡◌, ◌+◌, ◌&&◌, ◌<ℤ◌, IfOk, IfSome, IsSome, IsTrue, int_le, pos, true};
ghost use Rattle.lin_atoms.specs.Linear.{are_ordered, fits};
ghost use Rattle.lin_atoms.specs.declared.lit.Lit.TheVariants.{Le};
ghost use Rattle.refutation_trees.specs.Combination.{are_multipliers, combined, is_above_zero, is_divided_by, one_minus};
ghost use Rattle.farkas_proof.specs.Derived.{Derives};
ghost use Rattle.int_rows.specs.Ready.{rounded};
ghost use Rattle.refutation_trees.specs.Refutation.{Sound, checked};
ghost use Rattle.farkas_proof.specs.machinery.Sum.{seen, standing};
ghost use Rattle.farkas_proof.specs.machinery.Tells.{Tells};

use crate::narrow::Narrow;
use crate::rounding::rounded;
use crate::stop::CheckStop;
use crate::sum::{Sum, combine};
use base::Memory;
use lin_atoms::{Lin, Lit};
use std::alloc::Global;

/// The number of the next node. More nodes than numbers are more than any memory has.
pub(crate) fn next(at: u32) -> Result<u32, Memory>
    ensures { IfOk result (λ n. n ≡ at + 1) }
{
    if at == u32::MAX {
        Err(Memory)
    } else {
        Ok(at + 1)
    }
}

/// A leaf. The sums are any, and are made anew.
pub(crate) fn leaf(
    sum: &mut Sum,
    narrow: &mut Narrow,
    lits: &[Lit],
    multipliers: &[(u32, i64)],
    at: u32,
) -> Result<u32, CheckStop>
    ensures { Tells (checked (are_multipliers lits.now multipliers.now && is_above_zero (combined lits.now multipliers.now)) true at (Sound (at + 1))) result }
{
    if narrow_leaf(narrow, lits, multipliers) {
        Ok(next(at)?)
    } else {
        wide_leaf(sum, lits, multipliers, at)
    }
}

/// Whether the multiples are found to be a number above 0, and the multipliers in order.
pub(crate) fn narrow_leaf(narrow: &mut Narrow, lits: &[Lit], multipliers: &[(u32, i64)]) -> bool
    ensures { IsTrue result → (are_multipliers lits.now multipliers.now && is_above_zero (combined lits.now multipliers.now)) ≡ true }
{
    narrow.combine(lits, multipliers) && narrow.is_above_zero()
}

fn wide_leaf(
    sum: &mut Sum,
    lits: &[Lit],
    multipliers: &[(u32, i64)],
    at: u32,
) -> Result<u32, CheckStop>
    ensures { Tells (checked (are_multipliers lits.now multipliers.now && is_above_zero (combined lits.now multipliers.now)) true at (Sound (at + 1))) result }
{
    if !combine(sum, lits, multipliers)? {
        return Err(CheckStop::NoProof { node: at });
    }
    if sum.is_above_zero() {
        Ok(next(at)?)
    } else {
        Err(CheckStop::NoProof { node: at })
    }
}

/// The literal that a rounding derives. The sums are any, and are made anew.
pub(crate) fn round(
    alloc: Global,
    sum: &mut Sum,
    narrow: &mut Narrow,
    lits: &[Lit],
    multipliers: &[(u32, i64)],
    divisor: i64,
    at: u32,
) -> Result<Lit, CheckStop>
    ensures { Derives (are_multipliers lits.now multipliers.now
        && (int_le (pos 1) divisor && is_divided_by divisor (combined lits.now multipliers.now)))
        (Le (rounded divisor (combined lits.now multipliers.now))) at result }
{
    match narrow_round(alloc, narrow, lits, multipliers, divisor)? {
        Some(lin) => Ok(Lit::Le(lin)),
        None => wide_round(alloc, sum, lits, multipliers, divisor, at),
    }
}

/// The form that a rounding derives, where it is found in numbers of 64 bits.
fn narrow_round(
    alloc: Global,
    narrow: &mut Narrow,
    lits: &[Lit],
    multipliers: &[(u32, i64)],
    divisor: i64,
) -> Result<Option<Lin>, Memory>
    ensures legal { IfOk result (λ made. IsSome made → (are_multipliers lits.now multipliers.now && (int_le (pos 1) divisor && is_divided_by divisor (combined lits.now multipliers.now))) ≡ true) }
    ensures within { IfOk result (λ made. IsSome made → fits (rounded divisor (combined lits.now multipliers.now)) ≡ true) }
    ensures value { IfOk result (λ made. IfSome made (λ lin. lin ≡ rounded divisor (combined lits.now multipliers.now))) }
{
    if divisor < 1 {
        return Ok(None);
    }
    if !narrow.combine(lits, multipliers) {
        return Ok(None);
    }
    let made = narrow.rounded(alloc, divisor)?;
    Ok(made)
}

fn wide_round(
    alloc: Global,
    sum: &mut Sum,
    lits: &[Lit],
    multipliers: &[(u32, i64)],
    divisor: i64,
    at: u32,
) -> Result<Lit, CheckStop>
    ensures { Derives (are_multipliers lits.now multipliers.now
        && (int_le (pos 1) divisor && is_divided_by divisor (combined lits.now multipliers.now)))
        (Le (rounded divisor (combined lits.now multipliers.now))) at result }
{
    if !combine(sum, lits, multipliers)? {
        return Err(CheckStop::NoProof { node: at });
    }
    if divisor >= 1 {
        divided(alloc, sum, divisor, at)
    } else {
        Err(CheckStop::NoProof { node: at })
    }
}

/// The literal that says of the divided sum that it is at most 0.
fn divided(alloc: Global, sum: &Sum, divisor: i64, at: u32) -> Result<Lit, CheckStop>
    requires positive { pos 0 <ℤ divisor }
    requires ordered { are_ordered 0 (seen sum.now.terms.items) ≡ true }
    ensures { Derives (is_divided_by divisor (standing sum.now.terms.items sum.now.negated)) (Le (rounded divisor (standing sum.now.terms.items sum.now.negated))) at result }
{
    if !sum.is_divided_by(divisor) {
        return Err(CheckStop::NoProof { node: at });
    }
    match rounded(alloc, sum, divisor)? {
        Some(lin) => Ok(Lit::Le(lin)),
        None => Err(CheckStop::SumWide { node: at }),
    }
}

/// The literal above a split. That below has the room that the form has.
pub(crate) fn above(alloc: Global, lin: &Lin, at: u32) -> Result<Lit, CheckStop>
    ensures { Derives true (Le (one_minus lin.now)) at result }
{
    match lin.negated(alloc)?.plus(1) {
        Some(high) => {
            let _constant = high.constant();
            Ok(Lit::Le(high))
        }
        None => Err(CheckStop::SumWide { node: at }),
    }
}
