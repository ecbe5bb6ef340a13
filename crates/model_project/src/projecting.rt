//! The call that projects.

ghost use Rattle.std.specs.Prelude.{◌≡◌, length, true, Some, None, IfOk, IsErrOf};
ghost use Rattle.std.specs.List.{list_all};
ghost use Rattle.lin_atoms.specs.Linear.{is_short};
ghost use Rattle.lin_atoms.specs.Truth.{lit_is_below};
ghost use Rattle.model_project.specs.Elimination.{has_short_numbers, tidied};
ghost use Rattle.model_project.specs.Projection.{are_true, eliminated, projection};
ghost use Rattle.model_project.specs.machinery.Steps.{are_narrow};

use crate::elimination;
use crate::projected::Projected;
use base::{Copied, Items, Memory};
use lin_atoms::{Lit, WideStop};
use std::alloc::Global;

/// The literals after the elimination, unless a number is wide.
fn eliminated(
    alloc: Global,
    lits: &[Lit],
    model: &[i64],
    keep: &[u32],
) -> Result<Vec<Lit>, WideStop>
    requires { are_true model.now lits.now ≡ true }
    ensures made { IfOk result (λ made. eliminated model.now keep.now (length model.now) (tidied lits.now) ≡ Some made.items) }
    ensures narrow { IfOk result (λ made. are_narrow made.items ≡ true) }
    ensures wide { IsErrOf result WideStop.Wide → eliminated model.now keep.now (length model.now) (tidied lits.now) ≡ None }
{
    let mut list = elimination::tidied(alloc, lits)?;
    elimination::divisors_are_above(list.as_slice());
    elimination::eliminate(alloc, &mut list, model, keep)?;
    Ok(list)
}

/// The cube: the literals of the elimination, and the model's point where a number is wide.
fn cube_of(alloc: Global, lits: &[Lit], model: &[i64], keep: &[u32]) -> Result<Vec<Lit>, Memory>
    requires { are_true model.now lits.now ≡ true }
    ensures is { IfOk result (λ cube. cube.items ≡ projection model.now keep.now lits.now) }
    ensures narrow { IfOk result (λ cube. list_all is_short model.now ≡ true → are_narrow cube.items ≡ true) }
{
    match eliminated(alloc, lits, model, keep) {
        Ok(cube) => Ok(cube),
        Err(WideStop::Wide) => elimination::point(alloc, model, keep),
        Err(WideStop::Memory) => Err(Memory),
    }
}

/// Copies of the literals.
fn copied(alloc: Global, lits: &[Lit]) -> Result<Items<Lit>, Memory>
    ensures { IfOk result (λ made. made ≡ lits.now) }
{
    let mut made = Items::new(alloc);
    for lit in lits {
        made.push(lit.copy(alloc)?)?;
    }
    Ok(made)
}

/// Projects a conjunction at a model of it to the variables that are kept. The model has a place
/// for each variable of the literals. The cube is that of the elimination of the other variables,
/// from the greatest down, or the model's point where that would take a number of 2^63 or more.
/// (Cooper 1972; Loos and Weispfenning 1993.)
///
/// Each removed variable costs a few looks at each literal; new literals are made where it occurs
/// alone.
pub fn project(
    alloc: Global,
    lits: &[Lit],
    model: &[i64],
    keep: &[u32],
) -> Result<Projected, Memory>
    requires holds { are_true model.now lits.now ≡ true }
    requires places { list_all (lit_is_below (length model.now)) lits.now ≡ true }
    ensures lits { IfOk result (λ p. p.lits ≡ lits.now) }
    ensures model { IfOk result (λ p. p.model ≡ model.now) }
    ensures keep { IfOk result (λ p. p.keep ≡ keep.now) }
    ensures cube { IfOk result (λ p. p.cube ≡ projection model.now keep.now lits.now) }
    ensures narrow { IfOk result (λ p. list_all is_short model.now ≡ true → list_all has_short_numbers p.cube ≡ true) }
{
    let cube = cube_of(alloc, lits, model, keep)?;
    elimination::divisors_are_above(lits);
    elimination::variables_rise(cube.as_slice());
    let cube = Items::from_vec(cube);
    let lits = copied(alloc, lits)?;
    let model = Items::from_slice(alloc, model)?;
    let keep = Items::from_slice(alloc, keep)?;
    Ok(Projected {
        lits,
        model,
        keep,
        cube,
    })
}
