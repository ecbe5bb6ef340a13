//! Bounds that are moved outwards.

ghost use Rattle.std.specs.Prelude.{◌≡◌, ◌++◌, ◌∷◌, ◌+◌, ◌<◌, length, take, drop, OnOk, IfOk, IfSome};
ghost use Rattle.lin_atoms.specs.declared.lit.Lit.TheVariants.{Le};
ghost use Rattle.search_learn.specs.Candidates.{IsLooser};
ghost use Rattle.lemma_general.specs.Tries.{IsWiderCube};

use base::{Copied, Memory};
use cube_forms::Cube;
use guess_hulls::cube_of;
use lin_atoms::{Lin, Lit};
use std::alloc::Global;

/// The bound moved outwards by so much, where it has room.
fn moved_bound(alloc: Global, lin: &Lin, by: u64) -> Result<Option<Lit>, Memory>
    ensures { IfOk result (λ made. IfSome made (IsLooser (Le lin.now))) }
{
    let less = match i64::try_from(by) {
        Ok(by) => -by,
        Err(_) => return Ok(None),
    };
    let lin = lin.copy(alloc)?;
    match lin.plus(less) {
        Some(lin) => Ok(Some(Lit::Le(lin))),
        None => Ok(None),
    }
}

/// The literal moved outwards, if it is a bound and has room for that.
fn moved(alloc: Global, lit: &Lit, by: u64) -> Result<Option<Lit>, Memory>
    ensures { IfOk result (λ made. IfSome made (IsLooser lit.now)) }
{
    match lit {
        Lit::Le(lin) => moved_bound(alloc, lin, by),
        _ => Ok(None),
    }
}

/// Adds copies of literals.
pub(crate) fn push_all(alloc: Global, made: &mut Vec<Lit>, lits: &[Lit]) -> Result<(), Memory>
    ensures { OnOk result (made.new.items ≡ made.old.items ++ lits.now) }
{
    for lit in lits {
        made.push(lit.copy(alloc)?)?;
    }
    Ok(())
}

/// The literals with another one at a place.
fn with_at(alloc: Global, lits: &[Lit], at: usize, lit: Lit) -> Result<Vec<Lit>, Memory>
    requires { at < length lits.now }
    ensures { IfOk result (λ made. made.items ≡ take at lits.now ++ lit ∷ drop (at + 1) lits.now) }
{
    let mut made = Vec::new(alloc);
    push_all(alloc, &mut made, &lits[..at])?;
    made.push(lit)?;
    push_all(alloc, &mut made, &lits[at + 1..])?;
    Ok(made)
}

/// The cube with the bound at a place moved outwards, if there is one with room for that.
pub(crate) fn wider(alloc: Global, cube: &Cube, at: usize, by: u64) -> Result<Option<Cube>, Memory>
    ensures { IfOk result (λ made. IfSome made (IsWiderCube cube.now)) }
{
    let lits = cube.lits();
    if at >= lits.len() {
        return Ok(None);
    }
    match moved(alloc, &lits[at], by)? {
        Some(lit) => {
            let made = with_at(alloc, lits, at, lit)?;
            cube_of(alloc, made)
        }
        None => Ok(None),
    }
}
