//! Literals of a formula, and of a cube at arguments, that are true at a point.

ghost use Rattle.std.specs.Prelude.{◌≡◌, true, OnOk};
ghost use Rattle.std.specs.List.{list_all, list_any};
ghost use Rattle.lin_atoms.specs.Truth.{lit_truth, truth};
ghost use Rattle.cube_forms.specs.Cubes.{cube_at, has_room};
ghost use Rattle.book_rules.specs.Queries.{args_of};
ghost use Rattle.area_literals.specs.machinery.Growing.{AreAdded, AreGathered, AreGatheredSome, IsAdded, IsGathered};

use base::{Copied, Memory};
use clause_form::Atom;
use cube_forms::Cube;
use cube_rules::{cover, is_among};
use lin_atoms::{Form, Lit, WideStop, holds};
use std::alloc::Global;

/// Adds the literal, unless it is there.
fn add(alloc: Global, lits: &mut Vec<Lit>, lit: &Lit, point: &[i64]) -> Result<(), Memory>
    requires { lit_truth point.now lit.now ≡ true }
    ensures { OnOk result (IsAdded point.now lit.now lits.old.items lits.new.items) }
{
    let _point = point;
    if is_among(lits.as_slice(), lit) {
        return Ok(());
    }
    lits.push(lit.copy(alloc)?)?;
    Ok(())
}

/// Adds literals of the form that are true at the point until they cover it: of a disjunction that
/// isn't covered those of its first part that is true.
#[cycle(gather)]
pub(crate) fn gather(
    alloc: Global,
    lits: &mut Vec<Lit>,
    form: &Form,
    point: &[i64],
) -> Result<(), Memory>
    requires { truth point.now form.now ≡ true }
    ensures { OnOk result (IsGathered point.now form.now lits.old.items lits.new.items) }
{
    match form {
        Form::True => Ok(()),
        Form::False => unreachable!(),
        Form::Lit(lit) => add(alloc, lits, lit, point),
        Form::And(parts) => gather_all(alloc, lits, parts.as_slice(), point),
        Form::Or(parts) => {
            if cover(lits.as_slice(), form) {
                return Ok(());
            }
            gather_first(alloc, lits, parts.as_slice(), point)
        }
    }
}

#[cycle(gather)]
fn gather_all(
    alloc: Global,
    lits: &mut Vec<Lit>,
    forms: &[Form],
    point: &[i64],
) -> Result<(), Memory>
    requires { list_all (truth point.now) forms.now ≡ true }
    ensures { OnOk result (AreGathered point.now forms.now lits.old.items lits.new.items) }
{
    for form in forms {
        gather(alloc, lits, form, point)?;
    }
    Ok(())
}

#[cycle(gather)]
fn gather_first(
    alloc: Global,
    lits: &mut Vec<Lit>,
    forms: &[Form],
    point: &[i64],
) -> Result<(), Memory>
    requires { list_any (truth point.now) forms.now ≡ true }
    ensures { OnOk result (AreGatheredSome point.now forms.now lits.old.items lits.new.items) }
{
    for form in forms {
        if holds(form, point) {
            return gather(alloc, lits, form, point);
        }
    }
    unreachable!()
}

/// Adds literals.
fn add_all(alloc: Global, lits: &mut Vec<Lit>, more: &[Lit], point: &[i64]) -> Result<(), Memory>
    requires { list_all (lit_truth point.now) more.now ≡ true }
    ensures { OnOk result (AreAdded point.now more.now lits.old.items lits.new.items) }
{
    for lit in more {
        add(alloc, lits, lit, point)?;
    }
    Ok(())
}

/// Adds the cube's literals at the head's arguments.
pub(crate) fn add_cube(
    alloc: Global,
    lits: &mut Vec<Lit>,
    cube: &Cube,
    head: &Option<Atom>,
    point: &[i64],
) -> Result<(), Memory>
    requires room { has_room (args_of head.now) cube.now ≡ true }
    requires holds { list_all (lit_truth point.now) (cube_at (args_of head.now) cube.now) ≡ true }
    ensures { OnOk result (AreAdded point.now (cube_at (args_of head.now) cube.now) lits.old.items lits.new.items) }
{
    let args = match head {
        Some(atom) => atom.args.as_slice(),
        None => &[],
    };
    match cube.at(alloc, args) {
        Ok(placed) => add_all(alloc, lits, placed.as_slice(), point),
        Err(WideStop::Wide) => unreachable!(),
        Err(WideStop::Memory) => Err(Memory),
    }
}
