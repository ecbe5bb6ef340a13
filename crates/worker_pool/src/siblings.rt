//! Further body atoms of an instance that are asked beside the first one.

ghost use Rattle.std.specs.Prelude.{◌≡◌, ◌≤◌, ◌<◌, ◌^◌, ℕ, length, true, false, IfOk, IfSome};
ghost use Rattle.base.specs.Limits.{most_arguments};
ghost use Rattle.lin_atoms.specs.Truth.{lit_is_below};
ghost use Rattle.std.specs.List.{list_all};
ghost use Rattle.chc_tokens.specs.Tokens.{is_seen};
ghost use Rattle.book_rules.specs.Areas.{is_wide};
ghost use Rattle.model_project.specs.Projection.{are_true};
ghost use Rattle.obligation_turn.specs.Turns.{GoesOn};
ghost use Rattle.search_strategy.specs.machinery.Steps.{IsOffered};

use base::{Copied, Memory};
use chc_tokens::Seen;
use clause_form::Atom;
use cube_forms::{Cube, CubeStop, Tuple};
use cube_rules::{is_wide, point_cube, projected_cube};
use derivations::Facts;
use lin_atoms::Lit;
use model_project::{Projected, project};
use std::alloc::Global;
use step_rules::{Lent, OpenPart, Step, has_fact_in, has_places};

/// What an Open leaves to go on from: its instance, and the area's literals.
#[derive(Drop)]
pub(crate) struct Opened {
    parent: u32,
    atom: u32,
    seen: Seen,
    area: Projected,
}

/// What the Open leaves to go on from.
pub(crate) fn opened_by(alloc: Global, part: &OpenPart) -> Result<Opened, Memory>
    ensures { IfOk result (λ opened. opened.seen ≡ part.now.seen) }
{
    Ok(Opened {
        parent: part.parent,
        atom: part.atom,
        seen: part.seen.copy(alloc)?,
        area: part.area.copy(alloc)?,
    })
}

/// Whether all literals are over variables that the point has.
fn are_below(lits: &[Lit], n: usize) -> bool
    ensures { result ≡ list_all (lit_is_below n) lits.now }
{
    lits.iter().all(|lit| lit.is_below(n))
}

/// Whether all literals are true at the point.
fn are_true(lits: &[Lit], point: &[i64]) -> bool
    ensures { result ≡ are_true point.now lits.now }
{
    lits.iter().all(|lit| lit.holds(point))
}

/// Adds the variable, unless it is there.
fn add_variable(variables: &mut Vec<u32>, variable: u32) -> Result<(), Memory> {
    if !variables.contains(&variable) {
        variables.push(variable)?;
    }
    Ok(())
}

/// The variables of the arguments, each once, in the order of their first places.
fn variables(alloc: Global, args: &[u32]) -> Result<Vec<u32>, Memory> {
    let mut variables: Vec<u32> = Vec::new(alloc);
    for arg in args {
        add_variable(&mut variables, *arg)?;
    }
    Ok(variables)
}

/// The area's literals, projected to the variables of the atom.
fn projected(alloc: Global, atom: &Atom, area: &Projected) -> Result<Option<Projected>, Memory> {
    let lits = area.lits();
    let model = area.model();
    if !are_below(lits, model.len()) || !are_true(lits, model) {
        return Ok(None);
    }
    let keep = variables(alloc, atom.args.as_slice())?;
    let made = project(alloc, lits, model, keep.as_slice())?;
    Ok(Some(made))
}

/// The atom's tuple at the point, as an equation for each place.
fn tuple_cube(alloc: Global, atom: &Atom, point: &[i64]) -> Result<Vec<Lit>, Memory>
    requires { length atom.now.args ≤ most_arguments }
{
    let tuple = Tuple::at(alloc, point, atom.args.as_slice())?;
    let lits = point_cube(alloc, tuple.as_slice())?;
    Ok(lits)
}

/// The literals of the new obligation's cube: those of the area over the atom's places; the tuple's
/// where a recorded fact lies in them or they are wide.
fn cube_lits(
    alloc: Global,
    facts: &Facts,
    atom: &Atom,
    area: &Projected,
    point: &[i64],
) -> Result<Vec<Lit>, Memory>
    requires { length atom.now.args ≤ most_arguments }
{
    match projected_cube(alloc, atom, area)? {
        Some(lits) => {
            if has_fact_in(facts, atom.pred, lits.as_slice()) || is_wide(lits.as_slice()) {
                return tuple_cube(alloc, atom, point);
            }
            Ok(lits)
        }
        None => tuple_cube(alloc, atom, point),
    }
}

/// The literals as a cube, if all numbers are short, and no coefficient is wide.
fn kept(alloc: Global, lits: Vec<Lit>) -> Result<Option<Cube>, Memory>
    ensures { IfOk result (λ found. IfSome found (λ cube. is_wide cube ≡ false)) }
{
    if is_wide(lits.as_slice()) {
        return Ok(None);
    }
    match Cube::new(alloc, lits) {
        Ok(cube) => Ok(Some(cube)),
        Err(CubeStop::Wide) => Ok(None),
        Err(CubeStop::Memory) => Err(Memory),
    }
}

/// The step, if its cube is over the atom's predicate.
fn placed(lent: &Lent, part: OpenPart) -> Option<Step>
    requires seen { is_seen lent.now.system part.seen ≡ true }
    requires thin { is_wide part.cube ≡ false }
    ensures { (nodes : ℕ) → IfSome result (IsOffered lent.now.system nodes) }
{
    let step = Step::OpenStep(part);
    if has_places(lent.system.plain(), &step) {
        Some(step)
    } else {
        None
    }
}

/// The step that asks the instance's tuple of this atom.
fn asked(lent: &Lent, from: &Opened, number: u32, atom: &Atom) -> Result<Option<Step>, Memory>
    requires seen { is_seen lent.now.system from.now.seen ≡ true }
    requires few { length atom.now.args ≤ most_arguments }
    ensures { (nodes : ℕ) → IfOk result (λ found. IfSome found (IsOffered lent.now.system nodes)) }
{
    let alloc = lent.alloc;
    let Some(area) = projected(alloc, atom, &from.area)? else {
        return Ok(None);
    };
    let lits = cube_lits(alloc, lent.facts, atom, &area, from.seen.point())?;
    let Some(cube) = kept(alloc, lits)? else {
        return Ok(None);
    };
    let seen = from.seen.copy(alloc)?;
    let part = OpenPart {
        parent: from.parent,
        atom: number,
        seen,
        cube,
        area,
    };
    Ok(placed(lent, part))
}

/// Whether the instance's tuple of the atom is recorded.
fn is_recorded(lent: &Lent, from: &Opened, atom: &Atom) -> Result<bool, Memory> {
    let tuple = Tuple::at(lent.alloc, from.seen.point(), atom.args.as_slice())?;
    Ok(lent.facts.find(atom.pred, tuple.as_slice()).is_some())
}

/// The step that asks the instance's tuple of another atom than the first one, where it isn't recorded.
pub(crate) fn sibling(lent: &Lent, from: &Opened, number: u32) -> Result<Option<Step>, Memory>
    requires { is_seen lent.now.system from.now.seen ≡ true }
    ensures { (nodes : ℕ) → IfOk result (λ found. IfSome found (IsOffered lent.now.system nodes)) }
{
    if number == from.atom {
        return Ok(None);
    }
    let clause = lent.system.clause(from.seen.clause() as usize);
    match clause.atoms.as_slice().get(number as usize) {
        Some(atom) => {
            if is_recorded(lent, from, atom)? {
                return Ok(None);
            }
            let step = asked(lent, from, number, atom)?;
            Ok(step)
        }
        None => Ok(None),
    }
}

/// How many atoms there are.
fn count_of(atoms: &[Atom]) -> u32
    requires { length atoms.now < 2 ^ 32 }
{
    atoms.len() as u32
}

/// How many body atoms the clause of the instance has.
pub(crate) fn atoms_of(lent: &Lent, from: &Opened) -> u32
    requires goes_on { GoesOn lent.now }
    requires seen { is_seen lent.now.system from.now.seen ≡ true }
{
    let clause = lent.system.clause(from.seen.clause() as usize);
    count_of(clause.atoms.as_slice())
}
