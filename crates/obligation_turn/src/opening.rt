//! The step that asks a body atom's tuple further.

ghost use Rattle.std.specs.Prelude.{◌≡◌, ◌≤◌, ◌-◌, ℕ, true, Some, length, slice_get, IfOk, OnOk};
ghost use Rattle.std.specs.List.{list_all};
ghost use Rattle.base.specs.Limits.{most_arguments};
ghost use Rattle.base.specs.Widths.{is_short};
ghost use Rattle.lin_atoms.specs.Truth.{lit_is_below};
ghost use Rattle.clause_form.specs.declared.clause.Clause.{Clause as PlainClause};
ghost use Rattle.cube_forms.specs.Cubes.{cube_is_short, tuple_at};
ghost use Rattle.model_project.specs.Elimination.{has_short_numbers};
ghost use Rattle.model_project.specs.Projection.{are_true};
ghost use Rattle.book_rules.specs.Areas.{point_cube, same_variables};
ghost use Rattle.book_rules.specs.Steps.{IsProjected};
ghost use Rattle.chc_tokens.specs.Kept.{seen_clause, seen_point};
ghost use Rattle.area_literals.specs.Areas.{IsAreaOf};
ghost use Rattle.step_rules.specs.Views.{facts_of, lemmas_of};
ghost use Rattle.step_rules.specs.declared.step.Step.TheVariants.{OpenStep};
ghost use Rattle.obligation_turn.specs.Turns.{GoesOn, IsOpenLeaf, IsTurn};
ghost use Rattle.obligation_turn.specs.machinery.Bodies.{IsMissing};
ghost use Rattle.obligation_turn.specs.machinery.Jobs.{IsJobHit, job_of};
ghost use Rattle.obligation_turn.specs.machinery.Opens.{IsChosen, IsCubeOf, with_variable};

use area_literals::area;
use base::Memory;
use chc_tokens::Seen;
use clause_form::Atom;
use clause_queries::{frames_are_kept, is_kept};
use cube_forms::{Cube, CubeStop, Tuple};
use cube_rules::{is_wide, point_cube, projected_cube};
use derivations::Facts;
use lin_atoms::Lit;
use model_project::{Projected, project};
use std::alloc::Global;
use step_rules::{Lent, OpenPart, has_fact_in};

/// Adds the variable, unless it is there.
fn add_variable(variables: &mut Vec<u32>, variable: u32) -> Result<(), Memory>
    ensures { OnOk result (variables.new.items ≡ with_variable variable variables.old.items) }
{
    if variables.contains(&variable) {
        return Ok(());
    }
    variables.push(variable)?;
    Ok(())
}

/// The variables of the arguments, each once, in the order of their first places.
fn variables(alloc: Global, args: &[u32]) -> Result<Vec<u32>, Memory>
    ensures { IfOk result (λ variables. same_variables variables.items args.now ≡ true) }
{
    let mut variables: Vec<u32> = Vec::new(alloc);
    for arg in args {
        add_variable(&mut variables, *arg)?;
    }
    Ok(variables)
}

/// The literals of the obligation's area at the instance.
fn area_at(lent: &Lent, job: u32, seen: &Seen) -> Result<Vec<Lit>, Memory>
    requires goes_on { GoesOn lent.now }
    requires leaf { IsOpenLeaf lent.now job }
    requires hit { IsJobHit lent.now job seen.now }
    ensures area { IfOk result (λ lits. (clause : PlainClause) → slice_get lent.now.system.clauses (seen_clause seen.now) ≡ Some clause
        → IsAreaOf clause (job_of lent.now job).cube (lemmas_of lent.now.frames.lemmas) ((job_of lent.now job).level - 1) (seen_point seen.now)
        lits.items) }
    ensures below { IfOk result (λ lits. list_all (lit_is_below (length (seen_point seen.now))) lits.items ≡ true) }
{
    frames_are_kept(lent.frames);
    let obligation = lent.tree.obligation(job);
    is_kept(&obligation.cube);
    let clause = lent.system.clause(seen.clause() as usize);
    let k = obligation.level.saturating_sub(1);
    let lits = area(
        lent.alloc,
        clause,
        &obligation.cube,
        lent.frames,
        k,
        seen.point(),
    )?;
    Ok(lits)
}

/// The area, projected to the variables of the atom.
fn projected(alloc: Global, atom: &Atom, lits: &[Lit], point: &[i64]) -> Result<Projected, Memory>
    requires holds { are_true point.now lits.now ≡ true }
    requires below { list_all (lit_is_below (length point.now)) lits.now ≡ true }
    requires short { list_all is_short point.now ≡ true }
    ensures lits { IfOk result (λ area. area.lits ≡ lits.now) }
    ensures model { IfOk result (λ area. area.model ≡ point.now) }
    ensures keep { IfOk result (λ area. same_variables area.keep atom.now.args ≡ true) }
    ensures projected { IfOk result (λ area. IsProjected area) }
    ensures short { IfOk result (λ area. list_all has_short_numbers area.cube ≡ true) }
{
    let keep = variables(alloc, atom.args.as_slice())?;
    let area = project(alloc, lits, point, keep.as_slice())?;
    let _cube = area.cube();
    Ok(area)
}

/// The atom's tuple at the point, as an equation for each place.
fn tuple_cube(alloc: Global, atom: &Atom, point: &[i64]) -> Result<Vec<Lit>, Memory>
    requires { length atom.now.args ≤ most_arguments }
    ensures { IfOk result (λ lits. lits.items ≡ point_cube (tuple_at point.now atom.now.args)) }
{
    let tuple = Tuple::at(alloc, point, atom.args.as_slice())?;
    let lits = point_cube(alloc, tuple.as_slice())?;
    Ok(lits)
}

/// The literals as they are; the tuple's in their place where a recorded fact lies in them or they are
/// wide.
fn chosen(
    alloc: Global,
    facts: &Facts,
    atom: &Atom,
    lits: Vec<Lit>,
    point: &[i64],
) -> Result<Vec<Lit>, Memory>
    requires { length atom.now.args ≤ most_arguments }
    ensures { IfOk result (λ made. IsChosen (facts_of facts.now) atom.now point.now lits.items made.items) }
{
    if has_fact_in(facts, atom.pred, lits.as_slice()) || is_wide(lits.as_slice()) {
        return tuple_cube(alloc, atom, point);
    }
    Ok(lits)
}

/// The literals of the new obligation's cube: those of the area over the atom's places, or the
/// tuple's.
fn cube_lits(
    alloc: Global,
    facts: &Facts,
    atom: &Atom,
    area: &Projected,
    point: &[i64],
) -> Result<Vec<Lit>, Memory>
    requires { length atom.now.args ≤ most_arguments }
    ensures { IfOk result (λ lits. IsCubeOf (facts_of facts.now) atom.now area.now point.now lits.items) }
{
    match projected_cube(alloc, atom, area)? {
        Some(lits) => {
            let made = chosen(alloc, facts, atom, lits, point)?;
            Ok(made)
        }
        None => {
            let made = tuple_cube(alloc, atom, point)?;
            Ok(made)
        }
    }
}

/// Keeps literals with short numbers as a cube.
fn kept(alloc: Global, lits: Vec<Lit>) -> Result<Cube, Memory>
    requires { cube_is_short lits.items ≡ true }
    ensures { IfOk result (λ cube. cube ≡ lits.items) }
{
    match Cube::new(alloc, lits) {
        Ok(cube) => Ok(cube),
        Err(CubeStop::Wide) => unreachable!(),
        Err(CubeStop::Memory) => Err(Memory),
    }
}

/// The new obligation's cube.
fn new_cube(
    alloc: Global,
    facts: &Facts,
    atom: &Atom,
    area: &Projected,
    point: &[i64],
) -> Result<Cube, Memory>
    requires few { length atom.now.args ≤ most_arguments }
    requires short { list_all has_short_numbers area.now.cube ≡ true }
    requires values { list_all is_short point.now ≡ true }
    ensures { IfOk result (λ cube. IsCubeOf (facts_of facts.now) atom.now area.now point.now cube) }
{
    let lits = cube_lits(alloc, facts, atom, area, point)?;
    let cube = kept(alloc, lits)?;
    Ok(cube)
}

/// The step that asks the instance's tuple of this atom, which isn't recorded, for the obligation of
/// that number.
pub(crate) fn opened(lent: &Lent, job: u32, seen: Seen, number: u32) -> Result<OpenPart, Memory>
    requires goes_on { GoesOn lent.now }
    requires leaf { IsOpenLeaf lent.now job }
    requires hit { IsJobHit lent.now job seen }
    requires missing { IsMissing lent.now.system (facts_of lent.now.facts) seen number }
    ensures { (nodes : ℕ) → IfOk result (λ part. IsTurn lent.now job nodes (OpenStep part)) }
{
    let alloc = lent.alloc;
    let _clauses = lent.system.clauses();
    let lits = area_at(lent, job, &seen)?;
    let clause = lent.system.clause(seen.clause() as usize);
    let atom = &clause.atoms.as_slice()[number as usize];
    let area = projected(alloc, atom, lits.as_slice(), seen.point())?;
    let cube = new_cube(alloc, lent.facts, atom, &area, seen.point())?;
    Ok(OpenPart {
        parent: job,
        atom: number,
        seen,
        cube,
        area,
    })
}
