ghost use Rattle.std.specs.Prelude.{◌≡◌, ◌++◌, ◌<◌, ◌≤◌, ◌^◌, ℕ, length, map, nat_le, IfOk, IfNone, OnOk, MatchOption, true, false};
ghost use Rattle.std.specs.List.{list_all, list_any};
ghost use Rattle.base.specs.Limits.{most_arguments};
ghost use Rattle.lin_atoms.specs.Algebra.{name_in};
ghost use Rattle.lin_atoms.specs.Denial.{linear_of, lit_fits};
ghost use Rattle.lin_atoms.specs.Linear.{is_linear};
ghost use Rattle.lin_atoms.specs.declared.lit.Lit.TheVariants.{Eq};
ghost use Rattle.book_rules.specs.Areas.{equations_from, first_place, is_wide, lit_in_places, point_cube, projected_cube};
ghost use Rattle.cube_rules.specs.machinery.Literals.{is_wide_term};

use crate::literals::has_room;
use base::Memory;
use clause_form::Atom;
use cube_forms::lit_at;
use lin_atoms::{Lin, LinStop, Lit, WideStop};
use model_project::Projected;
use std::alloc::Global;

/// The first place of a variable among the arguments; its own number where it has none.
fn first_place(args: &[u32], variable: u32) -> u32
    requires { length args.now ≤ most_arguments }
    ensures { result ≡ first_place args.now variable }
{
    for (place, arg) in args.iter().enumerate() {
        if *arg == variable {
            return place as u32;
        }
    }
    variable
}

/// The bound, or one more than the argument.
fn bound_with(bound: usize, arg: u32) -> usize
    requires { bound ≤ 2 ^ 32 }
    ensures old { bound ≤ result }
    ensures new { arg < result }
    ensures most { result ≤ 2 ^ 32 }
{
    let arg = arg as usize;
    if arg >= bound { arg + 1 } else { bound }
}

/// One more than the greatest argument, 0 for none.
fn bound_of(args: &[u32]) -> usize
    ensures above { list_any (λ v. nat_le result v) args.now ≡ false }
    ensures most { result ≤ 2 ^ 32 }
{
    let mut bound = 0;
    for arg in args {
        bound = bound_with(bound, *arg);
    }
    bound
}

/// The first place of each variable up to the greatest argument.
fn first_places(alloc: Global, args: &[u32]) -> Result<Vec<u32>, Memory>
    requires { length args.now ≤ most_arguments }
    ensures { IfOk result (λ names. (v : ℕ) → name_in names.items v ≡ first_place args.now v) }
{
    let bound = bound_of(args);
    let mut names = Vec::with_capacity(alloc, bound)?;
    for variable in 0..bound {
        names.push(first_place(args, variable as u32))?;
    }
    Ok(names)
}

/// `terms` and the constant are at most 0 and at least 0.
fn equal(alloc: Global, terms: &[(u32, i64)], constant: i128) -> Result<Lit, Memory>
    requires { is_linear (record { terms = terms.now; constant = constant }) ≡ true }
    ensures { IfOk result (λ lit. lit ≡ Eq (record { terms = terms.now; constant = constant })) }
{
    match Lin::new(Vec::from_slice(alloc, terms)?, constant) {
        Ok(lin) => Ok(Lit::Eq(lin)),
        Err(LinStop::Order) => unreachable!(),
        Err(LinStop::Wide) => unreachable!(),
    }
}

/// Adds the equations of the later places of each variable with its first.
fn push_equations(alloc: Global, lits: &mut Vec<Lit>, args: &[u32]) -> Result<(), Memory>
    requires { length args.now ≤ most_arguments }
    ensures { OnOk result (lits.new.items ≡ lits.old.items ++ equations_from args.now 0 args.now) }
{
    for (place, arg) in args.iter().enumerate() {
        let first = first_place(args, *arg);
        let here = place as u32;
        if first < here {
            lits.push(equal(alloc, &[(first, 1), (here, -1)], 0)?)?;
        }
    }
    Ok(())
}

/// A literal of a cube over variables, over the first places of the variables; none where a number
/// has no room, and then it is wide.
fn in_places(alloc: Global, lit: &Lit, args: &[u32], names: &[u32]) -> Result<Option<Lit>, Memory>
    requires { (v : ℕ) → name_in names.now v ≡ first_place args.now v }
    ensures made { IfOk result (λ found. MatchOption found (list_any is_wide_term (linear_of (lit_in_places args.now lit.now)).terms ≡ true) (λ made. made ≡ lit_in_places args.now lit.now)) }
    ensures apart { IfOk result (λ found. IfNone found (lit_fits (lit_in_places args.now lit.now) ≡ false)) }
{
    let _args = args;
    has_room(lit);
    match lit_at(alloc, lit, names) {
        Ok(lit) => Ok(Some(lit)),
        Err(WideStop::Wide) => Ok(None),
        Err(WideStop::Memory) => Err(Memory),
    }
}

/// The literals of a cube over variables, over the first places of the variables; none where a
/// number has no room, and then the cube is wide.
fn all_in_places(
    alloc: Global,
    cube: &[Lit],
    args: &[u32],
    names: &[u32],
) -> Result<Option<Vec<Lit>>, Memory>
    requires { (v : ℕ) → name_in names.now v ≡ first_place args.now v }
    ensures made { IfOk result (λ found. MatchOption found (is_wide (map (lit_in_places args.now) cube.now) ≡ true) (λ lits. lits.items ≡ map (lit_in_places args.now) cube.now)) }
    ensures apart { IfOk result (λ found. IfNone found (list_all lit_fits (map (lit_in_places args.now) cube.now) ≡ false)) }
{
    let mut lits = Vec::with_capacity(alloc, cube.len())?;
    for lit in cube {
        match in_places(alloc, lit, args, names)? {
            Some(lit) => lits.push(lit)?,
            None => return Ok(None),
        }
    }
    Ok(Some(lits))
}

/// The area's cube over argument places, and the equations of later places; none where a number has
/// no room, and then the cube is wide.
pub fn projected_cube(
    alloc: Global,
    atom: &Atom,
    area: &Projected,
) -> Result<Option<Vec<Lit>>, Memory>
    requires { length atom.now.args ≤ most_arguments }
    ensures made { IfOk result (λ found. MatchOption found (is_wide (projected_cube atom.now area.now) ≡ true) (λ lits. lits.items ≡ projected_cube atom.now area.now)) }
    ensures apart { IfOk result (λ found. IfNone found (list_all lit_fits (projected_cube atom.now area.now) ≡ false)) }
{
    let args = atom.args.as_slice();
    let names = first_places(alloc, args)?;
    match all_in_places(alloc, area.cube(), args, names.as_slice())? {
        Some(lits) => {
            let mut lits = lits;
            push_equations(alloc, &mut lits, args)?;
            Ok(Some(lits))
        }
        None => Ok(None),
    }
}

/// The tuple, as an equation for each place.
pub fn point_cube(alloc: Global, tuple: &[i64]) -> Result<Vec<Lit>, Memory>
    requires { length tuple.now ≤ most_arguments }
    ensures { IfOk result (λ lits. lits.items ≡ point_cube tuple.now) }
{
    let mut lits = Vec::with_capacity(alloc, tuple.len())?;
    for (place, value) in tuple.iter().enumerate() {
        lits.push(equal(alloc, &[(place as u32, 1)], -i128::from(*value))?)?;
    }
    Ok(lits)
}

/// Whether a coefficient is 2^54 or more in magnitude.
fn is_wide_lin(lin: &Lin) -> bool
    ensures { result ≡ list_any is_wide_term lin.now.terms }
{
    for term in lin.terms() {
        if term.1.unsigned_abs() >= 1 << 54 {
            return true;
        }
    }
    false
}

fn is_wide_lit(lit: &Lit) -> bool
    ensures { result ≡ list_any is_wide_term (linear_of lit.now).terms }
{
    match lit {
        Lit::Le(lin) => is_wide_lin(lin),
        Lit::Eq(lin) => is_wide_lin(lin),
        Lit::Div(_, lin) => is_wide_lin(lin),
        Lit::NDiv(_, lin) => is_wide_lin(lin),
    }
}

/// Whether one of the literals has such a coefficient.
pub fn is_wide(lits: &[Lit]) -> bool
    ensures { result ≡ is_wide lits.now }
{
    for lit in lits {
        if is_wide_lit(lit) {
            return true;
        }
    }
    false
}
