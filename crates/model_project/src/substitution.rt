//! The substitution in a list of literals. A literal without the variable is looked at and left
//! as it is.

ghost use Rattle.std.specs.Prelude.{◌≡◌, ◌<◌, ◌<ℤ◌, ◌∷◌, List, length, pos, slice_set, Some, None, true, false, IfOk, IsErrOf, OnOk};
ghost use Rattle.std.specs.List.{filter};
ghost use Rattle.lin_atoms.specs.declared.lit.Lit.{Lit as Literal};
ghost use Rattle.model_project.specs.Elimination.{has_variable, tidied};
ghost use Rattle.model_project.specs.Substitution.{coefficient, occurs, replaced};
ghost use Rattle.model_project.specs.machinery.Steps.{are_narrow, behind, one};

use crate::crossing::crossed_lit;
use crate::equation::left_over;
use crate::reading;
use lin_atoms::{Lin, Lit, WideStop};
use std::alloc::Global;

/// What a literal with the variable becomes, and whether the equation came by then. One that is
/// left out becomes any literal without a variable.
fn next(
    alloc: Global,
    variable: usize,
    equation: &Lin,
    came: bool,
    lit: &Lit,
) -> Result<(Lit, bool), WideStop>
    requires above { pos 0 <ℤ coefficient variable equation.now }
    requires here { occurs variable lit.now ≡ true }
    ensures made { IfOk result (λ r. (rest : List Literal) → tidied (replaced variable equation.now came (lit.now ∷ rest)) ≡ behind (one r.0) (tidied (replaced variable equation.now r.1 rest))) }
    ensures wide { IsErrOf result WideStop.Wide → (rest : List Literal) → tidied (replaced variable equation.now came (lit.now ∷ rest)) ≡ None }
{
    if came {
        let made = crossed_lit(alloc, variable, equation, lit)?;
        return Ok((made, true));
    }
    if reading::is_equation(lit, variable) {
        let made = left_over(alloc, variable, equation)?;
        return Ok((made, true));
    }
    let made = crossed_lit(alloc, variable, equation, lit)?;
    Ok((made, false))
}

/// Writes a literal in place of another.
fn put(lits: &mut [Lit], i: usize, lit: Lit)
    requires { i < length lits.old }
    ensures { lits.new ≡ slice_set lits.old i lit }
{
    lits[i] = lit;
}

/// Substitutes in each literal in place. Those without a variable are left in, to be taken out.
fn substitute_all(
    alloc: Global,
    lits: &mut [Lit],
    variable: usize,
    equation: &Lin,
    came: bool,
) -> Result<(), WideStop>
    requires above { pos 0 <ℤ coefficient variable equation.now }
    requires narrow { are_narrow lits.old ≡ true }
    ensures made { OnOk result (tidied (replaced variable equation.now came lits.old) ≡ Some (filter has_variable lits.new)) }
    ensures wide { IsErrOf result WideStop.Wide → tidied (replaced variable equation.now came lits.old) ≡ None }
{
    let mut came = came;
    for i in 0..lits.len() {
        if !reading::occurs(&lits[i], variable) {
            continue;
        }
        let (made, now) = next(alloc, variable, equation, came, &lits[i])?;
        put(lits, i, made);
        came = now;
    }
    Ok(())
}

/// Takes out the literals without a variable.
fn retain_proper(lits: &mut Vec<Lit>)
    ensures { lits.new.items ≡ filter has_variable lits.old.items }
{
    lits.retain(|lit| reading::has_variable(lit));
}

/// Substitutes in each literal, and takes out those without a variable.
pub(crate) fn substitute(
    alloc: Global,
    lits: &mut Vec<Lit>,
    variable: usize,
    equation: &Lin,
    came: bool,
) -> Result<(), WideStop>
    requires above { pos 0 <ℤ coefficient variable equation.now }
    requires narrow { are_narrow lits.old.items ≡ true }
    ensures made { OnOk result (tidied (replaced variable equation.now came lits.old.items) ≡ Some lits.new.items) }
    ensures wide { IsErrOf result WideStop.Wide → tidied (replaced variable equation.now came lits.old.items) ≡ None }
{
    substitute_all(alloc, lits.as_mut_slice(), variable, equation, came)?;
    retain_proper(lits);
    Ok(())
}
