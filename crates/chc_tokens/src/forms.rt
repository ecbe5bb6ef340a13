ghost use Rattle.std.specs.Prelude.{◌≡◌, ◌++◌, ◌∷◌, [], ◌&&◌, IfOk, OnOk, IsErrOf, map, true, false};
ghost use Rattle.lin_atoms.specs.declared.form.Form.TheVariants.{Lit as Literal};
ghost use Rattle.cube_forms.specs.Cubes.{cube_at, has_room};
ghost use Rattle.chc_tokens.specs.Queries.{base, goal_has_room, query, used_form, used_has_room, used_have_room};
ghost use Rattle.chc_tokens.specs.declared.goal.Goal.TheVariants.{Holds};

use crate::atoms::{args_at, head_args};
use crate::used::Used;
use base::{Copied, Items, Memory};
use clause_form::{Atom, Clause};
use cube_forms::lit_at;
use lin_atoms::{Form, Lit, WideStop};
use std::alloc::Global;

fn push(parts: &mut Vec<Form>, form: Form) -> Result<(), Memory>
    ensures { OnOk result (parts.new.items ≡ parts.old.items ++ form ∷ []) }
{
    parts.push(form)?;
    Ok(())
}

/// Adds the literals at the arguments, one after another.
fn push_all(
    alloc: Global,
    parts: &mut Vec<Form>,
    lits: &[Lit],
    args: &[u32],
) -> Result<(), WideStop>
    ensures made { OnOk result (parts.new.items ≡ parts.old.items ++ map Literal (cube_at args.now lits.now)) }
    ensures within { OnOk result (has_room args.now lits.now ≡ true) }
    ensures wide { IsErrOf result WideStop.Wide → has_room args.now lits.now ≡ false }
{
    for lit in lits {
        let placed = lit_at(alloc, lit, args)?;
        push(parts, Form::Lit(placed))?;
    }
    Ok(())
}

/// A used lemma at its atom's arguments.
fn used_form(alloc: Global, atoms: &[Atom], used: &Used) -> Result<Form, WideStop>
    ensures made { IfOk result (λ form. form ≡ used_form atoms.now used.now) }
    ensures within { OnOk result (used_has_room atoms.now used.now ≡ true) }
    ensures wide { IsErrOf result WideStop.Wide → used_has_room atoms.now used.now ≡ false }
{
    let args = args_at(atoms, used.atom);
    let form = used.lemma.checked_form(alloc, args)?;
    Ok(form)
}

/// Adds the used lemmas at their atoms' arguments, one after another.
pub(crate) fn push_used(
    alloc: Global,
    parts: &mut Vec<Form>,
    atoms: &[Atom],
    used: &[Used],
) -> Result<(), WideStop>
    ensures made { OnOk result (parts.new.items ≡ parts.old.items ++ map (used_form atoms.now) used.now) }
    ensures within { OnOk result (used_have_room atoms.now used.now ≡ true) }
    ensures wide { IsErrOf result WideStop.Wide → used_have_room atoms.now used.now ≡ false }
{
    for one in used {
        let form = used_form(alloc, atoms, one)?;
        push(parts, form)?;
    }
    Ok(())
}

/// The guard, and that the head lies in the cube.
pub(crate) fn base_form(alloc: Global, clause: &Clause, cube: &[Lit]) -> Result<Form, WideStop>
    ensures made { IfOk result (λ form. form ≡ base clause.now (Holds cube.now)) }
    ensures within { OnOk result (goal_has_room clause.now (Holds cube.now) ≡ true) }
    ensures wide { IsErrOf result WideStop.Wide → goal_has_room clause.now (Holds cube.now) ≡ false }
{
    let mut parts = Vec::new(alloc);
    push(&mut parts, clause.guard.copy(alloc)?)?;
    push_all(alloc, &mut parts, cube, head_args(&clause.head))?;
    Ok(Form::And(Items::from_vec(parts)))
}

/// The form of a query: the guard, that the head lies in the cube, and each used lemma at its atom's
/// arguments; `Wide` where one of them has no room.
pub(crate) fn query_form(
    alloc: Global,
    clause: &Clause,
    cube: &[Lit],
    used: &[Used],
) -> Result<Form, WideStop>
    ensures made { IfOk result (λ form. form ≡ query clause.now (Holds cube.now) used.now) }
    ensures within { OnOk result ((goal_has_room clause.now (Holds cube.now) && used_have_room clause.now.atoms used.now) ≡ true) }
    ensures wide { IsErrOf result WideStop.Wide → (goal_has_room clause.now (Holds cube.now) && used_have_room clause.now.atoms used.now) ≡ false }
{
    let mut parts = Vec::new(alloc);
    push(&mut parts, base_form(alloc, clause, cube)?)?;
    push_used(alloc, &mut parts, clause.atoms.as_slice(), used)?;
    Ok(Form::And(Items::from_vec(parts)))
}
