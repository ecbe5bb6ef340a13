ghost use Rattle.std.specs.Prelude.{◌≡◌, ◌++◌, ◌∷◌, [], OnOk, pos};
ghost use Rattle.std.specs.List.{flat_map};
ghost use Rattle.refutation_trees.specs.Flatten.{disjunctions, literals};
ghost use Rattle.farkas_proof.specs.machinery.Walk.{opened};
ghost use Rattle.lin_atoms.specs.Linear.{of_constant};
ghost use Rattle.lin_atoms.specs.declared.lit.Lit.TheVariants.{Le};

use base::{Copied, Items, Memory};
use lin_atoms::{Form, Lin, Lit};
use std::alloc::Global;

/// Puts copies of the literals of a form after the others.
#[cycle(literals)]
pub(crate) fn push_literals(alloc: Global, form: &Form, lits: &mut Vec<Lit>) -> Result<(), Memory>
    ensures { OnOk result (lits.new.items ≡ lits.old.items ++ literals form.now) }
{
    match form {
        Form::True => Ok(()),
        Form::False => push_false(alloc, lits),
        Form::Lit(lit) => {
            lits.push(lit.copy(alloc)?)?;
            Ok(())
        }
        Form::And(parts) => push_all_literals(alloc, parts.as_slice(), lits),
        Form::Or(_) => Ok(()),
    }
}

#[cycle(literals)]
fn push_all_literals(alloc: Global, parts: &[Form], lits: &mut Vec<Lit>) -> Result<(), Memory>
    ensures { OnOk result (lits.new.items ≡ lits.old.items ++ flat_map literals parts.now) }
{
    for part in parts {
        push_literals(alloc, part, lits)?;
    }
    Ok(())
}

/// `False` is the literal `1 <= 0`.
fn push_false(alloc: Global, lits: &mut Vec<Lit>) -> Result<(), Memory>
    ensures { OnOk result (lits.new.items ≡ lits.old.items ++ Le (of_constant (pos 1)) ∷ []) }
{
    lits.push(Lit::Le(Lin::of_constant(alloc, 1)))?;
    Ok(())
}

/// Puts the open disjunctions of a form after the others.
#[cycle(disjunctions)]
pub(crate) fn push_disjunctions<'a>(
    form: &'a Form,
    cases: &mut Vec<&'a Items<Form>>,
) -> Result<(), Memory>
    ensures { OnOk result (opened cases.new.items ≡ opened cases.old.items ++ disjunctions form.now) }
{
    match form {
        Form::And(parts) => push_all_disjunctions(parts.as_slice(), cases),
        Form::Or(parts) => {
            cases.push(parts)?;
            Ok(())
        }
        _ => Ok(()),
    }
}

#[cycle(disjunctions)]
fn push_all_disjunctions<'a>(
    parts: &'a [Form],
    cases: &mut Vec<&'a Items<Form>>,
) -> Result<(), Memory>
    ensures { OnOk result (opened cases.new.items ≡ opened cases.old.items ++ flat_map disjunctions parts.now) }
{
    for part in parts {
        push_disjunctions(part, cases)?;
    }
    Ok(())
}
