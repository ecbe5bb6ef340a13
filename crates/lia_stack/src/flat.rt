//! The flattened form, whose literals and disjunctions are lent by it.

ghost use Rattle.std.specs.Prelude.{◌≡◌, ◌++◌, IfOk, OnOk, pos};
ghost use Rattle.std.specs.List.{flat_map};
ghost use Rattle.refutation_trees.specs.Flatten.{disjunctions, literals};
ghost use Rattle.lin_atoms.specs.Linear.{of_constant};
ghost use Rattle.lin_atoms.specs.declared.lit.Lit.TheVariants.{Le};

use crate::lent::Lent;
use base::{Items, Memory};
use lin_atoms::{Form, Lin, Lit};
use std::alloc::Global;

/// `False` is the literal `1 <= 0`.
pub fn falsehood(alloc: Global) -> Lit
    ensures { result ≡ Le (of_constant (pos 1)) }
{
    Lit::Le(Lin::of_constant(alloc, 1))
}

/// Puts the literals of a form after the others.
#[cycle(literals)]
fn push_literals<'a>(
    form: &'a Form,
    falsehood: &'a Lit,
    lits: &mut Vec<Lent<'a, Lit>>,
) -> Result<(), Memory>
    requires { falsehood.now ≡ Le (of_constant (pos 1)) }
    ensures { OnOk result (lits.new.items ≡ lits.old.items ++ literals form.now) }
{
    match form {
        Form::True => Ok(()),
        Form::False => {
            lits.push(Lent::new(falsehood))?;
            Ok(())
        }
        Form::Lit(lit) => {
            lits.push(Lent::new(lit))?;
            Ok(())
        }
        Form::And(parts) => push_all_literals(parts.as_slice(), falsehood, lits),
        Form::Or(_) => Ok(()),
    }
}

#[cycle(literals)]
fn push_all_literals<'a>(
    parts: &'a [Form],
    falsehood: &'a Lit,
    lits: &mut Vec<Lent<'a, Lit>>,
) -> Result<(), Memory>
    requires { falsehood.now ≡ Le (of_constant (pos 1)) }
    ensures { OnOk result (lits.new.items ≡ lits.old.items ++ flat_map literals parts.now) }
{
    for part in parts {
        push_literals(part, falsehood, lits)?;
    }
    Ok(())
}

/// The literals of the flattened form; `False` is lent by `falsehood`.
pub(crate) fn lent_literals<'a>(
    alloc: Global,
    form: &'a Form,
    falsehood: &'a Lit,
) -> Result<Vec<Lent<'a, Lit>>, Memory>
    requires { falsehood.now ≡ Le (of_constant (pos 1)) }
    ensures { IfOk result (λ lits. lits.items ≡ literals form.now) }
{
    let mut lits = Vec::new(alloc);
    push_literals(form, falsehood, &mut lits)?;
    Ok(lits)
}

/// Puts the open disjunctions of a form after the others.
#[cycle(disjunctions)]
pub(crate) fn push_disjunctions<'a>(
    form: &'a Form,
    cases: &mut Vec<Lent<'a, Items<Form>>>,
) -> Result<(), Memory>
    ensures { OnOk result (cases.new.items ≡ cases.old.items ++ disjunctions form.now) }
{
    match form {
        Form::And(parts) => push_all_disjunctions(parts.as_slice(), cases),
        Form::Or(parts) => {
            cases.push(Lent::new(parts))?;
            Ok(())
        }
        _ => Ok(()),
    }
}

#[cycle(disjunctions)]
fn push_all_disjunctions<'a>(
    parts: &'a [Form],
    cases: &mut Vec<Lent<'a, Items<Form>>>,
) -> Result<(), Memory>
    ensures { OnOk result (cases.new.items ≡ cases.old.items ++ flat_map disjunctions parts.now) }
{
    for part in parts {
        push_disjunctions(part, cases)?;
    }
    Ok(())
}

/// The open disjunctions of the flattened form.
pub(crate) fn lent_disjunctions<'a>(
    alloc: Global,
    form: &'a Form,
) -> Result<Items<Lent<'a, Items<Form>>>, Memory>
    ensures { IfOk result (λ cases. cases ≡ disjunctions form.now) }
{
    let mut cases = Vec::new(alloc);
    push_disjunctions(form, &mut cases)?;
    Ok(Items::from_vec(cases))
}
