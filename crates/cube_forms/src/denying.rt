ghost use Rattle.std.specs.Prelude.{◌≡◌, ◌++◌, [], ◌∷◌, pos, map, true, false, IsTrue, IfOk, OnOk, IsErrOf};
ghost use Rattle.base.specs.Widths.{is_short};
ghost use Rattle.cube_forms.specs.Cubes.{cube_is_short, denials, has_room, lit_at, or_of};
ghost use Rattle.lin_atoms.specs.Algebra.{negated, plus};
ghost use Rattle.lin_atoms.specs.Denial.{denial, linear_of};
ghost use Rattle.lin_atoms.specs.declared.form.Form.TheVariants.{Lit as Literal};

use crate::placed::lit_at;
use base::{Items, Memory};
use lin_atoms::{Form, Lin, Lit, WideStop};
use std::alloc::Global;

/// 1 less the form.
fn one_less(alloc: Global, lin: &Lin) -> Result<Lin, Memory>
    requires { IsTrue (is_short lin.now.constant) }
    ensures { IfOk result (λ made. made ≡ plus (negated lin.now) (pos 1)) }
{
    let turned = lin.negated(alloc)?;
    let _constant = turned.constant();
    Ok(turned.plus(1).unwrap())
}

/// 1 more than the form.
fn one_more(lin: Lin) -> Lin
    requires { IsTrue (is_short lin.constant) }
    ensures { result ≡ plus lin (pos 1) }
{
    let _constant = lin.constant();
    lin.plus(1).unwrap()
}

fn push(parts: &mut Vec<Form>, lit: Lit) -> Result<(), Memory>
    ensures { OnOk result (parts.new.items ≡ parts.old.items ++ Literal lit ∷ []) }
{
    parts.push(Form::Lit(lit))?;
    Ok(())
}

/// Adds the one or two parts that are true exactly where the literal is false.
fn push_denial(alloc: Global, parts: &mut Vec<Form>, lit: Lit) -> Result<(), Memory>
    requires { IsTrue (is_short (linear_of lit).constant) }
    ensures { OnOk result (parts.new.items ≡ parts.old.items ++ map Literal (denial lit)) }
{
    match &lit {
        Lit::Le(lin) => {
            let above = one_less(alloc, lin)?;
            push(parts, Lit::Le(above))
        }
        Lit::Eq(lin) => {
            let above = one_less(alloc, lin)?;
            push(parts, Lit::Le(one_more(lit.into_linear())))?;
            push(parts, Lit::Le(above))
        }
        Lit::Div(d, _) => {
            let d = *d;
            push(parts, Lit::NDiv(d, lit.into_linear()))
        }
        Lit::NDiv(d, _) => {
            let d = *d;
            push(parts, Lit::Div(d, lit.into_linear()))
        }
    }
}

/// The literals at the arguments, denied one after another.
pub(crate) fn denials(alloc: Global, lits: &[Lit], args: &[u32]) -> Result<Vec<Form>, WideStop>
    requires { IsTrue (cube_is_short lits.now) }
    ensures made { IfOk result (λ parts. parts.items ≡ map Literal (denials args.now lits.now)) }
    ensures within { OnOk result (has_room args.now lits.now ≡ true) }
    ensures wide { IsErrOf result WideStop.Wide → has_room args.now lits.now ≡ false }
{
    let mut parts = Vec::with_capacity(alloc, lits.len()).map_err(Memory::from)?;
    for lit in lits {
        let placed = lit_at(alloc, lit, args)?;
        push_denial(alloc, &mut parts, placed)?;
    }
    Ok(parts)
}

/// The disjunction of the parts, where one of a single part is that part.
pub(crate) fn or_of(mut parts: Vec<Form>) -> Form
    ensures { result ≡ or_of parts.items }
{
    if parts.len() > 1 {
        return Form::Or(Items::from_vec(parts));
    }
    match parts.pop() {
        Some(part) => part,
        None => Form::False,
    }
}
