//! Literals, and conjunctions and disjunctions of a few parts.

ghost use Rattle.std.specs.Prelude.{◌≡◌, [], ◌∷◌, IfOk, IsTrue, if◌then◌else◌};
ghost use Rattle.lin_atoms.specs.declared.form.Form.TheVariants.{True, False};
ghost use Rattle.lin_atoms.specs.declared.form.Form.TheViews.{And, Or};
ghost use Rattle.lin_atoms.specs.Linear.{is_short};
ghost use Rattle.linear_terms.specs.Linear.{is_narrow};
ghost use Rattle.linear_terms.specs.Formula.{eq, equal, is_one, joined, le, odd, complement_of, one_more};

use base::{Items, Memory};
use lin_atoms::{Divisor, Form, Lin, Lit};
use std::alloc::Global;

pub(crate) fn le(lin: Lin) -> Form
    ensures { result ≡ le lin }
{
    Form::Lit(Lit::Le(lin))
}

pub(crate) fn eq(lin: Lin) -> Form
    ensures { result ≡ eq lin }
{
    Form::Lit(Lit::Eq(lin))
}

/// True, or false.
pub(crate) fn truth(sign: bool) -> Form
    ensures { result ≡ (if sign then True else False) }
{
    if sign { Form::True } else { Form::False }
}

/// The constant of a narrow form is short, for a proof that needs it.
pub(crate) fn narrow_constant(lin: &Lin)
    requires { IsTrue (is_narrow lin.now) }
    ensures { IsTrue (is_short lin.now.constant) }
{
    let _ = lin;
}

/// The form and 1. A narrow form has room for it.
pub(crate) fn one_more(lin: Lin) -> Lin
    requires { IsTrue (is_narrow lin) }
    ensures { result ≡ one_more lin }
{
    narrow_constant(&lin);
    let _constant = lin.constant();
    lin.plus(1).unwrap()
}

/// 1 less the form.
pub(crate) fn one_minus(alloc: Global, lin: &Lin) -> Result<Lin, Memory>
    requires { IsTrue (is_narrow lin.now) }
    ensures { IfOk result (λ made. made ≡ complement_of lin.now) }
{
    narrow_constant(lin);
    let turned = lin.negated(alloc)?;
    let _constant = turned.constant();
    Ok(turned.plus(1).unwrap())
}

fn two(alloc: Global, a: Form, b: Form) -> Result<Items<Form>, Memory>
    ensures { IfOk result (λ parts. parts ≡ a ∷ b ∷ []) }
{
    Ok(Items::from_vec(Vec::from_array(alloc, [a, b])?))
}

pub(crate) fn both(alloc: Global, a: Form, b: Form) -> Result<Form, Memory>
    ensures { IfOk result (λ form. form ≡ And (a ∷ b ∷ [])) }
{
    Ok(Form::And(two(alloc, a, b)?))
}

pub(crate) fn either(alloc: Global, a: Form, b: Form) -> Result<Form, Memory>
    ensures { IfOk result (λ form. form ≡ Or (a ∷ b ∷ [])) }
{
    Ok(Form::Or(two(alloc, a, b)?))
}

pub(crate) fn all_three(alloc: Global, a: Form, b: Form, c: Form) -> Result<Form, Memory>
    ensures { IfOk result (λ form. form ≡ And (a ∷ b ∷ c ∷ [])) }
{
    let parts = Items::from_vec(Vec::from_array(alloc, [a, b, c])?);
    Ok(Form::And(parts))
}

/// All of the parts, or one of them. A conjunction or a disjunction of one part is that part.
pub fn joined(sign: bool, mut parts: Items<Form>) -> Form
    ensures { result ≡ joined sign parts }
{
    if parts.len() != 1 {
        return if sign {
            Form::And(parts)
        } else {
            Form::Or(parts)
        };
    }
    match parts.pop() {
        Some(part) => part,
        None => unreachable!(),
    }
}

/// A bit is 1, or 0.
pub(crate) fn is_one(alloc: Global, sign: bool, bit: Lin) -> Result<Form, Memory>
    requires { IsTrue (is_narrow bit) }
    ensures { IfOk result (λ form. form ≡ is_one sign bit) }
{
    if sign {
        Ok(le(one_minus(alloc, &bit)?))
    } else {
        Ok(le(bit))
    }
}

/// A difference is 0, or isn't.
pub(crate) fn equal(alloc: Global, sign: bool, d: Lin) -> Result<Form, Memory>
    requires { IsTrue (is_narrow d) }
    ensures { IfOk result (λ form. form ≡ equal sign d) }
{
    if sign {
        return Ok(eq(d));
    }
    let above = one_minus(alloc, &d)?;
    either(alloc, le(one_more(d)), le(above))
}

fn by_two() -> Divisor
    ensures { result ≡ 2 }
{
    Divisor::new(2).unwrap()
}

/// A sum of bits is odd, or even.
pub(crate) fn odd(sign: bool, sum: Lin) -> Form
    ensures { result ≡ odd sign sum }
{
    if sign {
        Form::Lit(Lit::NDiv(by_two(), sum))
    } else {
        Form::Lit(Lit::Div(by_two(), sum))
    }
}
