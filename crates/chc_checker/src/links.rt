//! Links: a variable that is 1 exactly where another one is, or exactly where it isn't.

ghost use Rattle.std.specs.Prelude.{◌≡◌, ◌∷◌, [], List, Bool, IfSome, IfOk, true, false};
ghost use Rattle.lin_atoms.specs.declared.form.Form.TheViews.{And, Or};
ghost use Rattle.lin_atoms.specs.declared.form.Form.TheVariants.{Lit as Literal};
ghost use Rattle.lin_atoms.specs.declared.lit.Lit.TheVariants.{Eq, Le};
ghost use Rattle.chc_checker.specs.machinery.Links.{AreValues, IsLink, IsLinkForm, IsValue, link_form, partner};

use crate::bounds::{is_marked, variable_of};
use base::{Items, Memory};
use lin_atoms::{Form, Lin, Lit};
use std::alloc::Global;

/// The value of a variable that a bound leaves alone.
fn bound_value(lin: &Lin, low: &[bool], high: &[bool]) -> Option<(u32, bool)>
    ensures { IfSome result (λ r. IsValue low.now high.now (Literal (Le lin.now)) r.0 r.1) }
{
    if let Some(v) = variable_of(lin, -1, 1) {
        if is_marked(high, v) {
            return Some((v, true));
        }
    }
    if let Some(v) = variable_of(lin, 1, 0) {
        if is_marked(low, v) {
            return Some((v, false));
        }
    }
    None
}

/// The value of a variable by an equation.
#[tactic(auto, using(crate::proofs::LinkLemmas::equations))]
fn equal_value(lin: &Lin) -> Option<(u32, bool)>
    ensures { (low high : List Bool) → IfSome result (λ r. IsValue low high (Literal (Eq lin.now)) r.0 r.1) }
{
    if let Some(v) = variable_of(lin, 1, -1) {
        return Some((v, true));
    }
    if let Some(v) = variable_of(lin, 1, 0) {
        return Some((v, false));
    }
    None
}

fn literal_value(lit: &Lit, low: &[bool], high: &[bool]) -> Option<(u32, bool)>
    ensures { IfSome result (λ r. IsValue low.now high.now (Literal lit.now) r.0 r.1) }
{
    match lit {
        Lit::Le(lin) => bound_value(lin, low, high),
        Lit::Eq(lin) => equal_value(lin),
        _ => None,
    }
}

/// Of a literal that is true at one value of one variable, as far as the marks go: the variable, and
/// whether the value is 1 and not 0.
fn value_of(form: &Form, low: &[bool], high: &[bool]) -> Option<(u32, bool)>
    ensures { IfSome result (λ r. IsValue low.now high.now form.now r.0 r.1) }
{
    match form {
        Form::Lit(lit) => literal_value(lit, low, high),
        _ => None,
    }
}

#[tactic(auto, using(crate::proofs::LinkLemmas::two_values))]
fn values_in(parts: &[Form], low: &[bool], high: &[bool]) -> Option<((u32, bool), (u32, bool))>
    ensures { IfSome result (λ r. AreValues low.now high.now (And parts.now) r.0.0 r.0.1 r.1.0 r.1.1) }
{
    let [first, second] = parts else {
        return None;
    };
    let one = value_of(first, low, high)?;
    let other = value_of(second, low, high)?;
    Some((one, other))
}

/// Of two such literals together.
fn values_of(form: &Form, low: &[bool], high: &[bool]) -> Option<((u32, bool), (u32, bool))>
    ensures { IfSome result (λ r. AreValues low.now high.now form.now r.0.0 r.0.1 r.1.0 r.1.1) }
{
    match form {
        Form::And(parts) => values_in(parts.as_slice(), low, high),
        _ => None,
    }
}

/// The second value, or the other one of 0 and 1; whether two values are the same.
fn partner(same: bool, value: bool) -> bool
    ensures { result ≡ partner same value }
{
    if same { value } else { !value }
}

/// Whether it is the same variable with the other value.
fn is_turned(one: (u32, bool), other: (u32, bool)) -> bool
    ensures { result ≡ true → (one.0 ≡ other.0) × (partner one.1 other.1 ≡ false) }
{
    if one.0 != other.0 {
        return false;
    }
    if partner(one.1, other.1) {
        return false;
    }
    true
}

/// The two variables that a disjunction of these parts links, and whether they have the same value.
pub(crate) fn link_of(parts: &[Form], low: &[bool], high: &[bool]) -> Option<(u32, u32, bool)>
    ensures { IfSome result (λ l. IsLink low.now high.now (Or parts.now) l.0 l.1 l.2) }
{
    let [first, second] = parts else {
        return None;
    };
    let (u, v) = values_of(first, low, high)?;
    let (x, y) = values_of(second, low, high)?;
    if !is_turned(u, x) {
        return None;
    }
    if !is_turned(v, y) {
        return None;
    }
    Some((u.0, v.0, partner(u.1, v.1)))
}

/// A form of one variable, unless a number has no room.
fn single(alloc: Global, v: u32, coefficient: i64, constant: i128) -> Result<Option<Lin>, Memory>
    ensures { IfOk result (λ made. IfSome made (λ lin. lin ≡ record { terms = (v, coefficient) ∷ []; constant = constant })) }
{
    let terms = Vec::from_array(alloc, [(v, coefficient)])?;
    Ok(Lin::new(terms, constant).ok())
}

/// What links the variables, unless they don't rise.
fn link_form(alloc: Global, u: u32, v: u32, same: bool) -> Result<Option<Lin>, Memory>
    ensures { IfOk result (λ made. IfSome made (λ lin. lin ≡ link_form u v same)) }
{
    if same {
        let terms = Vec::from_array(alloc, [(u, 1), (v, -1)])?;
        return Ok(Lin::new(terms, 0).ok());
    }
    let terms = Vec::from_array(alloc, [(u, 1), (v, 1)])?;
    Ok(Lin::new(terms, -1).ok())
}

fn three(alloc: Global, equal: Lin, least: Lin, most: Lin) -> Result<Form, Memory>
    ensures { IfOk result (λ form. form ≡ And (Literal (Eq equal) ∷ Literal (Le least) ∷ Literal (Le most) ∷ [])) }
{
    let mut parts = Items::new(alloc);
    parts.push(Form::Lit(Lit::Eq(equal)))?;
    parts.push(Form::Lit(Lit::Le(least)))?;
    parts.push(Form::Lit(Lit::Le(most)))?;
    Ok(Form::And(parts))
}

/// The literals of a link whose variables rise: the equation, and the bounds of the first one.
#[tactic(auto, using(crate::proofs::LinkLemmas::three_literals))]
fn rising_link(alloc: Global, u: u32, v: u32, same: bool) -> Result<Option<Form>, Memory>
    ensures { IfOk result (λ made. IfSome made (IsLinkForm u v same)) }
{
    let Some(equal) = link_form(alloc, u, v, same)? else {
        return Ok(None);
    };
    let Some(least) = single(alloc, u, -1, 0)? else {
        return Ok(None);
    };
    let Some(most) = single(alloc, u, 1, -1)? else {
        return Ok(None);
    };
    let form = three(alloc, equal, least, most)?;
    Ok(Some(form))
}

/// The literals of a link, unless a variable is linked with itself.
pub(crate) fn link_literals(
    alloc: Global,
    u: u32,
    v: u32,
    same: bool,
) -> Result<Option<Form>, Memory>
    ensures { IfOk result (λ made. IfSome made (IsLinkForm u v same)) }
{
    if u < v {
        rising_link(alloc, u, v, same)
    } else {
        rising_link(alloc, v, u, same)
    }
}
