//! What determines an auxiliary variable, by the kind of its term and the linear forms of its parts.

ghost use Rattle.std.specs.Prelude.{◌≡◌, ◌<◌, ◌-ℤ◌, [], ◌∷◌, pos, negsuc, nat_abs, IfOk, IsTrue};
ghost use Rattle.lin_atoms.specs.declared.form.Form.TheViews.{And, Or};
ghost use Rattle.lin_atoms.specs.Algebra.{added, negated, plus, scaled};
ghost use Rattle.lin_atoms.specs.Linear.{is_short};
ghost use Rattle.linear_terms.specs.Linear.{is_narrow, less, variable_form};
ghost use Rattle.linear_terms.specs.Formula.{eq, le, complement_of, one_more};
ghost use Rattle.linear_terms.specs.Place.{abs_place, quotient_place, remainder_place, truth_place};
ghost use Rattle.term_formulas.specs.machinery.Parts.{IsApart};

use crate::literals::{all_three, both, either, eq, le, narrow_constant, one_minus, one_more};
use crate::relations::narrow_less;
use base::Memory;
use lin_atoms::{Divisor, Form, Lin, Lit, WideStop};
use std::alloc::Global;
use term_forms::variable_form;

/// A number of 64 bits added to a form that has room for it.
fn moved(lin: Lin, k: i64) -> Lin
    requires { IsTrue (is_narrow lin) }
    ensures { result ≡ plus lin k }
{
    narrow_constant(&lin);
    let _constant = lin.constant();
    lin.plus(k).unwrap()
}

fn turned_term(alloc: Global, v: u32) -> Result<Vec<(u32, i64)>, Memory>
    ensures { IfOk result (λ terms. terms.items ≡ (v, negsuc 0) ∷ []) }
{
    let terms = Vec::from_array(alloc, [(v, -1)])?;
    Ok(terms)
}

/// A constant less the variable.
pub(crate) fn constant_less(alloc: Global, v: u32, constant: i64) -> Result<Lin, Memory>
    ensures { IfOk result (λ lin. lin ≡ record { terms = (v, negsuc 0) ∷ []; constant = constant }) }
{
    let terms = turned_term(alloc, v)?;
    match Lin::new(terms, i128::from(constant)) {
        Ok(lin) => Ok(lin),
        Err(_) => unreachable!(),
    }
}

fn not_negative(alloc: Global, v: u32) -> Result<Form, Memory>
    ensures { IfOk result (λ form. form ≡ le (negated (variable_form v))) }
{
    Ok(le(constant_less(alloc, v, 0)?))
}

fn at_most_one(alloc: Global, v: u32) -> Result<Form, Memory>
    ensures { IfOk result (λ form. form ≡ le (plus (variable_form v) (negsuc 0))) }
{
    Ok(le(moved(variable_form(alloc, v)?, -1)))
}

fn where_true(alloc: Global, v: u32, holds: Form) -> Result<Form, Memory>
    ensures { IfOk result (λ form. form ≡ And (le (complement_of (variable_form v)) ∷ holds ∷ [])) }
{
    both(alloc, le(constant_less(alloc, v, 1)?), holds)
}

fn where_false(alloc: Global, v: u32, fails: Form) -> Result<Form, Memory>
    ensures { IfOk result (λ form. form ≡ And (le (variable_form v) ∷ fails ∷ [])) }
{
    both(alloc, le(variable_form(alloc, v)?), fails)
}

/// 1 where the term is true, 0 where it is false.
pub(crate) fn truth_place(alloc: Global, v: u32, holds: Form, fails: Form) -> Result<Form, Memory>
    ensures { IfOk result (λ form. form ≡ truth_place (variable_form v) holds fails) }
{
    let yes = where_true(alloc, v, holds)?;
    let no = where_false(alloc, v, fails)?;
    let cases = either(alloc, yes, no)?;
    all_three(
        alloc,
        not_negative(alloc, v)?,
        at_most_one(alloc, v)?,
        cases,
    )
}

/// The variable less a form that it isn't in.
pub(crate) fn variable_less(alloc: Global, v: u32, lin: &Lin) -> Result<Lin, Memory>
    requires { IsApart v lin.now }
    ensures { IfOk result (λ d. d ≡ less (variable_form v) lin.now) }
{
    let _constant = lin.constant();
    narrow_less(alloc, &variable_form(alloc, v)?, lin)
}

/// The variable and a form that it isn't in.
fn variable_added(alloc: Global, v: u32, lin: &Lin) -> Result<Lin, Memory>
    requires { IsApart v lin.now }
    ensures { IfOk result (λ sum. sum ≡ added (variable_form v) lin.now) }
{
    let _constant = lin.constant();
    match variable_form(alloc, v)?.added(alloc, lin) {
        Ok(sum) => Ok(sum),
        Err(WideStop::Memory) => Err(Memory),
        Err(WideStop::Wide) => unreachable!(),
    }
}

/// A form less a variable that isn't in it.
fn less_variable(alloc: Global, lin: &Lin, v: u32) -> Result<Lin, Memory>
    requires { IsApart v lin.now }
    ensures { IfOk result (λ d. d ≡ less lin.now (variable_form v)) }
{
    let _constant = lin.constant();
    narrow_less(alloc, lin, &variable_form(alloc, v)?)
}

/// The number times a variable.
fn multiple(alloc: Global, n: i64, v: u32) -> Result<Lin, Memory>
    requires { IsTrue (is_short n) }
    ensures { IfOk result (λ lin. lin ≡ scaled n (variable_form v)) }
{
    match variable_form(alloc, v)?.scaled(alloc, n) {
        Ok(lin) => Ok(lin),
        Err(WideStop::Memory) => Err(Memory),
        Err(WideStop::Wide) => unreachable!(),
    }
}

fn where_one(alloc: Global, bit: &Lin, chosen: Lin) -> Result<Form, Memory>
    requires { IsTrue (is_narrow bit.now) }
    ensures { IfOk result (λ form. form ≡ And (le (complement_of bit.now) ∷ eq chosen ∷ [])) }
{
    both(alloc, le(one_minus(alloc, bit)?), eq(chosen))
}

fn where_none(alloc: Global, bit: Lin, other: Lin) -> Result<Form, Memory>
    ensures { IfOk result (λ form. form ≡ And (le bit ∷ eq other ∷ [])) }
{
    both(alloc, le(bit), eq(other))
}

/// The one difference is 0 where the bit is 1, the other where it is 0.
pub(crate) fn choice_place(alloc: Global, bit: Lin, chosen: Lin, other: Lin) -> Result<Form, Memory>
    requires { IsTrue (is_narrow bit) }
    ensures { IfOk result (λ form. form ≡ Or (And (le (complement_of bit) ∷ eq chosen ∷ []) ∷ And (le bit ∷ eq other ∷ []) ∷ [])) }
{
    let one = where_one(alloc, &bit, chosen)?;
    let none = where_none(alloc, bit, other)?;
    either(alloc, one, none)
}

fn where_natural(alloc: Global, v: u32, lin: &Lin) -> Result<Form, Memory>
    requires { IsApart v lin.now }
    ensures { IfOk result (λ form. form ≡ And (le (negated lin.now) ∷ eq (less (variable_form v) lin.now) ∷ [])) }
{
    let same = eq(variable_less(alloc, v, lin)?);
    both(alloc, le(lin.negated(alloc)?), same)
}

fn where_negative(alloc: Global, v: u32, lin: Lin) -> Result<Form, Memory>
    requires { IsApart v lin }
    ensures { IfOk result (λ form. form ≡ And (le (one_more lin) ∷ eq (added (variable_form v) lin) ∷ [])) }
{
    let turned = eq(variable_added(alloc, v, &lin)?);
    both(alloc, le(one_more(lin)), turned)
}

/// The form where it is 0 or more, and its negation where it is less.
pub(crate) fn abs_place(alloc: Global, v: u32, lin: Lin) -> Result<Form, Memory>
    requires { IsApart v lin }
    ensures { IfOk result (λ form. form ≡ abs_place (variable_form v) lin) }
{
    let above = where_natural(alloc, v, &lin)?;
    let below = where_negative(alloc, v, lin)?;
    either(alloc, above, below)
}

/// 1 less the magnitude of a number.
fn one_less(n: i64) -> i64
    requires { IsTrue (is_short n) }
    ensures { result ≡ pos 1 -ℤ pos (nat_abs n) }
{
    if n < 0 { 1 + n } else { 1 - n }
}

/// The number times the variable less a form that the variable isn't in.
fn multiple_less(alloc: Global, n: i64, v: u32, lin: &Lin) -> Result<Lin, Memory>
    requires apart { IsApart v lin.now }
    requires short { IsTrue (is_short n) }
    ensures { IfOk result (λ d. d ≡ less (scaled n (variable_form v)) lin.now) }
{
    let _constant = lin.constant();
    narrow_less(alloc, &multiple(alloc, n, v)?, lin)
}

/// The form less the number times the variable, and 1 less the number's magnitude.
fn rest(alloc: Global, n: i64, v: u32, lin: &Lin) -> Result<Lin, Memory>
    requires apart { IsApart v lin.now }
    requires short { IsTrue (is_short n) }
    ensures { IfOk result (λ d. d ≡ plus (less lin.now (scaled n (variable_form v))) (pos 1 -ℤ pos (nat_abs n))) }
{
    let _constant = lin.constant();
    let less = narrow_less(alloc, lin, &multiple(alloc, n, v)?)?;
    Ok(moved(less, one_less(n)))
}

/// The quotient of the form by the number.
pub(crate) fn quotient_place(alloc: Global, v: u32, lin: &Lin, n: i64) -> Result<Form, Memory>
    requires apart { IsApart v lin.now }
    requires short { IsTrue (is_short n) }
    ensures { IfOk result (λ form. form ≡ quotient_place (variable_form v) lin.now n) }
{
    let most = le(multiple_less(alloc, n, v, lin)?);
    let least = le(rest(alloc, n, v, lin)?);
    both(alloc, most, least)
}

fn magnitude(n: i64) -> Divisor
    requires short { IsTrue (is_short n) }
    requires some { 0 < nat_abs n }
    ensures { result ≡ nat_abs n }
{
    let size = if n < 0 { -n } else { n };
    match Divisor::new(size) {
        Some(divisor) => divisor,
        None => unreachable!(),
    }
}

/// The remainder of the form by the number.
pub(crate) fn remainder_place(alloc: Global, v: u32, lin: &Lin, n: i64) -> Result<Form, Memory>
    requires apart { IsApart v lin.now }
    requires short { IsTrue (is_short n) }
    requires some { 0 < nat_abs n }
    ensures { IfOk result (λ form. form ≡ remainder_place (variable_form v) lin.now n) }
{
    let rest = Form::Lit(Lit::Div(magnitude(n), less_variable(alloc, lin, v)?));
    let high = le(moved(variable_form(alloc, v)?, one_less(n)));
    all_three(alloc, not_negative(alloc, v)?, high, rest)
}
