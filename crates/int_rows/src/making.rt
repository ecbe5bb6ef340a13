ghost use Rattle.std.specs.Prelude.{◌≡◌, ◌<◌, ◌<ℤ◌, ◌+◌, ◌++◌, ◌∷◌, [], ◌^◌, ◌-ℤ◌, length, map, nat_abs, neg_ℤ, true, false, IfOk, OnOk, IsErrOf, pos};
ghost use Rattle.std.specs.Int.{int_div_euclid};
ghost use Rattle.std.specs.Option.{SomeIff};
ghost use Rattle.lin_atoms.specs.Denial.{linear_of};
ghost use Rattle.lin_atoms.specs.Linear.{is_long};
ghost use Rattle.lin_atoms.specs.Truth.{lit_is_below};
ghost use Rattle.lin_atoms.specs.declared.lit.Lit.TheVariants.{Le, Eq, Div, NDiv};
ghost use Rattle.int_rows.specs.Rows.{content};
ghost use Rattle.int_rows.specs.Ready.{between, bounded, bounded_fits, least, less_multiple, lin_content, most, ready, ready_fits, tightened, without_constant};

use crate::bounds::{Bounded, Ready};
use crate::stop::ReadyStop;
use base::Memory;
use lin_atoms::{Divisor, Lin, Lit, gcd};
use std::alloc::Global;

/// The greatest common divisor of the coefficients. It ends early at 1.
fn terms_content(terms: &[(u32, i64)]) -> u128
    ensures { result ≡ content (map (λ t. t.1) terms.now) }
{
    let mut divisor: u128 = 0;
    for (_, coefficient) in terms {
        if divisor == 1 {
            return 1;
        }
        divisor = gcd(divisor, u128::from(coefficient.unsigned_abs()));
    }
    divisor
}

/// A number that has room.
fn signed(n: u128) -> i64
    requires { n < 2 ^ 63 }
    ensures { result ≡ pos n }
{
    n as i64
}

/// The greatest common divisor of a form's coefficients.
fn lin_content(lin: &Lin) -> i64
    requires { 0 < length lin.now.terms }
    ensures is { result ≡ pos (lin_content lin.now) }
    ensures positive { pos 0 <ℤ result }
{
    signed(terms_content(lin.terms()))
}

/// A coefficient divided and rounded down. Mostly the divisor is 1, and nothing is divided.
fn part(coefficient: i64, divisor: i64) -> i64
    requires { pos 0 <ℤ divisor }
    ensures { result ≡ int_div_euclid coefficient divisor }
{
    if divisor == 1 {
        coefficient
    } else {
        coefficient.div_euclid(divisor)
    }
}

/// The terms with each coefficient divided.
fn divided(alloc: Global, terms: &[(u32, i64)], divisor: i64) -> Result<Vec<(u32, i64)>, Memory>
    requires { pos 0 <ℤ divisor }
    ensures { IfOk result (λ made. made.items ≡ map (λ t. (t.0, int_div_euclid t.1 divisor)) terms.now) }
{
    let mut made = Vec::with_capacity(alloc, terms.len())?;
    for (variable, coefficient) in terms {
        made.push((*variable, part(*coefficient, divisor)))?;
    }
    Ok(made)
}

/// The quotient of a form's constant, rounded down. Mostly the divisor is 1, and nothing is divided.
fn quotient(constant: i128, divisor: i64) -> i128
    requires positive { pos 0 <ℤ divisor }
    requires long { nat_abs constant < 2 ^ 64 }
    ensures is { result ≡ int_div_euclid constant divisor }
    ensures long { nat_abs result < 2 ^ 64 }
{
    if divisor == 1 {
        constant
    } else {
        constant.div_euclid(i128::from(divisor))
    }
}

/// The form without its constant, divided by the greatest common divisor of its coefficients.
fn tightened(alloc: Global, lin: &Lin, divisor: i64) -> Result<Lin, Memory>
    requires content { divisor ≡ pos (lin_content lin.now) }
    requires positive { pos 0 <ℤ divisor }
    ensures { IfOk result (λ made. made ≡ without_constant (tightened lin.now)) }
{
    let terms = divided(alloc, lin.terms(), divisor)?;
    match Lin::new(terms, 0) {
        Ok(made) => Ok(made),
        Err(_) => Err(Memory),
    }
}

/// The greatest value of the form without its constant where the form is at most 0.
fn most(lin: &Lin, divisor: i64) -> i128
    requires content { divisor ≡ pos (lin_content lin.now) }
    requires positive { pos 0 <ℤ divisor }
    ensures is { result ≡ most lin.now }
    ensures long { nat_abs result < 2 ^ 64 }
{
    quotient(-lin.constant(), divisor)
}

/// The least value of the form without its constant where the form is at least 0.
fn least(lin: &Lin, divisor: i64) -> i128
    requires content { divisor ≡ pos (lin_content lin.now) }
    requires positive { pos 0 <ℤ divisor }
    ensures is { result ≡ least lin.now }
    ensures long { nat_abs result < 2 ^ 64 }
{
    -quotient(lin.constant(), divisor)
}

/// What is said by a form that is at most 0.
fn of_le(alloc: Global, lin: &Lin) -> Result<Bounded, Memory>
    requires { 0 < length lin.now.terms }
    ensures made { IfOk result (λ made. made ≡ bounded 0 (Le lin.now)) }
    ensures within { OnOk result (bounded_fits (bounded 0 (Le lin.now)) ≡ true) }
{
    let divisor = lin_content(lin);
    let form = tightened(alloc, lin, divisor)?;
    let _constant = form.constant();
    Ok(Bounded {
        form,
        lower: None,
        upper: Some(most(lin, divisor)),
    })
}

/// What is said by a form that is 0. The bounds cross where no integer point makes it 0.
fn of_eq(alloc: Global, lin: &Lin) -> Result<Bounded, Memory>
    requires { 0 < length lin.now.terms }
    ensures made { IfOk result (λ made. made ≡ bounded 0 (Eq lin.now)) }
    ensures within { OnOk result (bounded_fits (bounded 0 (Eq lin.now)) ≡ true) }
{
    let divisor = lin_content(lin);
    let form = tightened(alloc, lin, divisor)?;
    let _constant = form.constant();
    Ok(Bounded {
        form,
        lower: Some(least(lin, divisor)),
        upper: Some(most(lin, divisor)),
    })
}

/// The terms, and that of the quotient.
fn with_last(alloc: Global, terms: &[(u32, i64)], q: u32, n: i64) -> Result<Vec<(u32, i64)>, Memory>
    ensures { IfOk result (λ made. made.items ≡ terms.now ++ (q, n) ∷ []) }
{
    let mut made = Vec::with_capacity(alloc, terms.len() + 1)?;
    made.extend_from_slice(terms)?;
    made.push((q, n))?;
    Ok(made)
}

/// The number with the other sign.
fn minus(n: Divisor) -> i64
    ensures { result ≡ neg_ℤ (pos n) }
{
    -n.get()
}

/// The form without its constant, less a multiple of a variable above its own. Terms in order make
/// a form, so that only want of memory is in the way.
fn less_multiple(alloc: Global, n: Divisor, q: u32, lin: &Lin) -> Result<Lin, Memory>
    ensures { IfOk result (λ made. made ≡ without_constant (less_multiple n q lin.now)) }
{
    let terms = with_last(alloc, lin.terms(), q, minus(n))?;
    match Lin::new(terms, 0) {
        Ok(made) => Ok(made),
        Err(_) => Err(Memory),
    }
}

/// A bound for a form without its constant.
fn difference(bound: i64, lin: &Lin) -> i128
    ensures { result ≡ bound -ℤ lin.now.constant }
{
    i128::from(bound) - lin.constant()
}

/// Whether a constant has room.
fn is_long(constant: i128) -> bool
    ensures { result ≡ is_long constant }
{
    constant.unsigned_abs() < 1 << 64
}

/// A bound for a form without its constant, unless it has no room.
fn less_constant(bound: i64, lin: &Lin) -> Option<i128>
    ensures { SomeIff result (is_long (bound -ℤ lin.now.constant) ≡ true) (bound -ℤ lin.now.constant) }
{
    let less = difference(bound, lin);
    if is_long(less) { Some(less) } else { None }
}

/// What is said by a rest that lies between two numbers.
fn of_rest(
    alloc: Global,
    low: i64,
    high: i64,
    n: Divisor,
    q: u32,
    lin: &Lin,
) -> Result<Bounded, ReadyStop>
    ensures made { IfOk result (λ made. made ≡ between low high (less_multiple n q lin.now)) }
    ensures within { OnOk result (bounded_fits (between low high (less_multiple n q lin.now)) ≡ true) }
    ensures wide { IsErrOf result ReadyStop.Wide → bounded_fits (between low high (less_multiple n q lin.now)) ≡ false }
{
    let form = less_multiple(alloc, n, q, lin)?;
    let _constant = form.constant();
    match (less_constant(low, lin), less_constant(high, lin)) {
        (Some(lower), Some(upper)) => Ok(Bounded {
            form,
            lower: Some(lower),
            upper: Some(upper),
        }),
        _ => Err(ReadyStop::Wide),
    }
}

/// The form of a literal.
fn form_of(lit: &Lit) -> &Lin
    ensures { result.now ≡ linear_of lit.now }
{
    match lit {
        Lit::Le(lin) => lin,
        Lit::Eq(lin) => lin,
        Lit::Div(_, lin) => lin,
        Lit::NDiv(_, lin) => lin,
    }
}

/// One less than the divisor.
fn greatest_rest(n: Divisor) -> i64
    ensures { result ≡ pos n -ℤ pos 1 }
{
    n.get() - 1
}

/// What is said by a literal with a variable.
fn bounded(alloc: Global, lit: &Lit, q: u32) -> Result<Bounded, ReadyStop>
    requires { 0 < length (linear_of lit.now).terms }
    ensures made { IfOk result (λ made. made ≡ bounded q lit.now) }
    ensures within { OnOk result (bounded_fits (bounded q lit.now) ≡ true) }
    ensures wide { IsErrOf result ReadyStop.Wide → bounded_fits (bounded q lit.now) ≡ false }
{
    match lit {
        Lit::Le(lin) => Ok(of_le(alloc, lin)?),
        Lit::Eq(lin) => Ok(of_eq(alloc, lin)?),
        Lit::Div(n, lin) => of_rest(alloc, 0, 0, *n, q, lin),
        Lit::NDiv(n, lin) => of_rest(alloc, 1, greatest_rest(*n), *n, q, lin),
    }
}

/// The literal made ready for a tableau: bounds on a form whose coefficients only 1 divides, and
/// the quotient of a divisibility as a variable of its own, whose number is above those of the
/// literal.
pub fn ready(alloc: Global, lit: &Lit, quotient: u32) -> Result<Ready, ReadyStop>
    requires { lit_is_below quotient lit.now ≡ true }
    ensures made { IfOk result (λ made. made ≡ ready quotient lit.now) }
    ensures within { OnOk result (ready_fits (ready quotient lit.now) ≡ true) }
    ensures wide { IsErrOf result ReadyStop.Wide → ready_fits (ready quotient lit.now) ≡ false }
{
    if form_of(lit).terms().is_empty() {
        return Ok(Ready::Truth(lit.holds(&[])));
    }
    let made = bounded(alloc, lit, quotient)?;
    Ok(Ready::Bounds(made))
}
