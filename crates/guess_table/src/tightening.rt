//! Bounds without a common factor.

ghost use Rattle.std.specs.Prelude.{◌≡◌, ◌<◌, ◌<ℤ◌, ◌^◌, length, map, nat_abs, pos};
ghost use Rattle.int_rows.specs.Rows.{content};

use base::{Copied, Memory};
use lin_atoms::{Lin, gcd};
use std::alloc::Global;

/// The greatest common divisor of the coefficients. It ends early at 1.
pub fn content(terms: &[(u32, i64)]) -> u128
    ensures { result ≡ content (map (λ t. t.1) terms.now) }
{
    let mut divisor: u128 = 0;
    for (_, coefficient) in terms {
        if divisor == 1 {
            return 1;
        }
        divisor = gcd(divisor, u128::from(coefficient.unsigned_abs()));
    }
    divisor
}

/// A coefficient divided, rounded down.
fn part(coefficient: i64, divisor: i64) -> i64
    requires { pos 0 <ℤ divisor }
{
    coefficient.div_euclid(divisor)
}

/// The terms with each coefficient divided, rounded down.
pub fn divided(alloc: Global, terms: &[(u32, i64)], divisor: i64) -> Result<Vec<(u32, i64)>, Memory>
    requires { pos 0 <ℤ divisor }
{
    let mut made = Vec::with_capacity(alloc, terms.len())?;
    for (variable, coefficient) in terms {
        made.push((*variable, part(*coefficient, divisor)))?;
    }
    Ok(made)
}

/// The constant divided, rounded down.
fn quotient(constant: i128, divisor: i64) -> i128
    requires positive { pos 0 <ℤ divisor }
    requires long { nat_abs constant < 2 ^ 64 }
    ensures long { nat_abs result < 2 ^ 64 }
{
    constant.div_euclid(i128::from(divisor))
}

/// The constant divided, rounded up.
fn ceiling(constant: i128, divisor: i64) -> i128
    requires positive { pos 0 <ℤ divisor }
    requires long { nat_abs constant < 2 ^ 64 }
{
    -quotient(-constant, divisor)
}

/// The form with each number divided, the constant rounded up. Terms that are divided by what divides
/// each are in order, so that only want of memory is in the way.
fn whole(alloc: Global, lin: &Lin, divisor: i64) -> Result<Lin, Memory>
    requires { pos 0 <ℤ divisor }
{
    if divisor == 1 {
        return lin.copy(alloc);
    }
    let terms = divided(alloc, lin.terms(), divisor)?;
    match Lin::new(terms, ceiling(lin.constant(), divisor)) {
        Ok(made) => Ok(made),
        Err(_) => Err(Memory),
    }
}

/// A number that has room.
fn signed(n: u128) -> i64
    requires { n < 2 ^ 63 }
    ensures { result ≡ pos n }
{
    n as i64
}

/// The greatest common divisor of a form's coefficients.
fn divisor_of(lin: &Lin) -> i64
    requires { 0 < length lin.now.terms }
    ensures positive { pos 0 <ℤ result }
{
    signed(content(lin.terms()))
}

/// A form that is at most 0 at the same integer points, with coefficients that have no common factor; the
/// form itself where it has no term.
pub fn tightened(alloc: Global, lin: &Lin) -> Result<Lin, Memory> {
    if lin.terms().len() == 0 {
        return lin.copy(alloc);
    }
    whole(alloc, lin, divisor_of(lin))
}
