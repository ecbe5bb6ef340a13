//! The greatest common divisor of a form's coefficients.

ghost use Rattle.std.specs.Prelude.{◌≡◌, ◌<◌, length, nat_abs, pos};
ghost use Rattle.base.specs.Widths.{short_limit};
ghost use Rattle.int_rows.specs.Ready.{lin_content};

use lin_atoms::{Lin, gcd};

/// A number that has room.
fn signed(n: u128) -> i64
    requires { n < short_limit }
    ensures { result ≡ pos n }
{
    n as i64
}

/// The magnitude of a coefficient.
fn magnitude(term: &(u32, i64)) -> u128
    ensures { result ≡ nat_abs term.now.1 }
{
    let (_, coefficient) = *term;
    u128::from(coefficient.unsigned_abs())
}

/// The greatest common divisor of the coefficients of a form with a variable.
pub(crate) fn content(lin: &Lin) -> i64
    requires { 0 < length lin.now.terms }
    ensures is { result ≡ pos (lin_content lin.now) }
    ensures positive { 0 < lin_content lin.now }
{
    let terms = lin.terms();
    let mut divisor: u128 = 0;
    for term in terms {
        divisor = gcd(divisor, magnitude(term));
    }
    signed(divisor)
}
