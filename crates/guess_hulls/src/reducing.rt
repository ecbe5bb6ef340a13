//! Forms with smaller numbers that say the same.

ghost use Rattle.std.specs.Prelude.{◌<ℤ◌, pos};

use base::{Copied, Memory};
use guess_table::{content, divided};
use lin_atoms::{Divisor, Lin, gcd};
use std::alloc::Global;

/// The terms with each coefficient reduced, without those that are 0 then.
fn residues(alloc: Global, terms: &[(u32, i64)], modulus: i64) -> Result<Vec<(u32, i64)>, Memory>
    requires { pos 0 <ℤ modulus }
{
    let mut made = Vec::new(alloc);
    for (variable, coefficient) in terms {
        let rest = coefficient.rem_euclid(modulus);
        if rest != 0 {
            made.push((*variable, rest))?;
        }
    }
    Ok(made)
}

/// A form of which the divisor divides the same values, with each number reduced modulo the divisor; the
/// form itself where no variable would be left.
pub(crate) fn residue(alloc: Global, divisor: Divisor, lin: &Lin) -> Result<Lin, Memory> {
    let modulus = divisor.get();
    let terms = residues(alloc, lin.terms(), modulus)?;
    if terms.len() == 0 {
        return lin.copy(alloc);
    }
    match Lin::new(terms, lin.constant().rem_euclid(i128::from(modulus))) {
        Ok(made) => Ok(made),
        Err(_) => lin.copy(alloc),
    }
}

/// The form divided by what divides all its numbers.
pub(crate) fn primitive(alloc: Global, lin: &Lin) -> Result<Lin, Memory> {
    let whole = gcd(content(lin.terms()), lin.constant().unsigned_abs());
    let divisor = match i64::try_from(whole) {
        Ok(divisor) => divisor,
        Err(_) => return lin.copy(alloc),
    };
    if divisor <= 1 {
        return lin.copy(alloc);
    }
    let terms = divided(alloc, lin.terms(), divisor)?;
    match Lin::new(terms, lin.constant().div_euclid(i128::from(divisor))) {
        Ok(made) => Ok(made),
        Err(_) => lin.copy(alloc),
    }
}
