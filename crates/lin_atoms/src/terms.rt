ghost use Rattle.std.specs.Prelude.{◌≡◌, IsTrue, IfOk};
ghost use Rattle.lin_atoms.specs.Linear.{are_ordered, are_short, is_long, is_short};
ghost use Rattle.lin_atoms.specs.Algebra.{negated_terms};

use base::{Items, Memory};
use std::alloc::Global;

/// Whether the coefficient is below 2^63 in magnitude: -2^63 alone isn't.
pub(crate) fn is_short(coefficient: i64) -> bool
    ensures { result ≡ is_short coefficient }
{
    coefficient != i64::MIN
}

/// Whether the constant is below 2^64 in magnitude.
pub(crate) fn is_long(constant: i128) -> bool
    ensures { result ≡ is_long constant }
{
    constant.unsigned_abs() < 1 << 64
}

/// Whether the variables rise and no coefficient is 0.
pub(crate) fn are_ordered(terms: &[(u32, i64)]) -> bool
    ensures { result ≡ are_ordered 0 terms.now }
{
    let mut from = 0u64;
    for (variable, coefficient) in terms {
        if u64::from(*variable) < from || *coefficient == 0 {
            return false;
        }
        from = u64::from(*variable) + 1;
    }
    true
}

/// Whether each coefficient is below 2^63 in magnitude.
pub(crate) fn are_short(terms: &[(u32, i64)]) -> bool
    ensures { result ≡ are_short terms.now }
{
    for (_, coefficient) in terms {
        if !is_short(*coefficient) {
            return false;
        }
    }
    true
}

/// The terms with each coefficient's sign turned.
pub(crate) fn negated(alloc: Global, terms: &[(u32, i64)]) -> Result<Items<(u32, i64)>, Memory>
    requires { IsTrue (are_short terms.now) }
    ensures { IfOk result (λ made. made ≡ negated_terms terms.now) }
{
    let mut made = Vec::with_capacity(alloc, terms.len())?;
    for (variable, coefficient) in terms {
        made.push((*variable, -*coefficient))?;
    }
    Ok(Items::from_vec(made))
}
