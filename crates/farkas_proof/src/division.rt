//! Exact sums divided by a positive number: by one instruction where a sum has 64 bits.

ghost use Rattle.std.specs.Prelude.{◌≡◌, ◌<ℤ◌, ◌*ℤ◌, pos, IfSome, FitsSigned};
ghost use Rattle.std.specs.Int.{int_div_euclid, w128};
ghost use Rattle.std.specs.Option.{SomeIff};
ghost use Rattle.lin_atoms.specs.Multiples.{is_multiple};

use lin_atoms::Accumulator;

/// The number with 64 bits, where it has room there.
pub(crate) fn narrow(n: i128) -> Option<i64>
    ensures { IfSome result (λ m. m ≡ n) }
{
    if n.unsigned_abs() < 1 << 63 {
        Some(n as i64)
    } else {
        None
    }
}

/// The sum with 64 bits, where it is found to have room there.
fn small(total: &Accumulator) -> Option<i64>
    ensures { IfSome result (λ n. n ≡ total.now.value) }
{
    match total.to_i128() {
        Some(n) => narrow(n),
        None => None,
    }
}

/// The quotient, rounded down. Most divisors are 1 or 2, and a division by 2 is none.
pub(crate) fn floored(n: i64, divisor: i64) -> i64
    requires { pos 0 <ℤ divisor }
    ensures { result ≡ int_div_euclid n divisor }
{
    match divisor {
        2 => n.div_euclid(2),
        _ => n.div_euclid(divisor),
    }
}

/// The quotient, where nothing is left.
fn exact(n: i64, quotient: i64, divisor: i64) -> Option<i64>
    ensures { IfSome result (λ quotient. quotient *ℤ divisor ≡ n) }
{
    if i128::from(quotient) * i128::from(divisor) == i128::from(n) {
        Some(quotient)
    } else {
        None
    }
}

/// The number divided by a divisor of it.
pub(crate) fn whole_of(n: i64, divisor: i64) -> Option<i64>
    requires { pos 0 <ℤ divisor }
    ensures { IfSome result (λ quotient. quotient *ℤ divisor ≡ n) }
{
    match divisor {
        1 => exact(n, n, divisor),
        2 => exact(n, n / 2, divisor),
        _ => exact(n, n / divisor, divisor),
    }
}

/// Whether the divisor divides the sum.
pub(crate) fn is_multiple(total: &Accumulator, divisor: i64) -> bool
    requires { pos 0 <ℤ divisor }
    ensures { result ≡ is_multiple divisor total.now.value }
{
    match small(total) {
        Some(n) => n.unsigned_abs() % divisor.unsigned_abs() == 0,
        None => total.is_multiple(divisor),
    }
}

/// The sum divided by the divisor, rounded down, where that is an `i128`.
pub(crate) fn quotient(total: &Accumulator, divisor: i64) -> Option<i128>
    requires { pos 0 <ℤ divisor }
    ensures { SomeIff result (FitsSigned w128 (int_div_euclid total.now.value divisor)) (int_div_euclid total.now.value divisor) }
{
    match small(total) {
        Some(n) => Some(i128::from(n.div_euclid(divisor))),
        None => total.quotient(divisor).to_i128(),
    }
}
