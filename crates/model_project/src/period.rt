//! The least common multiple of the divisors of the literals in which a variable occurs.

ghost use Rattle.std.specs.Prelude.{◌≡◌, ◌<◌, ◌≤◌, ◌*◌, IfSome, IsNone};
ghost use Rattle.model_project.specs.Elimination.{least_multiple, period};
ghost use Rattle.model_project.specs.machinery.Steps.{have_divisors};
ghost use Rattle.std.specs.Prelude.{true};
ghost use Rattle.base.specs.Widths.{short_limit};

use crate::reading;
use lin_atoms::{Lit, gcd};

/// The exact least common multiple.
fn exact(a: u64, b: u64) -> u128
    requires a { a < short_limit }
    requires b { b < short_limit }
    requires some { 0 < b }
    ensures { result ≡ least_multiple a b }
{
    let divisor = gcd(u128::from(a), u128::from(b));
    u128::from(a) * (u128::from(b) / divisor)
}

/// The number with 64 bits, unless it is wide.
pub(crate) fn short(n: u128) -> Option<u64>
    ensures some { IfSome result (λ short. short ≡ n) }
    ensures short { IfSome result (λ short. n < short_limit) }
    ensures none { IsNone result → short_limit ≤ n }
{
    if n < 1 << 63 { Some(n as u64) } else { None }
}

/// The period of a variable, unless it is wide.
pub(crate) fn period(lits: &[Lit], variable: usize) -> Option<u64>
    requires { have_divisors lits.now ≡ true }
    ensures some { IfSome result (λ n. n ≡ period variable lits.now) }
    ensures short { IfSome result (λ n. n < short_limit) }
    ensures above { IfSome result (λ n. 0 < n) }
    ensures none { IsNone result → short_limit ≤ period variable lits.now }
{
    let mut period: u64 = 1;
    let mut left = lits.len();
    while left > 0 {
        left -= 1;
        if !reading::occurs(&lits[left], variable) {
            continue;
        }
        match short(exact(period, reading::divisor(&lits[left]))) {
            Some(n) => {
                period = n;
            }
            None => return None,
        }
    }
    Some(period)
}
