ghost use Rattle.std.specs.Prelude.{◌≡◌, ◌+◌, ◌^◌, ◌<◌, ◌≤◌, ◌*◌, ◌+ℤ◌, ◌*ℤ◌, ◌<ℤ◌, ◌%◌, ℤ, pos, nat_abs, IfSome, IsNone, FitsSigned};
ghost use Rattle.std.specs.Int.{int_signum, int_rem_euclid, int_div_euclid, IsGcd, w128};
ghost use Rattle.std.specs.Option.{SomeIff};
ghost use Rattle.std.specs.Ordering.{int_cmp};
ghost use Rattle.base.specs.Widths.{numerator_limit, long_limit};
ghost use Rattle.lin_atoms.specs.Multiples.{is_multiple};
ghost use Rattle.lin_atoms.specs.Ratio.{IsLowest, IsNumerator};

use crate::greatest::gcd;
use crate::ratio::Ratio;
use crate::words::{carried, divided_words, signed};
use std::cmp::Ordering;
use std::marker::Model;

/// An exact sum of an `i128` and up to 2^32 products of an `i64` by an integer below 2^64 in
/// magnitude. It is a multiple of 2^128 and a rest that is an `i128`, so that each sum has one form
/// and no addition takes more than a carry.
#[derive(Drop)]
pub struct Accumulator {
    high: i64,
    low: i128,
    added: u64,
}

impl Model for Accumulator {
    ghost use Rattle.std.specs.Prelude.{◌≤◌, ◌^◌, ◌+ℤ◌, ◌*ℤ◌, pos, nat_abs};
    ghost use Rattle.lin_atoms.specs.machinery.Accumulator.{Total};

    ghost Value = { Total };

    ghost view = { λ s. record { value = s.high *ℤ pos (2 ^ 128) +ℤ s.low; added = s.added } };

    ghost invariant = { λ s. (nat_abs s.high ≤ s.added) × (s.added ≤ 2 ^ 32) };
}

/// The exact product.
pub(crate) fn product(a: i64, b: i128) -> i128
    requires { nat_abs b < long_limit }
    ensures { result ≡ a *ℤ b }
{
    i128::from(a) * b
}

/// The quotient of a number by a divisor of it.
fn exact(n: i64, divisor: i64) -> i64
    requires positive { pos 0 <ℤ divisor }
    requires divides { nat_abs n % nat_abs divisor ≡ 0 }
    ensures { result *ℤ divisor ≡ n }
{
    n / divisor
}

impl Accumulator {
    /// A sum that begins with a number.
    pub fn new(constant: i128) -> Accumulator
        ensures value { result.value ≡ constant }
        ensures added { result.added ≡ 0 }
    {
        Accumulator {
            high: 0,
            low: constant,
            added: 0,
        }
    }

    /// Adds a product.
    pub fn add(&mut self, a: i64, b: i128)
        requires room { self.old.added < 2 ^ 32 }
        requires long { nat_abs b < long_limit }
        ensures value { self.new.value ≡ self.old.value +ℤ a *ℤ b }
        ensures added { self.new.added ≡ self.old.added + 1 }
    {
        let (carry, low) = carried(self.low, product(a, b));
        self.high += carry;
        self.low = low;
        self.added += 1;
    }

    /// The sign of the sum: -1, 0 or 1.
    pub fn sign(&self) -> i8
        ensures { result ≡ int_signum self.now.value }
    {
        let (high, low) = (self.high, self.low);
        if high > 0 {
            1
        } else if high < 0 {
            -1
        } else if low > 0 {
            1
        } else if low < 0 {
            -1
        } else {
            0
        }
    }

    /// Compares two sums.
    pub fn compare(&self, other: &Accumulator) -> Ordering
        ensures { result ≡ int_cmp self.now.value other.now.value }
    {
        let (high, low) = (self.high, self.low);
        let (other_high, other_low) = (other.high, other.low);
        if high < other_high {
            Ordering::Less
        } else if high > other_high {
            Ordering::Greater
        } else {
            low.cmp(&other_low)
        }
    }

    /// What is left of the sum when a multiple of the divisor is taken away: from 0 up to the
    /// divisor.
    pub fn remainder(&self, divisor: i64) -> i64
        requires { pos 0 <ℤ divisor }
        ensures { result ≡ int_rem_euclid self.now.value divisor }
    {
        divided_words(self.high, self.low, divisor).rest as i64
    }

    /// Whether the divisor divides the sum.
    pub fn is_multiple(&self, divisor: i64) -> bool
        requires { pos 0 <ℤ divisor }
        ensures { result ≡ is_multiple divisor self.now.value }
    {
        self.remainder(divisor) == 0
    }

    /// The sum divided by the divisor, rounded down: exactly where the divisor divides it.
    pub fn quotient(&self, divisor: i64) -> Accumulator
        requires { pos 0 <ℤ divisor }
        ensures value { result.value ≡ int_div_euclid self.now.value divisor }
        ensures added { result.added ≡ self.now.added }
    {
        let quotient = divided_words(self.high, self.low, divisor);
        let (high, low) = signed(quotient.high, quotient.first, quotient.second);
        Accumulator {
            high,
            low,
            added: self.added,
        }
    }

    /// The sum itself, where it has room.
    pub fn to_i128(&self) -> Option<i128>
        ensures { SomeIff result (FitsSigned w128 self.now.value) self.now.value }
    {
        let (high, low) = (self.high, self.low);
        if high == 0 { Some(low) } else { None }
    }

    /// The sum over a denominator in lowest terms, where the numerator has room: its magnitude is
    /// below 2^127.
    pub fn ratio(&self, den: i64) -> Option<Ratio>
        requires { pos 0 <ℤ den }
        ensures same { IfSome result (λ q. q.num *ℤ den ≡ self.now.value *ℤ q.den) }
        ensures lowest { IfSome result (λ q. IsLowest q) }
        ensures above { IfSome result (λ q. nat_abs q.num < numerator_limit) }
        ensures wide { IsNone result → (num : ℤ) → IsNumerator num self.now.value den → numerator_limit ≤ nat_abs num }
    {
        let divisor = self.common_divisor(den);
        match self.quotient(divisor).to_i128() {
            None => None,
            Some(num) => {
                if num == i128::MIN {
                    None
                } else {
                    Some(Ratio::of_lowest(num, i128::from(exact(den, divisor))))
                }
            }
        }
    }

    /// The greatest common divisor of the sum and a number.
    fn common_divisor(&self, n: i64) -> i64
        requires { pos 0 <ℤ n }
        ensures common { IsGcd (nat_abs self.now.value) (nat_abs n) (nat_abs result) }
        ensures positive { pos 0 <ℤ result }
    {
        let rest = self.remainder(n);
        let divisor = gcd(
            u128::from(rest.unsigned_abs()),
            u128::from(n.unsigned_abs()),
        );
        divisor as i64
    }
}
