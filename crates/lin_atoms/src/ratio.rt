ghost use Rattle.std.specs.Prelude.{◌≡◌, ◌<◌, ◌*ℤ◌, ◌<ℤ◌, ◌≤ℤ◌, ◌%◌, ℤ, pos, nat_abs, int_lt};
ghost use Rattle.base.specs.Widths.{numerator_limit};
ghost use Rattle.lin_atoms.specs.Ratio.{IsLowest};

use crate::floor::floor_div;
use crate::greatest::gcd;
use crate::wide::is_product_below;
use std::marker::Model;

/// A rational number in lowest terms, its numerator above -2^127 and its denominator positive.
#[derive(Clone, Copy)]
pub struct Ratio {
    num: i128,
    den: i128,
}

impl Model for Ratio {
    ghost use Rattle.std.specs.Prelude.{◌<◌, nat_abs};
    ghost use Rattle.base.specs.Widths.{numerator_limit};
    ghost use Rattle.lin_atoms.specs.Ratio.{Fraction, IsLowest};

    ghost Value = { Fraction };

    ghost view = { λ q. record { num = q.num; den = q.den } };

    ghost inverse = { λ q. record { num = q.num; den = q.den } };

    ghost invariant = { λ q. (nat_abs q.num < numerator_limit) × IsLowest (record { num = q.num; den = q.den }) };
}

/// The quotient of two numbers, the first of them signed, by a common divisor.
fn reduced(num: i128, den: i128, divisor: u128) -> (i128, i128)
    requires above { nat_abs num < numerator_limit }
    requires positive { pos 0 <ℤ den }
    requires divisor { (0 < divisor) × (divisor < numerator_limit) }
    requires num { nat_abs num % divisor ≡ 0 }
    requires den { nat_abs den % divisor ≡ 0 }
    ensures num { result.0 *ℤ pos divisor ≡ num }
    ensures den { result.1 *ℤ pos divisor ≡ den }
{
    let divisor = divisor as i128;
    (num / divisor, den / divisor)
}

impl Ratio {
    /// The quotient in lowest terms.
    pub fn new(num: i128, den: i128) -> Ratio
        requires above { nat_abs num < numerator_limit }
        requires positive { pos 0 <ℤ den }
        ensures same { result.num *ℤ den ≡ num *ℤ result.den }
        ensures lowest { IsLowest result }
        ensures above { nat_abs result.num < numerator_limit }
    {
        let divisor = gcd(num.unsigned_abs(), den.unsigned_abs());
        let (num, den) = reduced(num, den, divisor);
        Ratio { num, den }
    }

    /// The number with this numerator and denominator, which are in lowest terms.
    pub(crate) fn of_lowest(num: i128, den: i128) -> Ratio
        requires above { nat_abs num < numerator_limit }
        requires lowest { IsLowest (record { num = num; den = den }) }
        ensures { result ≡ record { num = num; den = den } }
    {
        Ratio { num, den }
    }

    /// The numerator.
    pub fn num(&self) -> i128
        ensures value { result ≡ self.now.num }
        ensures above { nat_abs result < numerator_limit }
        ensures lowest { IsLowest self.now }
    {
        self.num
    }

    /// The denominator, which is positive.
    pub fn den(&self) -> i128
        ensures value { result ≡ self.now.den }
        ensures lowest { IsLowest self.now }
    {
        self.den
    }

    /// The greatest integer that is at most the number.
    pub fn floor(&self) -> i128
        ensures below { (result *ℤ self.now.den) ≤ℤ self.now.num }
        ensures greatest { (n : ℤ) → (n *ℤ self.now.den) ≤ℤ self.now.num → n ≤ℤ result }
    {
        floor_div(self.num, self.den)
    }

    /// Whether the number is below another.
    pub fn less(&self, other: &Ratio) -> bool
        ensures { result ≡ int_lt (self.now.num *ℤ other.now.den) (other.now.num *ℤ self.now.den) }
    {
        let (num, den) = (self.num.unsigned_abs(), self.den.unsigned_abs());
        let (other_num, other_den) = (other.num.unsigned_abs(), other.den.unsigned_abs());
        if self.num >= 0 {
            other.num >= 0 && is_product_below(num, other_den, other_num, den)
        } else {
            other.num >= 0 || is_product_below(other_num, den, num, other_den)
        }
    }
}
