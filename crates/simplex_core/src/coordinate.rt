ghost use Rattle.std.specs.Prelude.{◌≡◌, ◌^◌, ◌<◌, ◌≤◌, ◌+◌, ◌==◌, ◌-ℤ◌, ◌*ℤ◌, ◌<ℤ◌, ℤ, pos, nat_abs, length, true, false, IfSome, IsNone, IfOk, ◌++◌, ◌∷◌, [], if◌then◌else◌};
ghost use Rattle.std.specs.Int.{IsGcd, int_div_euclid};
ghost use Rattle.std.specs.List.{list_all};
ghost use Rattle.std.specs.Ordering.{int_cmp};
ghost use Rattle.base.specs.Widths.{numerator_limit, long_limit};
ghost use Rattle.lin_atoms.specs.Linear.{is_long, is_short};
ghost use Rattle.lin_atoms.specs.Ratio.{Fraction, IsLowest, IsNumerator};
ghost use Rattle.int_rows.specs.Rows.{entry};
ghost use Rattle.simplex_core.specs.Coordinate.{coordinate, held, is_held};
ghost use Rattle.simplex_core.specs.Run.{is_wide};

use base::Memory;
use lin_atoms::{Accumulator, Ratio, gcd};
use std::alloc::Global;
use std::cmp::Ordering;
use std::marker::Model;

/// The exact value of a column, as a sum over a positive denominator, which need not be in lowest
/// terms. It takes no memory.
#[derive(Drop)]
pub struct Coordinate {
    sum: Accumulator,
    den: i64,
}

impl Model for Coordinate {
    ghost use Rattle.std.specs.Prelude.{pos, ◌<ℤ◌};
    ghost use Rattle.lin_atoms.specs.Ratio.{Fraction};

    ghost Value = { Fraction };

    ghost view = { λ c. record { num = c.sum.value; den = c.den } };

    ghost invariant = { λ c. pos 0 <ℤ c.den };
}

/// An entry of a row, and 0 in the place of one column.
fn entry_but(entry: i64, column: usize, own: usize) -> i64
    ensures { result ≡ (if column == own then pos 0 else entry) }
{
    if column == own { 0 } else { entry }
}

/// Appends a column where it is to be kept.
fn push_place(made: &mut Vec<usize>, column: usize, keep: bool) -> Result<(), Memory>
    ensures { IfOk result (λ _. made.new.items ≡ made.old.items ++ (if keep then column ∷ [] else [])) }
{
    if keep {
        made.push(column)?;
    }
    Ok(())
}

/// Whether a column's value isn't 0.
fn is_held(values: &[i128], column: usize) -> bool
    requires { column < length values.now }
    ensures { result ≡ is_held values.now column }
{
    values[column] != 0
}

/// The columns whose value isn't 0, in order of number.
pub fn held(alloc: Global, values: &[i128]) -> Result<Vec<usize>, Memory>
    ensures { IfOk result (λ made. made.items ≡ held values.now) }
{
    let mut made = Vec::new(alloc);
    for column in 0..values.len() {
        push_place(&mut made, column, is_held(values, column))?;
    }
    Ok(made)
}

/// Takes a product away from a sum.
fn take_away(sum: &mut Accumulator, entry: i64, value: i128)
    requires room { sum.old.added < 2 ^ 32 }
    requires long { nat_abs value < long_limit }
    ensures value { sum.new.value ≡ sum.old.value -ℤ entry *ℤ value }
    ensures added { sum.new.added ≤ sum.old.added + 1 }
{
    if entry != 0 {
        sum.add(entry, -value);
    }
}

/// Takes the product of a column's entry and value away from a sum, unless it is the column itself.
fn take_column(sum: &mut Accumulator, row: &[i64], values: &[i128], column: usize, own: usize)
    requires width { length row.now ≡ length values.now }
    requires within { column < length row.now }
    requires long { list_all is_long values.now ≡ true }
    requires room { sum.old.added < 2 ^ 32 }
    ensures value { sum.new.value ≡ sum.old.value -ℤ (if column == own then pos 0 else entry row.now column) *ℤ entry values.now column }
    ensures added { sum.new.added ≤ sum.old.added + 1 }
{
    take_away(sum, entry_but(row[column], column, own), values[column]);
}

impl Coordinate {
    /// The value of a column outside the basis.
    pub fn integer(value: i128) -> Coordinate
        ensures { result ≡ record { num = value; den = pos 1 } }
    {
        Coordinate {
            sum: Accumulator::new(value),
            den: 1,
        }
    }

    /// The value of the basic column `own` by its row, at the values of the other columns, of which
    /// those that aren't 0 are listed. What stands among the values in the place of the column itself
    /// doesn't count.
    pub fn basic(row: &[i64], values: &[i128], places: &[usize], own: usize) -> Coordinate
        requires width { length row.now ≡ length values.now }
        requires few { length row.now ≤ 2 ^ 32 }
        requires own { own < length row.now }
        requires positive { pos 0 <ℤ entry row.now own }
        requires long { list_all is_long values.now ≡ true }
        requires places { places.now ≡ held values.now }
        ensures { result ≡ coordinate row.now values.now own }
    {
        let mut sum = Accumulator::new(0);
        for place in places {
            take_column(&mut sum, row, values, *place, own);
        }
        Coordinate { sum, den: row[own] }
    }

    /// Compares the value with a bound.
    pub fn compare(&self, bound: i128) -> Ordering
        requires { nat_abs bound < long_limit }
        ensures { result ≡ int_cmp self.now.num (self.now.den *ℤ bound) }
    {
        let mut other = Accumulator::new(0);
        other.add(self.den, bound);
        self.sum.compare(&other)
    }

    /// The value in lowest terms, where the numerator has room: its magnitude is below 2^127.
    pub fn ratio(&self) -> Option<Ratio>
        ensures same { IfSome result (λ q. q.num *ℤ self.now.den ≡ self.now.num *ℤ q.den) }
        ensures lowest { IfSome result (λ q. IsLowest q) }
        ensures above { IfSome result (λ q. nat_abs q.num < numerator_limit) }
        ensures wide { IsNone result → (num : ℤ) → IsNumerator num self.now.num self.now.den → numerator_limit ≤ nat_abs num }
    {
        self.sum.ratio(self.den)
    }

    /// Whether the greatest integer that is at most the value has room: its magnitude is below 2^63.
    pub fn has_short_floor(&self) -> bool
        ensures { result ≡ is_short (int_div_euclid self.now.num self.now.den) }
    {
        match self.sum.quotient(self.den).to_i128() {
            None => false,
            Some(floor) => floor.unsigned_abs() < 1 << 63,
        }
    }

    /// The greatest common divisor of the numerator and the denominator.
    fn common_divisor(&self) -> i64
        ensures common { IsGcd (nat_abs self.now.num) (nat_abs self.now.den) (nat_abs result) }
        ensures positive { pos 0 <ℤ result }
    {
        let rest = self.sum.remainder(self.den);
        let divisor = gcd(
            u128::from(rest.unsigned_abs()),
            u128::from(self.den.unsigned_abs()),
        );
        divisor as i64
    }

    /// Whether the numerator in lowest terms is 2^127 or more in magnitude, by a division.
    fn is_wide_reduced(&self) -> bool
        ensures { result ≡ is_wide self.now }
    {
        match self.sum.quotient(self.common_divisor()).to_i128() {
            None => true,
            Some(num) => num.unsigned_abs() >= 1 << 127,
        }
    }

    /// Whether the value has no room: in lowest terms its numerator is 2^127 or more in magnitude.
    /// Where the numerator has room as it is, no divisor is sought.
    pub(crate) fn is_wide(&self) -> bool
        ensures { result ≡ is_wide self.now }
    {
        match self.sum.to_i128() {
            None => self.is_wide_reduced(),
            Some(num) => num.unsigned_abs() >= 1 << 127 && self.is_wide_reduced(),
        }
    }

    /// The value in lowest terms, where it has room.
    pub(crate) fn lowest(&self) -> Ratio
        requires { is_wide self.now ≡ false }
        ensures same { result.num *ℤ self.now.den ≡ self.now.num *ℤ result.den }
    {
        let _den = self.den;
        self.ratio().unwrap()
    }
}
