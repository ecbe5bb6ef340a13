//! Multiples of equations whose sum no integers solve.

use crate::column::{Column, less};
use crate::entries::{set, zeros};
use crate::solving::Done;
use base::Memory;
use lin_atoms::gcd;
use std::alloc::Global;

/// Multipliers of equations: the divisor divides each coefficient of their sum, but not its value.
#[derive(Drop)]
pub struct Unsolvable {
    /// For each equation its multiplier, from 0 up to below the divisor.
    pub multipliers: Vec<i64>,
    /// The divisor.
    pub divisor: i64,
}

/// A form so many times, and multiples of equations: the divisor divides each coefficient of their sum.
#[derive(Drop)]
pub(crate) struct Combined {
    pub(crate) times: i64,
    pub(crate) multipliers: Vec<i64>,
    pub(crate) divisor: i64,
}

/// Fractions with one denominator, the last ones of a list.
#[derive(Drop)]
struct Fractions {
    /// The numerators, the last of the list first.
    nums: Vec<i128>,
    den: i128,
}

fn entry_at(column: &Column, done: &[Done], at: usize) -> i128 {
    match done.get(at) {
        Some(own) => column.entry(own.row),
        None => 0,
    }
}

fn scale(nums: &mut [i128], factor: i128) -> Option<()> {
    for own in nums.iter_mut() {
        match own.checked_mul(factor) {
            Some(value) => *own = value,
            None => return None,
        }
    }
    Some(())
}

/// The greatest common divisor of two numbers, where it has room.
fn common(a: i128, b: i128) -> Option<i128> {
    i128::try_from(gcd(a.unsigned_abs(), b.unsigned_abs())).ok()
}

/// The magnitude of a number, divided.
fn size_by(entry: i128, divisor: i128) -> Option<i128> {
    entry.checked_abs()?.checked_div(divisor)
}

/// The quotient, with the other sign where it is to be turned.
fn quotient(rest: i128, divisor: i128, is_turned: bool) -> Option<i128> {
    let num = rest.checked_div(divisor)?;
    if is_turned {
        num.checked_neg()
    } else {
        Some(num)
    }
}

impl Fractions {
    /// What the column has, less what the fractions that are there have of it.
    fn rest(&self, column: &Column, done: &[Done], from: i128) -> Option<i128> {
        let mut rest = from;
        let mut at = done.len();
        for num in self.nums.iter() {
            at = at.saturating_sub(1);
            match less(rest, entry_at(column, done, at), *num) {
                Some(value) => rest = value,
                None => return None,
            }
        }
        Some(rest)
    }

    /// All are written with a denominator that is so many times as large.
    fn scale(&mut self, factor: i128) -> Option<()> {
        scale(self.nums.as_mut_slice(), factor)?;
        self.den = self.den.checked_mul(factor)?;
        Some(())
    }

    /// The denominator gets what the entry has more than the number. The new numerator.
    fn scaled(&mut self, rest: i128, entry: i128) -> Option<i128> {
        let divisor = common(rest, entry)?;
        self.scale(size_by(entry, divisor)?)?;
        quotient(rest, divisor, entry < 0)
    }

    /// The numerator of the next equation, from the last one on.
    fn next(&mut self, done: &[Done], row: Option<usize>) -> Option<i128> {
        let at = done.len().saturating_sub(self.nums.len()).saturating_sub(1);
        let own = done.get(at)?;
        let share = share(&own.column, row, self.nums.is_empty());
        let rest = self.rest(&own.column, done, share.checked_mul(self.den)?)?;
        self.scaled(rest, own.column.entry(own.row))
    }

    /// The fractions of all equations, from the last one to the first. Whether they have room.
    fn put_all(&mut self, done: &[Done], row: Option<usize>) -> Result<bool, Memory> {
        for _ in 0..done.len() {
            match self.next(done, row) {
                Some(num) => self.nums.push(num)?,
                None => return Ok(false),
            }
        }
        Ok(true)
    }

    /// What the denominator has in common with all numerators.
    fn common(&self) -> u128 {
        let mut divisor = self.den.unsigned_abs();
        for num in self.nums.iter() {
            divisor = gcd(divisor, num.unsigned_abs());
        }
        divisor
    }

    /// What the denominator has in common with all numerators, the denominator divided by it, and that
    /// times a number.
    fn divisors(&self, factor: i128) -> Option<(i128, i64, i64)> {
        let common = i128::try_from(self.common()).ok()?;
        let times = self.den.checked_div(common)?;
        let divisor = i64::try_from(times.checked_mul(factor)?).ok()?;
        Some((common, i64::try_from(times).ok()?, divisor))
    }
}

/// What the last column is, as a row that has it once, or what the row of that number has of a column.
fn share(column: &Column, row: Option<usize>, is_last: bool) -> i128 {
    match row {
        Some(row) => column.entry(row),
        None => { if is_last { 1 } else { 0 } }
    }
}

/// The multiplier of a fraction: its numerator over the divisor, modulo it, with the other sign where it is to
/// be turned.
fn multiplier(num: i128, common: i128, divisor: i128, is_turned: bool) -> Option<i64> {
    let num = if is_turned { num.checked_neg()? } else { num };
    let own = num.checked_div(common)?.checked_rem_euclid(divisor)?;
    i64::try_from(own).ok()
}

/// Each equation that was met gets its multiplier, with the other sign where they are to be turned. Whether
/// they have room.
fn put_all(
    made: &mut [i64],
    nums: &[i128],
    done: &[Done],
    common: i128,
    divisor: i64,
    is_turned: bool,
) -> bool {
    let mut at = done.len();
    for num in nums {
        at = at.saturating_sub(1);
        match (
            done.get(at),
            multiplier(*num, common, i128::from(divisor), is_turned),
        ) {
            (Some(own), Some(value)) => set(made, own.row, value),
            _ => return false,
        }
    }
    true
}

/// The multipliers of fractions.
fn of_fractions(
    alloc: Global,
    fractions: &Fractions,
    done: &[Done],
    count: usize,
    factor: i128,
    is_turned: bool,
) -> Result<Option<Combined>, Memory> {
    let Some((common, times, divisor)) = fractions.divisors(factor) else {
        return Ok(None);
    };
    let mut multipliers = zeros(alloc, count)?;
    let (made, nums) = (multipliers.as_mut_slice(), fractions.nums.as_slice());
    if put_all(made, nums, done, common, divisor, is_turned) {
        Ok(Some(Combined {
            times,
            multipliers,
            divisor,
        }))
    } else {
        Ok(None)
    }
}

/// The multiples of equations that add up to what the row of that number has of the columns with a value, or
/// to the last of these columns, by a divisor that is a multiple of `factor`.
pub(crate) fn combine(
    alloc: Global,
    done: &[Done],
    row: Option<usize>,
    count: usize,
    factor: i128,
) -> Result<Option<Combined>, Memory> {
    let mut fractions = Fractions {
        nums: Vec::new(alloc),
        den: 1,
    };
    if fractions.put_all(done, row)? {
        of_fractions(alloc, &fractions, done, count, factor, row.is_some())
    } else {
        Ok(None)
    }
}
