//! Rows whose entries have a common divisor.

use crate::chain::Chain;
use crate::sides::{Bound, Sides};
use base::Memory;
use int_rows::Tableau;
use lin_atoms::gcd;
use std::alloc::Global;

/// Both bounds of a column that has both.
pub(crate) fn both(sides: &[Sides], column: usize) -> Option<(Bound, Bound)> {
    match sides.get(column) {
        Some(
            Sides {
                lower: Some(lower),
                upper: Some(upper),
            },
        ) => Some((*lower, *upper)),
        _ => None,
    }
}

/// The greatest common divisor of the entries of columns that lack a bound.
fn common_divisor(entries: &[i64], sides: &[Sides]) -> u128 {
    let mut divisor: u128 = 0;
    for (column, entry) in entries.iter().enumerate() {
        if both(sides, column).is_none() {
            divisor = gcd(divisor, u128::from(entry.unsigned_abs()));
        }
    }
    divisor
}

/// The greatest magnitude of an entry below the number, and 0 where there is none.
fn next_size(entries: &[i64], below: u64) -> u64 {
    let mut size = 0;
    for entry in entries {
        let own = entry.unsigned_abs();
        if own < below && own > size {
            size = own;
        }
    }
    size
}

/// Whether the number divides the entry.
fn divides(divisor: i64, entry: i64) -> bool {
    entry.checked_rem(divisor) == Some(0)
}

/// What columns add up to, at least and at most.
#[derive(Clone, Copy)]
struct Sum {
    low: i128,
    high: i128,
}

impl Sum {
    /// With `entry` times a column between two bounds.
    fn with(self, entry: i64, lower: i128, upper: i128) -> Option<Sum> {
        let first = i128::from(entry).checked_mul(lower)?;
        let second = i128::from(entry).checked_mul(upper)?;
        Some(Sum {
            low: self.low.checked_add(first.min(second))?,
            high: self.high.checked_add(first.max(second))?,
        })
    }

    /// Whether no multiple of the number lies in it.
    fn has_no_multiple(self, divisor: i64) -> bool {
        let divisor = i128::from(divisor);
        let Some(quotient) = self.high.checked_div_euclid(divisor) else {
            return false;
        };
        match quotient.checked_mul(divisor) {
            Some(multiple) => multiple < self.low,
            None => false,
        }
    }
}

/// The sum with a column, where the number doesn't divide its entry.
fn with_column(sum: Sum, entry: i64, sides: &[Sides], column: usize, divisor: i64) -> Option<Sum> {
    if divides(divisor, entry) {
        return Some(sum);
    }
    let (lower, upper) = both(sides, column)?;
    sum.with(entry, lower.value, upper.value)
}

/// What the columns whose entries the number doesn't divide add up to.
fn added(entries: &[i64], sides: &[Sides], divisor: i64) -> Option<Sum> {
    let mut sum = Sum { low: 0, high: 0 };
    for (column, entry) in entries.iter().enumerate() {
        match with_column(sum, *entry, sides, column, divisor) {
            Some(with) => sum = with,
            None => return None,
        }
    }
    Some(sum)
}

/// Whether no multiple of the number lies between what those columns add up to.
pub(crate) fn is_refuted(entries: &[i64], sides: &[Sides], divisor: i64) -> bool {
    match added(entries, sides, divisor) {
        Some(sum) => sum.has_no_multiple(divisor),
        None => false,
    }
}

/// One of the entries' magnitudes, where all columns have both bounds. The four greatest are tried.
fn refuting_size(entries: &[i64], sides: &[Sides]) -> Option<i64> {
    let mut size = u64::MAX;
    for _ in 0..4 {
        size = next_size(entries, size);
        if let Some(divisor) = if_refuted(entries, sides, u128::from(size)) {
            return Some(divisor);
        }
    }
    None
}

/// The number, where it is above 1 and has no multiple between what the columns add up to.
fn if_refuted(entries: &[i64], sides: &[Sides], divisor: u128) -> Option<i64> {
    match i64::try_from(divisor) {
        Ok(divisor) => {
            if divisor > 1 && is_refuted(entries, sides, divisor) {
                Some(divisor)
            } else {
                None
            }
        }
        Err(_) => None,
    }
}

/// A number that the row refutes.
fn refuting(entries: &[i64], sides: &[Sides]) -> Option<i64> {
    let divisor = common_divisor(entries, sides);
    if divisor == 0 {
        refuting_size(entries, sides)
    } else {
        if_refuted(entries, sides, divisor)
    }
}

/// A bound that is taken `times` times, rounded by itself first where it has to be.
pub(crate) fn taken(
    alloc: Global,
    chain: &mut Chain,
    bound: Bound,
    times: i64,
) -> Result<(u32, i64), Memory> {
    if bound.divisor == 1 {
        return Ok((bound.number, bound.sign.wrapping_mul(times)));
    }
    let single = vec![in alloc; (bound.number, bound.sign)]?;
    Ok((chain.round(single, bound.divisor)?, times))
}

/// What a row's columns are at most, added up, and with the other sign what they are at least.
#[derive(Drop)]
struct Sums {
    most: Vec<(u32, i64)>,
    least: Vec<(u32, i64)>,
}

impl Sums {
    /// Both bounds of a column are taken.
    fn take(
        &mut self,
        alloc: Global,
        chain: &mut Chain,
        entry: i64,
        bounds: (Bound, Bound),
    ) -> Result<(), Memory> {
        let times = entry.wrapping_abs();
        let (lower, upper) = bounds;
        let (most, least) = if entry > 0 {
            (upper, lower)
        } else {
            (lower, upper)
        };
        self.most.push(taken(alloc, chain, most, times)?)?;
        self.least.push(taken(alloc, chain, least, times)?)?;
        Ok(())
    }

    /// The bounds of the columns are taken whose entries the number doesn't divide.
    fn take_all(
        &mut self,
        alloc: Global,
        chain: &mut Chain,
        entries: &[i64],
        sides: &[Sides],
        divisor: i64,
    ) -> Result<(), Memory> {
        for (column, entry) in entries.iter().enumerate() {
            if !divides(divisor, *entry) {
                if let Some(bounds) = both(sides, column) {
                    self.take(alloc, chain, *entry, bounds)?;
                }
            }
        }
        Ok(())
    }
}

/// The row divided by the number, rounded from above and from below.
pub(crate) fn put_row(
    alloc: Global,
    chain: &mut Chain,
    entries: &[i64],
    sides: &[Sides],
    divisor: i64,
) -> Result<(), Memory> {
    let mut sums = Sums {
        most: Vec::new(alloc),
        least: Vec::new(alloc),
    };
    sums.take_all(alloc, chain, entries, sides, divisor)?;
    let Sums { most, least } = sums;
    chain.close(most, divisor)?;
    chain.close(least, divisor)
}

/// The first row that a number refutes. Whether there is one.
pub(crate) fn of_rows(
    alloc: Global,
    chain: &mut Chain,
    tableau: &Tableau,
    sides: &[Sides],
) -> Result<bool, Memory> {
    'rows: for row in 0..tableau.rows() {
        let entries = tableau.row(row);
        if let Some(divisor) = refuting(entries, sides) {
            put_row(alloc, chain, entries, sides, divisor)?;
            return Ok(true);
        }
    }
    Ok(false)
}
