//! The bounds of a tableau that leave more than one value, and how a point is moved until it meets them.

use crate::forms::{Range, form_of, one_value};
use base::Memory;
use int_rows::Tableau;
use std::alloc::Global;

/// What a form is at least and at most, its value at a point, and how much it counts that the value is
/// within.
#[derive(Drop)]
pub(crate) struct Limit {
    terms: Vec<(u32, i128)>,
    lower: i64,
    upper: i64,
    pub(crate) value: i64,
    pub(crate) weight: u64,
}

/// A bound that has room, or the number that stands for none.
fn short(bound: Option<i128>, none: i64) -> i64 {
    match bound {
        Some(bound) => i64::try_from(bound).unwrap_or(none),
        None => none,
    }
}

impl Limit {
    /// By how much a value would have to rise, or to sink, as a number below 0.
    pub(crate) fn lack(&self, value: i64) -> i64 {
        if value < self.lower {
            return self.lower.saturating_sub(value);
        }
        if value > self.upper {
            return self.upper.saturating_sub(value);
        }
        0
    }

    /// What a value counts.
    pub(crate) fn cost(&self, value: i64) -> u64 {
        self.lack(value).unsigned_abs().saturating_mul(self.weight)
    }

    /// The value after an effect that is had so often.
    pub(crate) fn raised(&self, effect: i64, times: i64) -> i64 {
        self.value.saturating_add(effect.saturating_mul(times))
    }

    /// What the form is at a point.
    pub(crate) fn value_at(&self, point: &[i64]) -> i64 {
        let mut sum: i64 = 0;
        for (variable, times) in &self.terms {
            sum = sum.saturating_add(product(*times, point.get(*variable as usize)));
        }
        sum
    }
}

/// A multiple of a number, or 0 without one.
fn product(times: i128, other: Option<&i64>) -> i64 {
    match (i64::try_from(times), other) {
        (Ok(times), Some(other)) => times.saturating_mul(*other),
        _ => 0,
    }
}

/// The bounds of a form, unless they leave one value.
fn put(limits: &mut Vec<Limit>, range: Range) -> Result<(), Memory> {
    let Range {
        terms,
        lower,
        upper,
    } = range;
    let is_open = lower.is_none() && upper.is_none();
    if !is_open && one_value(lower, upper).is_none() {
        limits.push(Limit {
            terms,
            lower: short(lower, i64::MIN),
            upper: short(upper, i64::MAX),
            value: 0,
            weight: 1,
        })?;
    }
    Ok(())
}

/// The bounds of a tableau before its first pivot that leave more than one value join the others.
pub(crate) fn put_limits(
    alloc: Global,
    tableau: &Tableau,
    limits: &mut Vec<Limit>,
) -> Result<(), Memory> {
    for column in 0..tableau.columns().saturating_add(tableau.rows()) {
        put(limits, form_of(alloc, tableau, column)?)?;
    }
    Ok(())
}
