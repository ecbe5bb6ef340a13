//! The least and the greatest value of each variable, as far as they are known.

use base::Memory;
use std::alloc::Global;

/// Numbers as far from 0 as this, or further, aren't looked at.
pub(crate) const FURTHEST: i64 = 1 << 61;

/// The range of each variable of a clause.
#[derive(Drop)]
pub(crate) struct Ranges {
    low: Vec<i64>,
    high: Vec<i64>,
    /// Whether a range has become smaller since it was asked last.
    has_changed: bool,
    /// Whether a range is empty, or something else can't hold.
    has_failed: bool,
}

impl Ranges {
    /// Nothing is known of so many variables.
    pub(crate) fn new(alloc: Global, count: usize) -> Result<Ranges, Memory> {
        let low = vec![in alloc; -FURTHEST; count]?;
        let high = vec![in alloc; FURTHEST; count]?;
        Ok(Ranges {
            low,
            high,
            has_changed: false,
            has_failed: false,
        })
    }

    /// A copy of the ranges.
    pub(crate) fn copy(&self, alloc: Global) -> Result<Ranges, Memory> {
        let low = Vec::from_slice(alloc, self.low.as_slice())?;
        let high = Vec::from_slice(alloc, self.high.as_slice())?;
        Ok(Ranges {
            low,
            high,
            has_changed: self.has_changed,
            has_failed: self.has_failed,
        })
    }

    /// How many variables there are.
    pub(crate) fn count(&self) -> usize {
        self.low.len()
    }

    /// The variable's range.
    pub(crate) fn of(&self, variable: u32) -> (i64, i64) {
        let at = variable as usize;
        match (self.low.as_slice().get(at), self.high.as_slice().get(at)) {
            (Some(low), Some(high)) => (*low, *high),
            _ => (0, 0),
        }
    }

    /// The variable's value, if it is known.
    pub(crate) fn value(&self, variable: u32) -> Option<i64> {
        let (low, high) = self.of(variable);
        if low == high { Some(low) } else { None }
    }

    /// How many values the range has but one.
    pub(crate) fn width(&self, variable: u32) -> u64 {
        let (low, high) = self.of(variable);
        low.abs_diff(high)
    }

    /// Whether the variable may have this value.
    pub(crate) fn has(&self, variable: u32, value: i64) -> bool {
        let (low, high) = self.of(variable);
        low <= value && value <= high
    }

    /// The variable is at least so much.
    pub(crate) fn raise(&mut self, variable: u32, least: i64) {
        let (low, high) = self.of(variable);
        if least <= low {
            return;
        }
        if let Some(own) = self.low.as_mut_slice().get_mut(variable as usize) {
            *own = least;
        }
        self.has_changed = true;
        if least > high {
            self.has_failed = true;
        }
    }

    /// The variable is at most so much.
    pub(crate) fn lower(&mut self, variable: u32, most: i64) {
        let (low, high) = self.of(variable);
        if most >= high {
            return;
        }
        if let Some(own) = self.high.as_mut_slice().get_mut(variable as usize) {
            *own = most;
        }
        self.has_changed = true;
        if most < low {
            self.has_failed = true;
        }
    }

    /// The variable has this value.
    pub(crate) fn fix(&mut self, variable: u32, value: i64) {
        self.raise(variable, value);
        self.lower(variable, value);
    }

    /// Something can't hold.
    pub(crate) fn fail(&mut self) {
        self.has_failed = true;
    }

    /// Whether something can't hold.
    pub(crate) fn has_failed(&self) -> bool {
        self.has_failed
    }

    /// Whether a range has become smaller since it was asked last.
    pub(crate) fn take_changed(&mut self) -> bool {
        let changed = self.has_changed;
        self.has_changed = false;
        changed
    }

    /// For each variable a value of its range: the one that is nearest to 0.
    pub(crate) fn point(&self, alloc: Global) -> Result<Vec<i64>, Memory> {
        let mut point = Vec::with_capacity(alloc, self.count())?;
        for (low, high) in self.low.as_slice().iter().zip(self.high.as_slice()) {
            point.push(nearest(*low, *high))?;
        }
        Ok(point)
    }
}

/// The value of the range that is nearest to 0.
pub(crate) fn nearest(low: i64, high: i64) -> i64 {
    if low > 0 {
        low
    } else if high < 0 {
        high
    } else {
        0
    }
}
