//! Equations are solved one after the other, by combinations of their unknowns.

use crate::column::{Column, less};
use crate::equation::Equation;
use crate::unknowns::{put_columns, put_unknowns};
use base::Memory;
use std::alloc::Global;
use std::mem;

/// So often the columns of an equation are reduced at the most.
const MOST_PASSES: u32 = 300;

/// A column that has its value, by an equation that no later one occurs in.
#[derive(Drop)]
pub(crate) struct Done {
    pub(crate) column: Column,
    /// The equation.
    pub(crate) row: usize,
    pub(crate) value: i128,
}

/// How far equations are solved.
#[derive(Drop)]
pub(crate) struct Solving {
    /// The unknowns that occur.
    pub(crate) unknowns: Vec<u32>,
    /// The columns that have their value.
    pub(crate) done: Vec<Done>,
    /// The columns that no equation met so far has.
    pub(crate) free: Vec<Column>,
}

/// What equations come to.
#[derive(Clone, Copy)]
pub(crate) enum Met {
    Solved,
    /// The value of the last column isn't an integer.
    Unsolvable,
    /// A number had no room, the equations contradict, or they or their unknowns are many.
    Lost,
}

/// What columns are once they are reduced in an equation.
#[derive(Clone, Copy)]
enum Left {
    /// The last one alone is left in it.
    Last,
    Several,
    Nothing,
    Lost,
}

/// The column that the equation has least often, but has.
fn least(free: &[Column], row: usize) -> Option<usize> {
    let mut found = None;
    let mut size = u128::MAX;
    for (at, column) in free.iter().enumerate() {
        let own = column.entry(row).unsigned_abs();
        if own != 0 && own < size {
            found = Some(at);
            size = own;
        }
    }
    found
}

/// The column is reduced by another one in an equation. Whether nothing is left of it there.
fn reduced(own: &mut Column, row: usize, entry: i128, pivot: &mut Column) -> Option<bool> {
    let times = own.entry(row).checked_div_euclid(entry)?;
    if times != 0 {
        own.take_away(times, pivot)?;
    }
    Some(own.entry(row) == 0)
}

/// The columns are reduced by another one in an equation. Whether nothing is left of them there.
fn all_reduced(free: &mut [Column], row: usize, pivot: &mut Column) -> Option<bool> {
    let entry = pivot.entry(row);
    let mut is_done = true;
    for own in free.iter_mut() {
        match reduced(own, row, entry, pivot) {
            Some(true) => {}
            Some(false) => is_done = false,
            None => return None,
        }
    }
    Some(is_done)
}

/// The column that the equation has least often becomes the last, and the others are reduced by it.
fn pass(free: &mut [Column], row: usize) -> Left {
    let Some(at) = least(free, row) else {
        return Left::Nothing;
    };
    let Some((pivot, others)) = free.split_last_mut() else {
        return Left::Lost;
    };
    if let Some(own) = others.get_mut(at) {
        mem::swap(own, pivot);
    }
    match all_reduced(others, row, pivot) {
        Some(true) => Left::Last,
        Some(false) => Left::Several,
        None => Left::Lost,
    }
}

/// Columns are reduced until the equation is left with one of them, the last.
fn reduce(free: &mut [Column], row: usize) -> Left {
    for _ in 0..MOST_PASSES {
        match pass(free, row) {
            Left::Several => {}
            reduced => return reduced,
        }
    }
    Left::Lost
}

/// The value of a column that an equation has so often, and whether that is an integer.
fn value_of(rest: i128, entry: i128) -> (i128, Met) {
    match (rest.checked_rem(entry), rest.checked_div(entry)) {
        (Some(0), Some(value)) => (value, Met::Solved),
        (Some(_), Some(value)) => (value, Met::Unsolvable),
        _ => (0, Met::Lost),
    }
}

impl Solving {
    /// What is left of the value, less what the columns with a value have of the equation.
    fn rest(&self, row: usize, value: i128) -> Option<i128> {
        let mut rest = value;
        for own in self.done.iter() {
            match less(rest, own.column.entry(row), own.value) {
                Some(value) => rest = value,
                None => return None,
            }
        }
        Some(rest)
    }

    /// The last column has its value from the equation, where that is an integer.
    fn determine(&mut self, row: usize, rest: i128) -> Result<Met, Memory> {
        let Some(column) = self.free.pop() else {
            return Ok(Met::Lost);
        };
        let (value, met) = value_of(rest, column.entry(row));
        self.done.push(Done { column, row, value })?;
        Ok(met)
    }

    /// One equation more.
    fn meet(&mut self, row: usize, value: i128) -> Result<Met, Memory> {
        let Some(rest) = self.rest(row, value) else {
            return Ok(Met::Lost);
        };
        match reduce(self.free.as_mut_slice(), row) {
            Left::Last => self.determine(row, rest),
            Left::Nothing => {
                if rest == 0 {
                    Ok(Met::Solved)
                } else {
                    Ok(Met::Lost)
                }
            }
            _ => Ok(Met::Lost),
        }
    }

    /// Equations are met one after the other, until one can't be solved.
    fn meet_all(&mut self, equations: &[Equation]) -> Result<Met, Memory> {
        for (row, equation) in equations.iter().enumerate() {
            match self.meet(row, equation.value)? {
                Met::Solved => {}
                met => return Ok(met),
            }
        }
        Ok(Met::Solved)
    }

    /// The first `count` equations are met, where neither they nor the unknowns are many.
    fn solve(
        &mut self,
        alloc: Global,
        equations: &[Equation],
        count: usize,
        near: &[i128],
    ) -> Result<Met, Memory> {
        if !put_unknowns(&mut self.unknowns, equations)? {
            return Ok(Met::Lost);
        }
        let unknowns = self.unknowns.as_slice();
        put_columns(alloc, &mut self.free, equations, unknowns, near)?;
        self.meet_all(&equations[..count.min(equations.len())])
    }
}

/// The first `count` equations are met one after the other, until one can't be solved. What comes after
/// them are forms, which the columns keep their entries of. What unknowns are near to is told, or nothing.
pub(crate) fn solved(
    alloc: Global,
    equations: &[Equation],
    count: usize,
    near: &[i128],
) -> Result<(Solving, Met), Memory> {
    let mut solving = Solving {
        unknowns: Vec::new(alloc),
        done: Vec::new(alloc),
        free: Vec::new(alloc),
    };
    let met = solving.solve(alloc, equations, count, near)?;
    Ok((solving, met))
}
