//! The unknowns of equations.

use crate::column::{Column, number_at};
use crate::equation::Equation;
use base::Memory;
use std::alloc::Global;

/// More unknowns or equations than these are left alone.
const MOST: usize = 120;

/// The unknowns of the terms that aren't among the others join them.
fn put_all(unknowns: &mut Vec<u32>, terms: &[(u32, i128)]) -> Result<(), Memory> {
    for (unknown, _) in terms {
        if !unknowns.contains(unknown) {
            unknowns.push(*unknown)?;
        }
    }
    Ok(())
}

/// The unknowns that occur join the others. Whether neither they nor the equations are many.
pub(crate) fn put_unknowns(
    unknowns: &mut Vec<u32>,
    equations: &[Equation],
) -> Result<bool, Memory> {
    if equations.len() > MOST {
        return Ok(false);
    }
    for equation in equations {
        put_all(unknowns, equation.terms.as_slice())?;
        if unknowns.len() > MOST {
            return Ok(false);
        }
    }
    Ok(true)
}

/// How often the terms have the unknown.
fn times(terms: &[(u32, i128)], unknown: u32) -> i128 {
    for (own, times) in terms {
        if *own == unknown {
            return *times;
        }
    }
    0
}

/// How often each equation has the unknown.
fn put_entries(entries: &mut [i128], equations: &[Equation], unknown: u32) {
    for (at, equation) in equations.iter().enumerate() {
        if let Some(own) = entries.get_mut(at) {
            *own = times(equation.terms.as_slice(), unknown);
        }
    }
}

/// The column of an unknown, where of `count` parts the one at `at` is its own.
fn put_column(
    alloc: Global,
    columns: &mut Vec<Column>,
    equations: &[Equation],
    count: usize,
    at: usize,
    unknown: u32,
    near: i128,
) -> Result<(), Memory> {
    let rows = equations.len();
    let mut entries = vec![in alloc; 0; rows.saturating_add(count)]?;
    put_entries(entries.as_mut_slice(), equations, unknown);
    if let Some(own) = entries.as_mut_slice().get_mut(rows.saturating_add(at)) {
        *own = 1;
    }
    columns.push(Column {
        entries,
        rows,
        near,
    })?;
    Ok(())
}

/// A column for each unknown, with what it is near to, where that is told; and without its parts where
/// nothing is.
pub(crate) fn put_columns(
    alloc: Global,
    columns: &mut Vec<Column>,
    equations: &[Equation],
    unknowns: &[u32],
    near: &[i128],
) -> Result<(), Memory> {
    let count = if near.is_empty() { 0 } else { unknowns.len() };
    for (at, unknown) in unknowns.iter().enumerate() {
        let own = number_at(near, *unknown as usize);
        put_column(alloc, columns, equations, count, at, *unknown, own)?;
    }
    Ok(())
}
