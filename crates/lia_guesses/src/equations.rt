//! Columns with one value, as equations of integers, and what these leave of columns between two bounds.

use crate::chain::{Chain, numbered};
use crate::entries::{set, zeros};
use crate::equation::Equation;
use crate::multipliers::Unsolvable;
use crate::residues::{Residue, Told, equations_tell};
use crate::rows::{both, is_refuted, put_row};
use crate::sides::Sides;
use base::Memory;
use std::alloc::Global;

/// Columns whose bounds are farther apart aren't looked at.
const MOST_APART: i128 = 64;

/// With as many columns as these, no more between two bounds are looked at.
const MOST_COLUMNS: usize = 100;

/// The value of a column whose bounds leave one alone.
fn one_value(sides: &[Sides], column: usize) -> Option<i128> {
    let (lower, upper) = both(sides, column)?;
    if lower.value == upper.value {
        Some(lower.value)
    } else {
        None
    }
}

/// Puts what a column stands for, itself or a form.
fn put_terms(
    terms: &mut Vec<(u32, i128)>,
    forms: &[Vec<(u32, i128)>],
    variables: usize,
    column: usize,
) -> Result<(), Memory> {
    if column < variables {
        terms.push((numbered(column)?, 1))?;
    } else if let Some(own) = forms.get(column - variables) {
        terms.extend_from_slice(own.as_slice())?;
    }
    Ok(())
}

/// Columns, and an equation for each.
#[derive(Drop)]
struct Rows {
    columns: Vec<usize>,
    equations: Vec<Equation>,
}

impl Rows {
    /// One column more, and its equation.
    fn put(
        &mut self,
        alloc: Global,
        forms: &[Vec<(u32, i128)>],
        variables: usize,
        column: usize,
        value: i128,
    ) -> Result<(), Memory> {
        let mut terms = Vec::new(alloc);
        put_terms(&mut terms, forms, variables, column)?;
        self.equations.push(Equation { terms, value })?;
        self.columns.push(column)?;
        Ok(())
    }

    /// The columns with one value.
    fn put_values(
        &mut self,
        alloc: Global,
        forms: &[Vec<(u32, i128)>],
        variables: usize,
        sides: &[Sides],
    ) -> Result<(), Memory> {
        for column in 0..sides.len() {
            if let Some(value) = one_value(sides, column) {
                self.put(alloc, forms, variables, column, value)?;
            }
        }
        Ok(())
    }

    /// The columns between two bounds that aren't far apart, after the others. Each has as its value how
    /// far.
    fn put_boxes(
        &mut self,
        alloc: Global,
        forms: &[Vec<(u32, i128)>],
        variables: usize,
        sides: &[Sides],
    ) -> Result<(), Memory> {
        for column in 0..sides.len() {
            if self.equations.len() >= MOST_COLUMNS {
                return Ok(());
            }
            if let Some(value) = apart(sides, column) {
                self.put(alloc, forms, variables, column, value)?;
            }
        }
        Ok(())
    }
}

/// How far the bounds of a column are apart, where that isn't far.
fn apart(sides: &[Sides], column: usize) -> Option<i128> {
    let (lower, upper) = both(sides, column)?;
    let apart = upper.value.checked_sub(lower.value)?;
    if apart > 0 && apart <= MOST_APART {
        Some(apart)
    } else {
        None
    }
}

/// For each column how often it is taken: those with one value by the multipliers, and of the others one
/// so many times.
fn entries(
    alloc: Global,
    count: usize,
    columns: &[usize],
    multipliers: &[i64],
    more: Option<(usize, i64)>,
) -> Result<Vec<i64>, Memory> {
    let mut entries = zeros(alloc, count)?;
    for (at, times) in multipliers.iter().enumerate() {
        set_entry(entries.as_mut_slice(), columns.get(at), *times);
    }
    if let Some((column, times)) = more {
        set(entries.as_mut_slice(), column, times);
    }
    Ok(entries)
}

fn set_entry(entries: &mut [i64], column: Option<&usize>, times: i64) {
    if let Some(column) = column {
        set(entries, *column, times);
    }
}

/// The column of a residue's form, where `count` columns stand before those of forms.
fn column_of(columns: &[usize], count: usize, form: usize) -> Option<usize> {
    let column = columns.get(count.checked_add(form)?)?;
    Some(*column)
}

/// The residue as a row, where it leaves nothing between the bounds of its column. Whether it does.
fn of_residue(
    alloc: Global,
    chain: &mut Chain,
    sides: &[Sides],
    columns: &[usize],
    count: usize,
    own: &Residue,
) -> Result<bool, Memory> {
    let Some(column) = column_of(columns, count, own.form) else {
        return Ok(false);
    };
    let more = Some((column, own.times));
    let multipliers = own.multipliers.as_slice();
    let entries = entries(alloc, sides.len(), columns, multipliers, more)?;
    let is_refuted = is_refuted(entries.as_slice(), sides, own.divisor);
    if is_refuted {
        put_row(alloc, chain, entries.as_slice(), sides, own.divisor)?;
    }
    Ok(is_refuted)
}

/// The first of the residues that leaves nothing between the bounds of its column. Whether there is one.
fn of_residues(
    alloc: Global,
    chain: &mut Chain,
    sides: &[Sides],
    columns: &[usize],
    count: usize,
    residues: &[Residue],
) -> Result<bool, Memory> {
    for own in residues {
        if of_residue(alloc, chain, sides, columns, count, own)? {
            return Ok(true);
        }
    }
    Ok(false)
}

/// The multiples of columns with one value, as a row.
fn of_values(
    alloc: Global,
    chain: &mut Chain,
    sides: &[Sides],
    columns: &[usize],
    found: &Unsolvable,
) -> Result<bool, Memory> {
    let multipliers = found.multipliers.as_slice();
    let entries = entries(alloc, sides.len(), columns, multipliers, None)?;
    put_row(alloc, chain, entries.as_slice(), sides, found.divisor)?;
    Ok(true)
}

/// What the first `count` rows tell of the others.
fn of_rows(
    alloc: Global,
    chain: &mut Chain,
    sides: &[Sides],
    rows: &Rows,
    count: usize,
) -> Result<bool, Memory> {
    let columns = rows.columns.as_slice();
    match equations_tell(alloc, rows.equations.as_slice(), count)? {
        Told::Unsolvable(found) => of_values(alloc, chain, sides, columns, &found),
        Told::Residues(found) => of_residues(alloc, chain, sides, columns, count, found.as_slice()),
        Told::Nothing => Ok(false),
    }
}

/// Multiples of columns with one value, which add up to what a number divides, but for their values; or
/// which leave by a number nothing of what another column may be. Whether there are any.
pub(crate) fn of_equations(
    alloc: Global,
    chain: &mut Chain,
    forms: &[Vec<(u32, i128)>],
    variables: usize,
    sides: &[Sides],
) -> Result<bool, Memory> {
    let mut rows = Rows {
        columns: Vec::new(alloc),
        equations: Vec::new(alloc),
    };
    rows.put_values(alloc, forms, variables, sides)?;
    let count = rows.equations.len();
    if count == 0 {
        return Ok(false);
    }
    rows.put_boxes(alloc, forms, variables, sides)?;
    of_rows(alloc, chain, sides, &rows, count)
}
