//! What forms leave by a number, where equations of integers hold.

use crate::column::Column;
use crate::equation::Equation;
use crate::multipliers::{Unsolvable, combine};
use crate::solving::{Met, Solving, solved};
use base::Memory;
use lin_atoms::gcd;
use std::alloc::Global;

/// A form so many times, and multiples of equations: the divisor divides each coefficient of their sum.
#[derive(Drop)]
pub struct Residue {
    /// The form's number.
    pub form: usize,
    pub times: i64,
    /// For each equation its multiplier, from 0 up to below the divisor.
    pub multipliers: Vec<i64>,
    /// The divisor, above `times`.
    pub divisor: i64,
}

/// What equations of integers tell.
#[derive(Drop)]
pub enum Told {
    Unsolvable(Unsolvable),
    Residues(Vec<Residue>),
    Nothing,
}

/// The greatest common divisor of what a row has of columns.
fn common(free: &[Column], row: usize) -> u128 {
    let mut divisor: u128 = 0;
    for column in free {
        if divisor != 1 {
            divisor = gcd(divisor, column.entry(row).unsigned_abs());
        }
    }
    divisor
}

/// Puts what a form leaves by a number above how far its bounds are apart behind the others.
fn put_residue(
    alloc: Global,
    made: &mut Vec<Residue>,
    solving: &Solving,
    count: usize,
    form: usize,
    apart: i128,
) -> Result<(), Memory> {
    let row = count.saturating_add(form);
    let Ok(common) = i128::try_from(common(solving.free.as_slice(), row)) else {
        return Ok(());
    };
    if common <= apart {
        return Ok(());
    }
    if let Some(found) = combine(alloc, solving.done.as_slice(), Some(row), count, common)? {
        made.push(Residue {
            form,
            times: found.times,
            multipliers: found.multipliers,
            divisor: found.divisor,
        })?;
    }
    Ok(())
}

/// Puts the residues of the forms that may have none of what their bounds leave behind the others.
fn put_residues(
    alloc: Global,
    made: &mut Vec<Residue>,
    solving: &Solving,
    forms: &[Equation],
    count: usize,
) -> Result<(), Memory> {
    for (form, row) in forms.iter().enumerate() {
        put_residue(alloc, made, solving, count, form, row.value)?;
    }
    Ok(())
}

/// The residues of the forms that stand behind the first `count` rows.
fn residues(
    alloc: Global,
    solving: &Solving,
    rows: &[Equation],
    count: usize,
) -> Result<Told, Memory> {
    let mut made = Vec::new(alloc);
    let forms = &rows[count.min(rows.len())..];
    put_residues(alloc, &mut made, solving, forms, count)?;
    Ok(Told::Residues(made))
}

/// What the columns with a value tell, the last of which has none that is an integer.
fn unsolvable(alloc: Global, solving: &Solving, count: usize) -> Result<Told, Memory> {
    match combine(alloc, solving.done.as_slice(), None, count, 1)? {
        Some(found) => Ok(Told::Unsolvable(Unsolvable {
            multipliers: found.multipliers,
            divisor: found.divisor,
        })),
        None => Ok(Told::Nothing),
    }
}

/// What the first `count` rows tell, as equations of integers, of the others, which are forms that have as
/// their values how far their bounds are apart. Nothing is promised of it.
pub fn equations_tell(alloc: Global, rows: &[Equation], count: usize) -> Result<Told, Memory> {
    let (solving, met) = solved(alloc, rows, count, &[])?;
    match met {
        Met::Unsolvable => unsolvable(alloc, &solving, count),
        Met::Solved => residues(alloc, &solving, rows, count),
        Met::Lost => Ok(Told::Nothing),
    }
}
