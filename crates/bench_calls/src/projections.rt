//! For `bench/projection.sh`: conjunctions are projected by `model_project`.

ghost use Rattle.std.specs.Prelude.{◌≡◌, length, true};
ghost use Rattle.std.specs.List.{list_all};
ghost use Rattle.lin_atoms.specs.Truth.{lit_is_below};
ghost use Rattle.model_project.specs.Projection.{are_true};

use base::Memory;
use lin_atoms::{Divisor, Lin, Lit};
use model_project::{Projected, project};
use std::alloc::Global;

/// What a row begins with whose form is claimed to be at most 0, and, as `EQ`, to be 0. Another number
/// divides the form.
const LE: i64 = 0;

const EQ: i64 = -1;

/// How many numbers a literal has: what is claimed, the constant, and three variables with their
/// coefficients.
const ROW: usize = 8;

/// The terms of pairs of a variable and a coefficient. The coefficient 0 is none.
fn terms(alloc: Global, pairs: &[i64]) -> Result<Vec<(u32, i64)>, Memory> {
    let mut made = Vec::new(alloc);
    for pair in pairs.chunks(2) {
        if pair.len() == 2 && pair[1] != 0 && pair[0] >= 0 && pair[0] < 1 << 32 {
            made.push((pair[0] as u32, pair[1]))?;
        }
    }
    Ok(made)
}

/// The literal of a row, if it is one.
fn lit(alloc: Global, row: &[i64]) -> Result<Option<Lit>, Memory> {
    if row.len() != ROW {
        return Ok(None);
    }
    let terms = terms(alloc, &row[2..])?;
    let lin = match Lin::new(terms, i128::from(row[1])) {
        Ok(lin) => lin,
        Err(_) => return Ok(None),
    };
    if row[0] == LE {
        return Ok(Some(Lit::Le(lin)));
    }
    if row[0] == EQ {
        return Ok(Some(Lit::Eq(lin)));
    }
    match Divisor::new(row[0]) {
        Some(divisor) => Ok(Some(Lit::Div(divisor, lin))),
        None => Ok(None),
    }
}

fn lits(alloc: Global, numbers: &[i64]) -> Result<Vec<Lit>, Memory> {
    let mut made = Vec::new(alloc);
    for row in numbers.chunks(ROW) {
        if let Some(lit) = lit(alloc, row)? {
            made.push(lit)?;
        }
    }
    Ok(made)
}

fn all_hold(lits: &[Lit], point: &[i64]) -> bool
    ensures { result ≡ are_true point.now lits.now }
{
    lits.iter().all(|lit| lit.holds(point))
}

fn all_below(lits: &[Lit], n: usize) -> bool
    ensures { result ≡ list_all (lit_is_below n) lits.now }
{
    lits.iter().all(|lit| lit.is_below(n))
}

/// Writes a literal as a row, as far as there is room.
fn write(lit: &Lit, row: &mut [i64]) {
    let (kind, lin) = match lit {
        Lit::Le(lin) => (LE, lin),
        Lit::Eq(lin) => (EQ, lin),
        Lit::Div(divisor, lin) => (divisor.get(), lin),
        Lit::NDiv(divisor, lin) => (divisor.get(), lin),
    };
    if row.len() < 2 {
        return;
    }
    row[0] = kind;
    row[1] = (lin.constant() % (1 << 63)) as i64;
    for (at, (variable, coefficient)) in lin.terms().iter().enumerate() {
        if at < row.len() / 2 - 1 {
            row[2 * at + 2] = i64::from(*variable);
            row[2 * at + 3] = *coefficient;
        }
    }
}

fn write_all(lits: &[Lit], rows: &mut [i64]) {
    for (at, lit) in lits.iter().enumerate() {
        if at < rows.len() / ROW {
            write(lit, &mut rows[at * ROW..at * ROW + ROW]);
        }
    }
}

/// Projects `rounds` times, and answers the last projection.
fn projected(
    alloc: Global,
    lits: &[Lit],
    model: &[i64],
    keep: &[u32],
    rounds: u32,
) -> Result<Option<Projected>, Memory>
    requires holds { are_true model.now lits.now ≡ true }
    requires places { list_all (lit_is_below (length model.now)) lits.now ≡ true }
{
    let mut last = None;
    for _ in 0..rounds {
        last = Some(project(alloc, lits, model, keep)?);
    }
    Ok(last)
}

fn solve(
    alloc: Global,
    rows: &[i64],
    model: &[i64],
    keep: &[u32],
    rounds: u32,
    answer: &mut [i64],
) -> Result<i64, Memory> {
    let lits = lits(alloc, rows)?;
    if !all_hold(lits.as_slice(), model) || !all_below(lits.as_slice(), model.len()) {
        return Ok(-1);
    }
    match projected(alloc, lits.as_slice(), model, keep, rounds)? {
        Some(made) => {
            write_all(made.cube(), answer);
            Ok(made.cube().len() as i64)
        }
        None => Ok(0),
    }
}

/// Projects a conjunction, given as rows of eight numbers, `rounds` times. The answer has the rows
/// of the cube, and the result is their number, or less than 0 where there is no projection.
#[unsafe(no_mangle)]
pub extern "C" fn model_project_rounds(
    alloc: Global,
    rows: &[i64],
    model: &[i64],
    keep: &[u32],
    rounds: u32,
    answer: &mut [i64],
) -> i64 {
    match solve(alloc, rows, model, keep, rounds, answer) {
        Ok(count) => count,
        Err(_) => -2,
    }
}
