//! For `bench/simplex.sh`: systems are solved by `simplex_core`.

ghost use Rattle.std.specs.Prelude.{◌≡◌, ◌+◌, ◌*◌, ◌<◌, true, IfOk};
ghost use Rattle.std.specs.List.{list_all};
ghost use Rattle.lin_atoms.specs.Linear.{lin_is_below};
ghost use Rattle.int_rows.specs.Table.{width};

use base::Memory;
use int_rows::Tableau;
use lin_atoms::{Lin, Ratio};
use simplex_core::{Feasible, feasible};
use std::alloc::Global;

/// A vertex, multipliers of a conflict, and any other answer.
const VERTEX: i32 = 0;

const CONFLICT: i32 = 1;

const OTHER: i32 = 2;

/// By what a number is divided so that its rest, which has room, tells answers apart.
const LOW: i128 = 1 << 62;

/// The form of a row of coefficients.
fn form(alloc: Global, row: &[i64]) -> Result<Lin, Memory> {
    let mut terms = Vec::new(alloc);
    for (variable, a) in row.iter().enumerate() {
        if *a != 0 && variable < 1 << 32 {
            terms.push((variable as u32, *a))?;
        }
    }
    Lin::new(terms, 0).map_err(|_stop| Memory)
}

/// The forms of rows of `variables` coefficients.
fn forms(alloc: Global, coefficients: &[i64], variables: u32) -> Result<Vec<Lin>, Memory>
    requires { 0 < variables }
    ensures { IfOk result (λ lins. list_all (lin_is_below variables) lins.items ≡ true) }
{
    let mut lins = Vec::new(alloc);
    for row in coefficients.chunks(variables as usize) {
        let lin = form(alloc, row)?;
        if !lin.is_below(variables as usize) {
            return Err(Memory);
        }
        lins.push(lin)?;
    }
    Ok(lins)
}

/// Sets the bounds that are there of the columns that are there.
fn bound(t: &mut Tableau, columns: usize, lower: &[i64], upper: &[i64])
    requires { columns ≡ width t.old }
    ensures { width t.new ≡ width t.old }
{
    for (column, l) in lower.iter().enumerate() {
        if column < columns && *l != i64::MIN {
            t.set_lower(column, i128::from(*l));
        }
    }
    for (column, u) in upper.iter().enumerate() {
        if column < columns && *u != i64::MAX {
            t.set_upper(column, i128::from(*u));
        }
    }
}

/// Writes a numerator and a denominator for each column.
fn write_vertex(ratios: &[Ratio], answer: &mut [i64]) {
    for (column, ratio) in ratios.iter().enumerate() {
        if column < answer.len() / 2 {
            answer[2 * column] = (ratio.num() % LOW) as i64;
            answer[2 * column + 1] = (ratio.den() % LOW) as i64;
        }
    }
}

fn write_conflict(multipliers: &[i64], answer: &mut [i64]) {
    for (at, multiplier) in multipliers.iter().enumerate() {
        if at < answer.len() {
            answer[at] = *multiplier;
        }
    }
}

fn solve(
    alloc: Global,
    variables: u32,
    coefficients: &[i64],
    lower: &[i64],
    upper: &[i64],
    answer: &mut [i64],
) -> Result<i32, Memory>
    requires { 0 < variables }
{
    let lins = forms(alloc, coefficients, variables)?;
    let mut t = Tableau::new(alloc, lins.as_slice(), variables as usize).map_err(|_stop| Memory)?;
    let columns = variables as usize + lins.len();
    bound(&mut t, columns, lower, upper);
    match feasible(alloc, &mut t)? {
        Feasible::Vertex(ratios) => {
            write_vertex(ratios.as_slice(), answer);
            Ok(VERTEX)
        }
        Feasible::Conflict(multipliers) => {
            write_conflict(multipliers.as_slice(), answer);
            Ok(CONFLICT)
        }
        Feasible::Wide(_) => Ok(OTHER),
    }
}

/// Solves a system: forms row by row, and a lower and an upper bound of each variable and then of
/// each form, where i64::MIN and i64::MAX are none. The answer has two numbers a column.
#[unsafe(no_mangle)]
pub extern "C" fn simplex_core_feasible(
    alloc: Global,
    variables: u32,
    coefficients: &[i64],
    lower: &[i64],
    upper: &[i64],
    answer: &mut [i64],
) -> i32 {
    if variables == 0 {
        return OTHER;
    }
    match solve(alloc, variables, coefficients, lower, upper, answer) {
        Ok(kind) => kind,
        Err(_) => OTHER,
    }
}
