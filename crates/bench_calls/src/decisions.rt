//! For `bench/solver.sh`: formulas are decided by `lia_cases`.

use base::{Items, MOST_VARIABLES, Memory};
use lia_cases::{Decision, are_below, decide_owned, have_short_multiples};
use lia_search::has_short_multiples;
use lin_atoms::{Divisor, Form, Lin, Lit};
use std::alloc::Global;

/// What a row says: that its form is at most 0, that it is 0, that the number divides it, that the number
/// doesn't divide it, or that so many formulas that were made last are joined.
const LE: i64 = 0;

const EQ: i64 = 1;

const DIV: i64 = 2;

const NDIV: i64 = 3;

const AND: i64 = 4;

const OR: i64 = 5;

/// How many numbers a row has: what it says, the number, a constant, and the coefficients of twelve
/// variables.
const ROW: usize = 15;

/// What is answered.
const REFUTED: i32 = 0;

const MODEL: i32 = 1;

const GIVEN_UP: i32 = 2;

const OTHER: i32 = 3;

/// The form of a constant and coefficients.
fn lin(alloc: Global, constant: i64, coefficients: &[i64]) -> Result<Lin, Memory> {
    let mut terms = Vec::new(alloc);
    for (variable, a) in coefficients.iter().enumerate() {
        if *a != 0 && variable < 1 << 32 {
            terms.push((variable as u32, *a))?;
        }
    }
    Lin::new(terms, i128::from(constant)).map_err(|_stop| Memory)
}

/// The literal of that kind.
fn lit(kind: i64, n: i64, lin: Lin) -> Option<Lit> {
    if kind == LE {
        return Some(Lit::Le(lin));
    }
    if kind == EQ {
        return Some(Lit::Eq(lin));
    }
    let n = Divisor::new(n)?;
    match kind {
        DIV => Some(Lit::Div(n, lin)),
        NDIV => Some(Lit::NDiv(n, lin)),
        _ => None,
    }
}

/// The literal of a row.
fn literal(alloc: Global, row: &[i64]) -> Result<Form, Memory> {
    if row.len() != ROW {
        return Err(Memory);
    }
    let lin = lin(alloc, row[2], &row[3..])?;
    match lit(row[0], row[1], lin) {
        Some(lit) => Ok(Form::Lit(lit)),
        None => Err(Memory),
    }
}

/// So many of the formulas that were made last, the last one first.
fn last(alloc: Global, made: &mut Items<Form>, count: i64) -> Result<Items<Form>, Memory> {
    let mut parts = Items::new(alloc);
    for _ in 0..count {
        if let Some(form) = made.pop() {
            parts.push(form)?;
        }
    }
    Ok(parts)
}

/// The formula of a row.
fn formula(alloc: Global, made: &mut Items<Form>, row: &[i64]) -> Result<Form, Memory> {
    if row.len() == ROW && row[0] == AND {
        return Ok(Form::And(last(alloc, made, row[1])?));
    }
    if row.len() == ROW && row[0] == OR {
        return Ok(Form::Or(last(alloc, made, row[1])?));
    }
    literal(alloc, row)
}

/// The formulas that the rows leave.
fn formulas(alloc: Global, rows: &[i64]) -> Result<Items<Form>, Memory> {
    let mut made = Items::new(alloc);
    for row in rows.chunks(ROW) {
        let form = formula(alloc, &mut made, row)?;
        made.push(form)?;
    }
    Ok(made)
}

/// Writes a point, as far as there is room.
fn write(values: &[i64], point: &mut [i64]) {
    for (at, value) in values.iter().enumerate() {
        if at < point.len() {
            point[at] = *value;
        }
    }
}

fn told(decision: &Decision, point: &mut [i64]) -> i32 {
    match decision {
        Decision::Refuted(_) => REFUTED,
        Decision::Model(values) => {
            write(values.as_slice(), point);
            MODEL
        }
        Decision::GaveUp(_) => GIVEN_UP,
    }
}

fn decided(
    alloc: Global,
    form: Form,
    lemmas: Items<Form>,
    vars: u32,
    nodes: u32,
    point: &mut [i64],
) -> Result<i32, Memory> {
    if !form.is_below(vars as usize) || !are_below(lemmas.as_slice(), vars) {
        return Ok(OTHER);
    }
    if !has_short_multiples(&form) || !have_short_multiples(lemmas.as_slice()) {
        return Ok(OTHER);
    }
    if nodes == 0 || vars as usize > MOST_VARIABLES {
        return Ok(OTHER);
    }
    let decision = decide_owned(alloc, form, lemmas, vars, nodes)?;
    Ok(told(&decision, point))
}

fn solved(
    alloc: Global,
    rows: &[i64],
    vars: u32,
    nodes: u32,
    point: &mut [i64],
) -> Result<i32, Memory> {
    let mut made = formulas(alloc, rows)?;
    match made.pop() {
        Some(form) => decided(alloc, form, made, vars, nodes, point),
        None => Ok(OTHER),
    }
}

/// Decides the formula that the last row makes, with the formulas that are left before it as lemmas. Rows
/// join those that were made last. The answer is 0 where it is refuted, 1 where the point makes it true, 2
/// where it is given up, and 3 where the rows make none that the solver takes or there is no memory.
#[unsafe(no_mangle)]
pub extern "C" fn lia_cases_decide(
    alloc: Global,
    rows: &[i64],
    vars: u32,
    nodes: u32,
    point: &mut [i64],
) -> i32 {
    match solved(alloc, rows, vars, nodes, point) {
        Ok(answer) => answer,
        Err(_) => OTHER,
    }
}
