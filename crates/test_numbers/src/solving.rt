//! Tableaux of forms, and their answers put into the equations and bounds again.

use crate::made::form;
use crate::tableaux::are_below;
use int_rows::Tableau;
use lin_atoms::{Lin, Ratio};
use simplex_core::{Feasible, WideEvidence, feasible};
use std::alloc::Global;
use std::mem;
use std::process::Abort;

/// The forms with these coefficients.
fn forms(rt: &impl Abort, alloc: Global, coefficients: &[[i64; 4]]) -> Vec<Lin> {
    let mut forms = Vec::new(alloc);
    for row in coefficients {
        forms
            .push(form(rt, alloc, row.as_slice(), 0))
            .expect(rt, "memory");
    }
    forms
}

/// The tableau of the forms with these coefficients, of four variables each.
pub(crate) fn of_forms(rt: &impl Abort, alloc: Global, coefficients: &[[i64; 4]]) -> Tableau {
    let forms = forms(rt, alloc, coefficients);
    assert!(rt; are_below(forms.as_slice(), 4));
    let t = Tableau::new(alloc, forms.as_slice(), 4).expect(rt, "a tableau");
    mem::forget(forms);
    t
}

/// How many columns there are.
pub(crate) fn width(t: &Tableau) -> usize {
    t.columns().saturating_add(t.rows())
}

/// Gives a column a lower bound, where both are in range.
pub(crate) fn at_least(t: &mut Tableau, column: usize, bound: i128) {
    if column < t.columns() || (column - t.columns()) < t.rows() {
        if bound.unsigned_abs() < 1 << 64 {
            t.set_lower(column, bound);
        }
    }
}

/// Gives a column an upper bound, where both are in range.
pub(crate) fn at_most(t: &mut Tableau, column: usize, bound: i128) {
    if column < t.columns() || (column - t.columns()) < t.rows() {
        if bound.unsigned_abs() < 1 << 64 {
            t.set_upper(column, bound);
        }
    }
}

/// Gives a column two bounds.
pub(crate) fn between(t: &mut Tableau, column: usize, lower: i128, upper: i128) {
    at_least(t, column, lower);
    at_most(t, column, upper);
}

/// The lower bound of a column, where it is in range.
fn lower(t: &Tableau, column: usize) -> Option<i128> {
    if column < t.columns() || (column - t.columns()) < t.rows() {
        t.lower(column)
    } else {
        None
    }
}

/// The upper bound of a column, where it is in range.
fn upper(t: &Tableau, column: usize) -> Option<i128> {
    if column < t.columns() || (column - t.columns()) < t.rows() {
        t.upper(column)
    } else {
        None
    }
}

/// Whether the value is at least the bound. Numbers are small.
fn is_above(value: &Ratio, lower: Option<i128>) -> bool {
    match lower {
        Some(l) => l.wrapping_mul(value.den()) <= value.num(),
        None => true,
    }
}

/// Whether the value is at most the bound. Numbers are small.
fn is_below(value: &Ratio, upper: Option<i128>) -> bool {
    match upper {
        Some(u) => u.wrapping_mul(value.den()) >= value.num(),
        None => true,
    }
}

/// Whether the value is a form of the values: their sum with these coefficients. Numbers are small.
fn is_sum(value: &Ratio, coefficients: &[i64], values: &[Ratio]) -> bool {
    let mut num: i128 = 0;
    let mut den: i128 = 1;
    for (coefficient, q) in coefficients.iter().zip(values) {
        let product = i128::from(*coefficient).wrapping_mul(q.num());
        num = num
            .wrapping_mul(q.den())
            .wrapping_add(product.wrapping_mul(den));
        den = den.wrapping_mul(q.den());
    }
    num.wrapping_mul(value.den()) == den.wrapping_mul(value.num())
}

/// Whether each value is within its column's bounds.
fn are_within(t: &Tableau, values: &[Ratio]) -> bool {
    for (column, value) in values.iter().enumerate() {
        if !is_above(value, lower(t, column)) || !is_below(value, upper(t, column)) {
            return false;
        }
    }
    true
}

/// Whether the slack of that number has the value of its form.
fn is_slack(values: &[Ratio], number: usize, row: &[i64]) -> bool {
    match values.get(number.wrapping_add(4)) {
        Some(slack) => is_sum(slack, row, values),
        None => false,
    }
}

/// Whether the values of the variables and slacks meet all equations and bounds.
fn is_vertex(t: &Tableau, coefficients: &[[i64; 4]], values: &[Ratio]) -> bool {
    for (number, row) in coefficients.iter().enumerate() {
        if !is_slack(values, number, row.as_slice()) {
            return false;
        }
    }
    values.len() == width(t) && are_within(t, values)
}

/// The multiplier at a place, which is at least 0, and that multiple of a bound, which is to be there
/// where the multiplier isn't 0.
fn multiple_of(bound: Option<i128>, multipliers: &[i64], place: usize) -> Option<(i128, i128)> {
    let by = match multipliers.get(place) {
        Some(multiplier) if *multiplier >= 0 => i128::from(*multiplier),
        _ => return None,
    };
    match bound {
        Some(bound) => Some((by, bound.wrapping_mul(by))),
        None => { if by == 0 { Some((0, 0)) } else { None } }
    }
}

/// The sum of the multiples of l - v and v - u over a column: the multiple of v, and the constant.
fn summed(t: &Tableau, multipliers: &[i64], column: usize) -> Option<(i128, i128)> {
    let at = column.wrapping_mul(2);
    let of_lower = multiple_of(lower(t, column), multipliers, at);
    let of_upper = multiple_of(upper(t, column), multipliers, at.wrapping_add(1));
    match (of_lower, of_upper) {
        (Some((by_lower, least)), Some((by_upper, greatest))) => Some((
            by_upper.wrapping_sub(by_lower),
            least.wrapping_sub(greatest),
        )),
        _ => None,
    }
}

/// What a column adds to a variable's sum for each multiple of it.
fn share(coefficients: &[[i64; 4]], column: usize, v: usize) -> i128 {
    if v == column {
        return 1;
    }
    match coefficients.get(column.wrapping_sub(4)) {
        Some(row) => match row.get(v) {
            Some(coefficient) => i128::from(*coefficient),
            None => 0,
        },
        None => 0,
    }
}

fn add_column(sums: &mut [i128; 4], coefficients: &[[i64; 4]], column: usize, multiple: i128) {
    for v in 0..4 {
        let more = multiple.wrapping_mul(share(coefficients, column, v));
        sums[v] = sums[v].wrapping_add(more);
    }
}

/// Whether the multipliers contradict: with each slack replaced by its form, their sum is 0 on each
/// variable, and its constant is above 0.
fn is_conflict(t: &Tableau, coefficients: &[[i64; 4]], multipliers: &[i64]) -> bool {
    let mut sums: [i128; 4] = [0; 4];
    let mut constant: i128 = 0;
    for column in 0..width(t) {
        let Some((multiple, more)) = summed(t, multipliers, column) else {
            return false;
        };
        constant = constant.wrapping_add(more);
        add_column(&mut sums, coefficients, column, multiple);
    }
    constant > 0 && sums == [0, 0, 0, 0]
}

/// What is answered, where it holds.
#[derive(Clone, Copy, PartialEq, Eq)]
pub(crate) enum Found {
    Vertex,
    Conflict,
    WideRow(i128),
    WideCoordinate(u32),
    Wrong,
    Memory,
}

/// The answer, or that it doesn't hold.
fn found_if(holds: bool, found: Found) -> Found {
    if holds { found } else { Found::Wrong }
}

/// What is answered for the tableau of these forms, with vertices put into the equations and bounds,
/// and conflicts added up.
pub(crate) fn solved(alloc: Global, t: &mut Tableau, coefficients: &[[i64; 4]]) -> Found {
    let answer = feasible(alloc, t);
    let found = match &answer {
        Ok(Feasible::Vertex(values)) => {
            found_if(is_vertex(t, coefficients, values.as_slice()), Found::Vertex)
        }
        Ok(Feasible::Conflict(multipliers)) => {
            let holds = is_conflict(t, coefficients, multipliers.as_slice());
            found_if(holds, Found::Conflict)
        }
        Ok(Feasible::Wide(WideEvidence::Row { entry, .. })) => Found::WideRow(*entry),
        Ok(Feasible::Wide(WideEvidence::Coordinate { variable, .. })) => {
            Found::WideCoordinate(*variable)
        }
        Err(_) => Found::Memory,
    };
    mem::forget(answer);
    found
}

/// Whether that is what is answered.
pub(crate) fn finds(
    alloc: Global,
    t: &mut Tableau,
    coefficients: &[[i64; 4]],
    wanted: Found,
) -> bool {
    solved(alloc, t, coefficients) == wanted
}

/// Whether the answer is a conflict with these multipliers.
pub(crate) fn has_conflict(alloc: Global, t: &mut Tableau, wanted: &[i64]) -> bool {
    let answer = feasible(alloc, t);
    let has_conflict = match &answer {
        Ok(Feasible::Conflict(multipliers)) => multipliers.as_slice() == wanted,
        _ => false,
    };
    mem::forget(answer);
    has_conflict
}
