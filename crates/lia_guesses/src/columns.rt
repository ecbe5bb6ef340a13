//! What the columns of a tableau stand for.

use crate::chain::numbered;
use base::Memory;
use int_rows::Tableau;
use std::alloc::Global;

/// The form whose slack is the basic variable of a row before the first pivot.
fn form(alloc: Global, entries: &[i64], variables: usize) -> Result<Vec<(u32, i128)>, Memory> {
    let mut terms = Vec::new(alloc);
    for (variable, entry) in entries.iter().enumerate() {
        put_term(&mut terms, variable, variables, *entry)?;
    }
    Ok(terms)
}

/// The term of a variable or quotient that occurs.
fn put_term(
    terms: &mut Vec<(u32, i128)>,
    variable: usize,
    variables: usize,
    entry: i64,
) -> Result<(), Memory> {
    if variable < variables && entry != 0 {
        terms.push((numbered(variable)?, -i128::from(entry)))?;
    }
    Ok(())
}

/// The forms of the slacks, before the first pivot.
pub(crate) fn forms(alloc: Global, tableau: &Tableau) -> Result<Vec<Vec<(u32, i128)>>, Memory> {
    let mut forms = Vec::new(alloc);
    let variables = tableau.columns();
    'rows: for row in 0..tableau.rows() {
        forms.push(form(alloc, tableau.row(row), variables)?)?;
    }
    Ok(forms)
}

/// How many times the form the terms are, where they are a multiple of it.
pub(crate) fn times(terms: &[(u32, i64)], form: &[(u32, i128)]) -> Option<i128> {
    if terms.len() != form.len() {
        return None;
    }
    let times = first_times(terms, form)?;
    for (at, (variable, coefficient)) in terms.iter().enumerate() {
        if !is_times(form.get(at), times, *variable, *coefficient) {
            return None;
        }
    }
    Some(times)
}

/// How many times the first coefficient is.
fn first_times(terms: &[(u32, i64)], form: &[(u32, i128)]) -> Option<i128> {
    match (terms.first(), form.first()) {
        (Some((_, coefficient)), Some((_, unit))) => i128::from(*coefficient).checked_div(*unit),
        _ => None,
    }
}

/// Whether the term is `times` times the form's.
fn is_times(own: Option<&(u32, i128)>, times: i128, variable: u32, coefficient: i64) -> bool {
    match own {
        Some((same, unit)) => {
            *same == variable && unit.checked_mul(times) == Some(i128::from(coefficient))
        }
        None => false,
    }
}
