//! The equations of a tableau: variables and forms whose bounds leave one value.

ghost use Rattle.std.specs.Prelude.{◌≡◌, ◌<◌, true};
ghost use Rattle.int_rows.specs.Table.{width};

use crate::equation::Equation;
use base::Memory;
use int_rows::Tableau;
use std::alloc::Global;

/// A form, and what it is at least and at most.
#[derive(Drop)]
pub(crate) struct Range {
    pub(crate) terms: Vec<(u32, i128)>,
    pub(crate) lower: Option<i128>,
    pub(crate) upper: Option<i128>,
}

/// Whether the tableau has a column of this number.
pub fn has_column(tableau: &Tableau, column: usize) -> bool
    ensures { result ≡ true → column < width tableau.now }
{
    match tableau.columns().checked_add(tableau.rows()) {
        Some(width) => column < width,
        None => false,
    }
}

/// What the column is at least and at most.
fn sides(tableau: &Tableau, column: usize) -> (Option<i128>, Option<i128>) {
    if has_column(tableau, column) {
        return (tableau.lower(column), tableau.upper(column));
    }
    (None, None)
}

/// The value that the bounds leave alone.
pub(crate) fn one_value(lower: Option<i128>, upper: Option<i128>) -> Option<i128> {
    match (lower, upper) {
        (Some(lower), Some(upper)) => { if lower == upper { Some(lower) } else { None } }
        _ => None,
    }
}

/// The term of a variable that occurs.
fn put_term(terms: &mut Vec<(u32, i128)>, variable: usize, entry: i64) -> Result<(), Memory> {
    if entry != 0 {
        if let Ok(variable) = u32::try_from(variable) {
            terms.push((variable, -i128::from(entry)))?;
        }
    }
    Ok(())
}

/// The terms of the form whose slack is the basic variable of a row before the first pivot.
fn put_terms(
    terms: &mut Vec<(u32, i128)>,
    entries: &[i64],
    variables: usize,
) -> Result<(), Memory> {
    let own = &entries[..variables.min(entries.len())];
    for (variable, entry) in own.iter().enumerate() {
        put_term(terms, variable, *entry)?;
    }
    Ok(())
}

/// The terms of a column before the first pivot, in variables.
fn put_form(terms: &mut Vec<(u32, i128)>, tableau: &Tableau, column: usize) -> Result<(), Memory> {
    let variables = tableau.columns();
    match column.checked_sub(variables) {
        Some(row) => {
            if row < tableau.rows() {
                put_terms(terms, tableau.row(row), variables)
            } else {
                Ok(())
            }
        }
        None => put_term(terms, column, -1),
    }
}

/// The form of a column before the first pivot, with its bounds.
pub(crate) fn form_of(alloc: Global, tableau: &Tableau, column: usize) -> Result<Range, Memory> {
    let (lower, upper) = sides(tableau, column);
    let mut terms = Vec::new(alloc);
    put_form(&mut terms, tableau, column)?;
    Ok(Range {
        terms,
        lower,
        upper,
    })
}

/// Whether the other term is there and the same, or, where it is to be turned, with the sign turned.
fn is_term(term: &(u32, i128), other: Option<&(u32, i128)>, is_turned: bool) -> bool {
    match other {
        Some((variable, times)) => {
            let times = if is_turned {
                times.wrapping_neg()
            } else {
                *times
            };
            term.0 == *variable && term.1 == times
        }
        None => false,
    }
}

/// Whether the one list of terms is the other, or, where it is to be turned, the other with each sign
/// turned.
fn is_same(terms: &[(u32, i128)], others: &[(u32, i128)], is_turned: bool) -> bool {
    if terms.len() != others.len() {
        return false;
    }
    for (at, term) in terms.iter().enumerate() {
        if !is_term(term, others.get(at), is_turned) {
            return false;
        }
    }
    true
}

/// The greater of two bounds, or the one that is there.
fn greater(a: Option<i128>, b: Option<i128>) -> Option<i128> {
    match (a, b) {
        (Some(a), Some(b)) => Some(a.max(b)),
        (Some(a), None) => Some(a),
        (None, b) => b,
    }
}

fn lesser(a: Option<i128>, b: Option<i128>) -> Option<i128> {
    match (a, b) {
        (Some(a), Some(b)) => Some(a.min(b)),
        (Some(a), None) => Some(a),
        (None, b) => b,
    }
}

fn turned(bound: Option<i128>) -> Option<i128> {
    bound?.checked_neg()
}

impl Range {
    /// The bounds of the same form, or of the turned one.
    fn meet(&mut self, other: &Range) {
        if is_same(self.terms.as_slice(), other.terms.as_slice(), false) {
            self.lower = greater(self.lower, other.lower);
            self.upper = lesser(self.upper, other.upper);
        } else if is_same(self.terms.as_slice(), other.terms.as_slice(), true) {
            self.lower = greater(self.lower, turned(other.upper));
            self.upper = lesser(self.upper, turned(other.lower));
        }
    }

    /// The bounds of all forms that are the same or turned, where its own leave more than one value.
    fn meet_all(&mut self, others: &[Range]) {
        if one_value(self.lower, self.upper).is_some() {
            return;
        }
        for other in others {
            self.meet(other);
        }
    }
}

/// The forms of the rows, each with the bounds of those before it.
fn put_ranges(alloc: Global, tableau: &Tableau, ranges: &mut Vec<Range>) -> Result<(), Memory> {
    for row in 0..tableau.rows() {
        let mut own = form_of(alloc, tableau, tableau.columns().saturating_add(row))?;
        own.meet_all(ranges.as_slice());
        ranges.push(own)?;
    }
    Ok(())
}

/// The equation of a form whose bounds leave one value.
fn put_range(equations: &mut Vec<Equation>, range: Range) -> Result<(), Memory> {
    let Range {
        terms,
        lower,
        upper,
    } = range;
    if let Some(value) = one_value(lower, upper) {
        equations.push(Equation { terms, value })?;
    }
    Ok(())
}

/// The equations that single variables stand in.
fn put_variables(
    alloc: Global,
    tableau: &Tableau,
    equations: &mut Vec<Equation>,
) -> Result<(), Memory> {
    for variable in 0..tableau.columns() {
        put_range(equations, form_of(alloc, tableau, variable)?)?;
    }
    Ok(())
}

/// The equations of the forms, the last one first.
fn put_forms(
    alloc: Global,
    tableau: &Tableau,
    equations: &mut Vec<Equation>,
) -> Result<(), Memory> {
    let mut ranges = Vec::new(alloc);
    put_ranges(alloc, tableau, &mut ranges)?;
    'ranges: while let Some(range) = ranges.pop() {
        put_range(equations, range)?;
    }
    Ok(())
}

/// The equations of a tableau before its first pivot join the others.
pub(crate) fn put_equations(
    alloc: Global,
    tableau: &Tableau,
    equations: &mut Vec<Equation>,
) -> Result<(), Memory> {
    put_variables(alloc, tableau, equations)?;
    put_forms(alloc, tableau, equations)
}
