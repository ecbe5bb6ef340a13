//! The bounds of a tableau's columns that the known literals give.

use crate::columns::times;
use crate::said::Said;
use base::Memory;
use lin_atoms::{Lin, Lit};
use std::alloc::Global;

/// A bound of a column, and the literal that gives it: with the sign, and divided.
#[derive(Clone, Copy)]
pub(crate) struct Bound {
    pub(crate) value: i128,
    pub(crate) number: u32,
    pub(crate) sign: i64,
    pub(crate) divisor: i64,
}

/// What a column is at least, and what it is at most.
#[derive(Clone, Copy)]
pub(crate) struct Sides {
    pub(crate) lower: Option<Bound>,
    pub(crate) upper: Option<Bound>,
}

impl Sides {
    /// The least upper bound.
    fn meet_upper(&mut self, bound: Bound) {
        match self.upper {
            Some(other) => {
                if bound.value < other.value {
                    self.upper = Some(bound);
                }
            }
            None => self.upper = Some(bound),
        }
    }

    /// The greatest lower bound.
    fn meet_lower(&mut self, bound: Bound) {
        match self.lower {
            Some(other) => {
                if bound.value > other.value {
                    self.lower = Some(bound);
                }
            }
            None => self.lower = Some(bound),
        }
    }

    /// `times` times the column, plus the constant, is at most 0, by that literal with that sign.
    fn meet(&mut self, times: i128, constant: i128, number: u32, sign: i64) {
        let Some(found) = bound_of(times, constant, number, sign) else {
            return;
        };
        if times > 0 {
            self.meet_upper(found);
        } else {
            self.meet_lower(turned(found));
        }
    }

    /// What the literal says of the column: its form is `times` times the column, but for the constant.
    fn meet_literal(&mut self, lit: &Lit, times: i128, number: u32) {
        match lit {
            Lit::Le(lin) => self.meet(times, lin.constant(), number, 1),
            Lit::Eq(lin) => self.meet_both(times, lin.constant(), number),
            Lit::Div(_, _) => {}
            Lit::NDiv(_, _) => {}
        }
    }

    fn meet_both(&mut self, times: i128, constant: i128, number: u32) {
        self.meet(times, constant, number, 1);
        if let (Some(less), Some(turned)) = (times.checked_neg(), constant.checked_neg()) {
            self.meet(less, turned, number, -1);
        }
    }
}

/// The bound with the other sign.
fn turned(bound: Bound) -> Bound {
    Bound {
        value: bound.value.wrapping_neg(),
        number: bound.number,
        sign: bound.sign,
        divisor: bound.divisor,
    }
}

/// What the column, or with a negative multiple the column with the other sign, is at most.
fn bound_of(times: i128, constant: i128, number: u32, sign: i64) -> Option<Bound> {
    let size = times.checked_abs()?;
    let value = constant.checked_neg()?.checked_div_euclid(size)?;
    match i64::try_from(size) {
        Ok(divisor) => Some(Bound {
            value,
            number,
            sign,
            divisor,
        }),
        Err(_) => None,
    }
}

/// The form of a literal.
fn lin_of(lit: &Lit) -> &Lin {
    match lit {
        Lit::Le(lin) => lin,
        Lit::Eq(lin) => lin,
        Lit::Div(_, lin) => lin,
        Lit::NDiv(_, lin) => lin,
    }
}

/// What the literal says of a variable.
fn meet_variable(sides: &mut [Sides], one: &Said, variable: u32, coefficient: i64) {
    if let Some(own) = sides.get_mut(variable as usize) {
        own.meet_literal(&one.lit, i128::from(coefficient), one.number);
    }
}

/// What the literal says of the slacks whose form, or a divisor of it, is its own.
fn meet_slacks(sides: &mut [Sides], one: &Said, forms: &[Vec<(u32, i128)>], variables: usize) {
    let terms = lin_of(&one.lit).terms();
    for (slack, form) in forms.iter().enumerate() {
        if let Some(times) = times(terms, form.as_slice()) {
            meet_slack(sides, one, variables, slack, times);
        }
    }
}

fn meet_slack(sides: &mut [Sides], one: &Said, variables: usize, slack: usize, times: i128) {
    let Some(column) = variables.checked_add(slack) else {
        return;
    };
    if let Some(own) = sides.get_mut(column) {
        own.meet_literal(&one.lit, times, one.number);
    }
}

/// What the literal says of a column.
fn meet_one(sides: &mut [Sides], one: &Said, forms: &[Vec<(u32, i128)>], variables: usize) {
    let terms = lin_of(&one.lit).terms();
    match terms {
        [(variable, coefficient)] => meet_variable(sides, one, *variable, *coefficient),
        _ => meet_slacks(sides, one, forms, variables),
    }
}

/// What the literals say of the columns.
pub(crate) fn meet_all(
    sides: &mut [Sides],
    said: &[Said],
    forms: &[Vec<(u32, i128)>],
    variables: usize,
) {
    for one in said {
        meet_one(sides, one, forms, variables);
    }
}

/// The tightest bounds of the variables, and of the slacks of the forms, that the literals give, each
/// by one of them.
pub(crate) fn all_sides(
    alloc: Global,
    said: &[Said],
    forms: &[Vec<(u32, i128)>],
    variables: usize,
) -> Result<Vec<Sides>, Memory> {
    let none = Sides {
        lower: None,
        upper: None,
    };
    let mut sides = vec![in alloc; none; variables.saturating_add(forms.len())]?;
    meet_all(sides.as_mut_slice(), said, forms, variables);
    Ok(sides)
}
