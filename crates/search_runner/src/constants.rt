//! Numbers of a system that are worth a try.

use base::Memory;
use clause_form::System;
use lin_atoms::{Form, Lin, Lit};
use std::alloc::Global;

/// How many there are.
const MOST_CONSTANTS: usize = 8;

pub(crate) fn lin_of(lit: &Lit) -> &Lin {
    match lit {
        Lit::Le(lin) => lin,
        Lit::Eq(lin) => lin,
        Lit::Div(_, lin) => lin,
        Lit::NDiv(_, lin) => lin,
    }
}

/// The number at which a form with one variable is 0, or near it.
fn root(lin: &Lin) -> Option<i64> {
    match lin.terms() {
        [(_, coefficient)] => match i64::try_from(lin.constant()) {
            Ok(constant) => constant.saturating_neg().checked_div(*coefficient),
            Err(_) => None,
        },
        _ => None,
    }
}

fn push_root(made: &mut Vec<i64>, lit: &Lit) -> Result<(), Memory> {
    if let Some(root) = root(lin_of(lit)) {
        if made.len() < MOST_CONSTANTS && !made.as_slice().contains(&root) {
            made.push(root)?;
        }
    }
    Ok(())
}

/// Adds those of a formula.
#[cycle(push)]
fn push(made: &mut Vec<i64>, form: &Form) -> Result<(), Memory> {
    match form {
        Form::True => Ok(()),
        Form::False => Ok(()),
        Form::Lit(lit) => push_root(made, lit),
        Form::And(parts) => push_all(made, parts.as_slice()),
        Form::Or(parts) => push_all(made, parts.as_slice()),
    }
}

#[cycle(push)]
fn push_all(made: &mut Vec<i64>, parts: &[Form]) -> Result<(), Memory> {
    for part in parts {
        push(made, part)?;
    }
    Ok(())
}

/// The first numbers with which variables are compared, queries first.
pub(crate) fn constants_of(alloc: Global, sys: &System) -> Result<Vec<i64>, Memory> {
    let mut made = Vec::new(alloc);
    for clause in sys.clauses().iter().rev() {
        push(&mut made, &clause.guard)?;
    }
    Ok(made)
}
