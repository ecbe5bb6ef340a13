//! Numbers for what a form is made of. Each literal and each disjunction has one, also those in parts of
//! disjunctions, in the order in which they stand, so that all in a part have numbers in one range.

use base::{Items, Memory};
use lin_atoms::{Form, Lit};
use std::alloc::Global;

/// A literal, and its number. Those of the quotient that it may have are known by the next two numbers.
pub type Numbered<'a> = (&'a Lit, u32);

/// A disjunction, and its number. Those of its parts come behind it.
pub type Case<'a> = (&'a Items<Form>, u32);

/// How many numbers a literal takes: its own one, and those of what is known of its quotient.
pub const PER_LITERAL: u32 = 3;

/// How many numbers the form takes. More than 2^32 - 1 count as 2^32 - 1.
#[cycle(size)]
pub fn size(form: &Form) -> u32 {
    match form {
        Form::True => 0,
        Form::False => PER_LITERAL,
        Form::Lit(_) => PER_LITERAL,
        Form::And(parts) => sizes(parts.as_slice()),
        Form::Or(parts) => sizes(parts.as_slice()).saturating_add(1),
    }
}

/// How many numbers the forms take.
#[cycle(size)]
pub(crate) fn sizes(parts: &[Form]) -> u32 {
    let mut sum: u32 = 0;
    for part in parts {
        sum = sum.saturating_add(size(part));
    }
    sum
}

/// What a form gives where it is flattened: its literals and its open disjunctions, with their numbers.
#[derive(Drop)]
pub struct Flat<'a> {
    pub lits: Vec<Numbered<'a>>,
    pub cases: Vec<Case<'a>>,
}

/// Puts what the form gives behind the others, with numbers from `first` on. `False` is lent by `falsehood`.
#[cycle(flattening)]
fn flatten<'a>(
    form: &'a Form,
    falsehood: &'a Lit,
    first: u32,
    flat: &mut Flat<'a>,
) -> Result<(), Memory> {
    match form {
        Form::True => Ok(()),
        Form::False => {
            flat.lits.push((falsehood, first))?;
            Ok(())
        }
        Form::Lit(lit) => {
            flat.lits.push((lit, first))?;
            Ok(())
        }
        Form::And(parts) => flatten_all(parts.as_slice(), falsehood, first, flat),
        Form::Or(parts) => {
            flat.cases.push((parts, first))?;
            Ok(())
        }
    }
}

#[cycle(flattening)]
fn flatten_all<'a>(
    parts: &'a [Form],
    falsehood: &'a Lit,
    first: u32,
    flat: &mut Flat<'a>,
) -> Result<(), Memory> {
    let mut next = first;
    for part in parts {
        flatten(part, falsehood, next, flat)?;
        next = next.saturating_add(size(part));
    }
    Ok(())
}

/// What a form gives where it is flattened, with numbers from `first` on.
pub fn flat_of<'a>(
    alloc: Global,
    form: &'a Form,
    falsehood: &'a Lit,
    first: u32,
) -> Result<Flat<'a>, Memory> {
    let mut flat = Flat {
        lits: Vec::new(alloc),
        cases: Vec::new(alloc),
    };
    flatten(form, falsehood, first, &mut flat)?;
    Ok(flat)
}

/// Puts open disjunctions behind the others, with more in place of the one at `at`.
pub(crate) fn put_replaced<'a>(
    made: &mut Vec<Case<'a>>,
    open: &[Case<'a>],
    at: usize,
    cases: &[Case<'a>],
) -> Result<(), Memory> {
    let before = at.min(open.len());
    let behind = at.saturating_add(1).min(open.len());
    made.extend_from_slice(&open[..before])?;
    made.extend_from_slice(cases)?;
    made.extend_from_slice(&open[behind..])?;
    Ok(())
}
