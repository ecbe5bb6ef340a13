//! How much work is done, counted in literals that are looked at: nothing goes by a clock, so that each run is
//! the same.

use clause_form::System;
use lin_atoms::Form;
use run_clauses::Limits;

/// How many tuples are kept at most.
pub(crate) const MOST_TUPLES: usize = 60_000;

/// How many numbers are kept at most, those of tuples and of the points that gave them.
pub(crate) const MOST_NUMBERS: usize = 4_000_000;

/// How far from the first value of a variable others are tried at most.
pub(crate) const MOST_REACH: u32 = 64;

/// The work that is done in any case.
const FIRST_WORK: u64 = 20_000;

/// The work for each unit that the search spent.
const WORK_OF_A_UNIT: u64 = 120;

/// For how many literals of the system it is one more.
const LITERALS_FOR_MORE: u64 = 16;

/// The work of an instance of so many variables that was found.
pub(crate) fn work_of(variables: usize) -> u64 {
    (variables as u64 / 4).saturating_add(4)
}

/// How far a clause is run from a tuple.
pub(crate) fn step() -> Limits {
    Limits {
        states: 1_000,
        instances: 40,
        work: 10_000,
        reach: 1,
    }
}

/// How far a query is.
pub(crate) fn query() -> Limits {
    Limits {
        states: 200,
        instances: 1,
        work: 4_000,
        reach: 1,
    }
}

/// How far a clause without body atoms is.
pub(crate) fn start(reach: u32) -> Limits {
    Limits {
        states: 2_000,
        instances: 128,
        work: 20_000,
        reach,
    }
}

/// How many literals a formula has.
#[cycle(literals)]
fn literals(form: &Form) -> u64 {
    match form {
        Form::True => 0,
        Form::False => 0,
        Form::Lit(_) => 1,
        Form::And(parts) => all_literals(parts.as_slice()),
        Form::Or(parts) => all_literals(parts.as_slice()),
    }
}

#[cycle(literals)]
fn all_literals(parts: &[Form]) -> u64 {
    let mut count: u64 = 0;
    for part in parts {
        count = count.saturating_add(literals(part));
    }
    count
}

/// How many literals the system has.
pub(crate) fn size_of(sys: &System) -> u64 {
    let mut count: u64 = 0;
    for clause in sys.clauses() {
        count = count.saturating_add(literals(&clause.guard));
    }
    count
}

/// How much work may be done in a system of that size once the search has spent so many units. A unit takes
/// the longer the larger the system is.
pub(crate) fn share_of(size: u64, spent: u32) -> u64 {
    let own = WORK_OF_A_UNIT.saturating_add(size / LITERALS_FOR_MORE);
    u64::from(spent)
        .saturating_mul(own)
        .saturating_add(FIRST_WORK)
}
