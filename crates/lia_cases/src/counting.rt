//! How many literals join at once.

use lin_atoms::Form;

/// How many literals of lemmas join at once at most.
const MOST_OF_LEMMAS: usize = 16;

/// How many literals the flattened formula has. More than 2^64 - 1 count as 2^64 - 1: a search takes as
/// many as there are.
#[cycle(literals)]
fn literals(form: &Form) -> usize {
    match form {
        Form::True => 0,
        Form::False => 1,
        Form::Lit(_) => 1,
        Form::And(parts) => all_literals(parts.as_slice()),
        Form::Or(_) => 0,
    }
}

#[cycle(literals)]
fn all_literals(parts: &[Form]) -> usize {
    let mut count: usize = 0;
    for part in parts {
        count = count.saturating_add(literals(part));
    }
    count
}

/// How many literals of a flattened formula and its lemmas join at once: the formula's, and the first ones
/// that are lemmas.
pub(crate) fn first_literals(form: &Form, lemmas: &[Form]) -> usize {
    let own = literals(form);
    own.saturating_add(all_literals(lemmas).min(MOST_OF_LEMMAS))
}
