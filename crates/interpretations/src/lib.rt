//! Interpretations of predicates at a sat end: the lemmas of a frame as one definition for each
//! predicate.
#![tactic(auto)]

mod answers;
mod conjunctions;
mod defining;
mod kept;
mod laws;
mod literals;
mod nodes;
mod solving;
mod stop;
mod sums;

pub use answers::{definitions_are_answers, definitions_are_read_back};
pub use defining::solution;
pub use laws::{
    definitions_are_formulas, definitions_are_printed, definitions_are_true_in_the_frame,
};
pub use solving::{
    frames_solve_the_script, lemmas_of_books_have_places, sat_ends_solve_the_script,
};
pub use stop::DefinitionStop;
