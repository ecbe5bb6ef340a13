//! Clauses that are run forward: from tuples of their body atoms to tuples of their heads, by the ranges of
//! their variables and by guesses, without the integer solver. Nothing is promised of what comes of it.
#![tactic(auto)]

mod choosing;
mod instances;
mod matching;
mod ranges;
mod running;
mod settling;
mod states;
mod tightening;
mod tuples;

pub use instances::Found;
pub use running::{Limits, run_clause};
pub use tuples::{Derived, Tuples};
