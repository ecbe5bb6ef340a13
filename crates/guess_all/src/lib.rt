//! What is guessed of a system's predicates before its search and beside it: hulls and bounds. Nothing is
//! promised of them.
#![tactic(auto)]

mod hints;

pub use hints::{Hints, hints_of};
