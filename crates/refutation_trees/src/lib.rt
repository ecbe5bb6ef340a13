//! Refutations of forms over the integers as trees, and the evidence that the search for an integer
//! point of a form was given up.
#![tactic(auto)]

mod copying;
mod ends;
mod evidence;
mod gave_up;
mod tree;

pub use ends::{form_end, lit_end};
pub use evidence::Evidence;
pub use gave_up::GaveUp;
pub use tree::Refutation;
