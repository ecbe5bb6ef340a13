//! The documented search for an integer point of a formula: a loop over a stack of nodes, depth first,
//! which ends with a point, a refutation, or evidence that it was given up.
#![tactic(auto)]

mod decision;
mod finishing;
mod running;
mod searching;

pub use decision::Decision;
pub use lia_stack::{any_holds, has_short_multiples};
pub use searching::search;
