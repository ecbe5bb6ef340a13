//! Whole cubes that are tried in the place of a lemma's, and bounds of a lemma that are widened. Each is
//! a guess: only what the frame below implies is taken.
#![tactic(auto)]

mod excluding;
mod learning;
mod moving;
mod proposing;
mod shrinking;
mod tidying;
mod widening;

pub use excluding::{narrow, try_bounds};
pub use learning::improved;
pub use proposing::{propose, propose_alike, propose_hulls};
pub use tidying::tidy;
pub use widening::widen;
