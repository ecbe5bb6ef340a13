//! The integer solver on a formula with lemmas, whose refutations are of the formula and the lemmas that
//! they use alone.
#![tactic(auto)]

mod laws;
mod numbers;
mod outcome;
mod renumbering;
mod uses;
mod using;

pub use laws::used_lemmas_refute_all;
pub use outcome::Outcome;
pub use using::decide_used;
