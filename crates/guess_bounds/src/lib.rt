//! Upper bounds of linear parts of a predicate's places, plain or under conditions, that hold together
//! as far as a system's clauses were asked: guesses for lemmas, of which none has to be right.
#![tactic(auto)]

mod asking;
mod fixing;
mod following;
mod needing;
mod rounds;
mod walking;

pub use guess_table::{Met, Walk, Wanted};
pub use rounds::Bounds;
pub use walking::walked;
