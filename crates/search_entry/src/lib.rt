//! Lemmas that enter a book for no obligation, one step after another: those of bounds that refute each query.
#![tactic(auto)]

mod entries;
mod finding;
mod steps;

pub use entries::Entries;
