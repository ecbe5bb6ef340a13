//! Laws of readings of answers: what the definitions that a text spells ask of a clause doesn't depend on
//! how their terms are numbered.
#![tactic(auto)]

mod laws;

pub use laws::definitions_ask_the_same;
