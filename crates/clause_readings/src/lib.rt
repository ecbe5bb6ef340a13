//! Laws of readings: the system of clauses of a text, and each refusal of it by clauses, doesn't depend on
//! how the terms of its script are numbered, nor does what is a derivation or a solution of it.
#![tactic(auto)]

mod laws;

pub use laws::{
    numbering_is_free, texts_have_one_system, texts_have_the_same_derivations,
    texts_have_the_same_solutions,
};
