//! Assertions as Horn clauses: variables, body atoms, guards and a head, the instances of a clause,
//! and derivations.
#![tactic(auto)]

mod body;
mod clause;
mod disjunct;
mod gather;
mod laws;
mod plain;
mod reading;
mod shape;
mod stop;

pub use clause::{AtomUse, HornClause, Part};
pub use laws::{
    bodies_say_their_parts, breaking_instances, one_answer, plain_terms_are_plain,
    unbroken_definitions,
};
pub use plain::PlainTerms;
pub use reading::{clause_of, clause_with, has_assertion};
pub use stop::HornStop;
