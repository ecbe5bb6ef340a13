//! The instances that make an assertion false under definitions of the predicates, as one formula.
#![tactic(auto)]

mod classes;
mod defined;
mod judging;
mod putting;

pub use defined::{with_definitions, with_tables};
