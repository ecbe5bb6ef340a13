//! Laws of normal clauses: the points of their guards are the instances of the assertion, and those of
//! the formula with definitions are the instances that make it false.
#![tactic(auto)]

mod laws;

pub use laws::{breaking_points_are_breaking_instances, guards_have_instances};
