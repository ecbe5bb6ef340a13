//! The terms of a text that have an auxiliary variable, in the order of the text.
#![tactic(auto)]

mod laws;
mod needs;
mod parts;
mod walk;

pub use laws::places_follow_sorts;
pub use walk::places;
